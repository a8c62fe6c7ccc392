//! Words of a line that are numbers.

/// The number that a word is; 0 where there is no word, or it is no number.
pub(crate) fn number_of(word: Option<&str>) -> u64 {
    match word {
        Some(word) => word.parse::<u64>().unwrap_or(0),
        None => 0,
    }
}

/// The same of a node.
pub(crate) fn node_of(word: Option<&str>) -> u8 {
    match word {
        Some(word) => word.parse::<u8>().unwrap_or(0),
        None => 0,
    }
}
