//! Words of a line.

use std::alloc::{AllocError, Global};

/// The words of a line.
pub(crate) fn words_of(alloc: Global, line: &str) -> Result<Vec<&str>, AllocError> {
    line.split_whitespace().collect(alloc)
}

/// The word at a place of a line; an empty one where there is none.
pub(crate) fn word<'a>(words: &[&'a str], at: usize) -> &'a str {
    match words.get(at) {
        Some(word) => *word,
        None => "",
    }
}

/// The number at a place of a line; 0 where there is none.
pub(crate) fn number(words: &[&str], at: usize) -> u64 {
    word(words, at).parse::<u64>().unwrap_or(0)
}
