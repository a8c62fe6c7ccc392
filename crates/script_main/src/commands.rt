//! The words of a command.
ghost use Rattle.std.specs.Prelude.{◌≡◌, None, Some, MatchOption};
ghost use Rattle.std.specs.Str.{bytes_eq};
ghost use Rattle.std.specs.String.{string_bytes};
ghost use Rattle.script_main.specs.Words.{folder_of, is_folder, is_play, is_stored_play};

/// The folder in which the stores stand, where the words are `play --stores DIR`. DIR is not empty and does not begin with
/// `-`. Takes no memory.
pub fn store_folder(words: &[String]) -> Option<&str>
    ensures { MatchOption result (folder_of words.now ≡ None) (λ f. folder_of words.now ≡ Some f.now) }
{
    match words {
        [word, option, folder] if is_stored(word, option, folder) => Some(folder.as_str()),
        _ => None,
    }
}

/// Whether the words are `play`, or `play --stores DIR`.
pub(crate) fn is_command(words: &[String]) -> bool
    ensures { result ≡ is_play words.now }
{
    match words {
        [word] => is_word(word, b"play"),
        _ => store_folder(words).is_some(),
    }
}

/// Whether these three words are `play --stores DIR`.
fn is_stored(word: &String, option: &String, folder: &String) -> bool
    ensures { result ≡ is_stored_play (string_bytes word.now) (string_bytes option.now) (string_bytes folder.now) }
{
    is_word(word, b"play") && is_word(option, b"--stores") && is_path(folder.as_bytes())
}

/// Whether a word is this one.
fn is_word(word: &String, name: &[u8]) -> bool
    ensures { result ≡ bytes_eq (string_bytes word.now) name.now }
{
    word.as_bytes() == name
}

/// Whether bytes may be those of a folder: there are some, and the first is no `-`.
fn is_path(bytes: &[u8]) -> bool
    ensures { result ≡ is_folder bytes.now }
{
    match bytes.first() {
        Some(first) => *first != b'-',
        None => false,
    }
}
