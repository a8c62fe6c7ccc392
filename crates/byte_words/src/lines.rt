ghost use Rattle.std.specs.Prelude.{◌≡◌, ◌<◌, ◌∷◌, [], length, MatchOption};
ghost use Rattle.byte_words.specs.Lines.{lines_of_bytes, without_return, without_end, trimmed, text_of, is_skipped, but_last};

use super::bytes::{Blank, InLine, Kind, skip_blanks, split_while};

/// The first of the lines that bytes are, without its LF, and the bytes of the others; `None` where
/// there is no line.
#[tactic(auto, using(crate::proofs::LineLaws::line_ends, crate::proofs::LineLaws::line_goes_on, crate::proofs::LineLaws::behind_is_shorter))]
pub fn next_line(bytes: &[u8]) -> Option<(&[u8], &[u8])>
    ensures line { MatchOption result (lines_of_bytes bytes.now ≡ [])
        (λ x. lines_of_bytes bytes.now ≡ x.0.now ∷ lines_of_bytes x.1.now) }
    ensures shorter { MatchOption result (length bytes.now ≡ 0) (λ x. length x.1.now < length bytes.now) }
{
    if bytes.is_empty() {
        return None;
    }
    let (line, after) = split_while::<InLine>(bytes);
    match after.split_first() {
        None => Some((line, after)),
        Some((_, others)) => Some((line, others)),
    }
}

/// The text of a line: without one CR at its end, and then without blanks at both ends.
pub fn line_text(line: &[u8]) -> &[u8]
    ensures { result.now ≡ text_of line.now }
{
    trim(drop_return(line))
}

/// Bytes without blanks at both ends.
pub fn trim(bytes: &[u8]) -> &[u8]
    ensures { result.now ≡ trimmed bytes.now }
{
    skip_blanks(drop_end(bytes))
}

/// A line without one CR at its end.
#[tactic(auto, using(crate::proofs::LineLaws::return_dropped, crate::proofs::LineLaws::return_kept, crate::proofs::LineLaws::no_line))]
fn drop_return(line: &[u8]) -> &[u8]
    ensures { result.now ≡ without_return line.now }
{
    match line.split_last() {
        None => line,
        Some((last, others)) => { if *last == b'\r' { others } else { line } }
    }
}

/// Bytes without the blanks at their end.
#[tactic(auto, using(crate::proofs::LineLaws::blank_dropped, crate::proofs::LineLaws::blank_kept, crate::proofs::LineLaws::no_bytes))]
fn drop_end(bytes: &[u8]) -> &[u8]
    ensures { result.now ≡ without_end bytes.now }
{
    let mut rest = bytes;
    'blanks: while let Some((last, others)) = rest.split_last() {
        if !Blank::is(*last) {
            return rest;
        }
        rest = others;
    }
    rest
}

/// Whether a text is empty or a comment.
pub fn is_comment(text: &[u8]) -> bool
    ensures { result ≡ is_skipped text.now }
{
    match text.split_first() {
        None => true,
        Some((first, _)) => *first == b'#',
    }
}

/// The bytes before the last line of these.
#[tactic(auto, using(crate::proofs::LineLaws::last_byte, crate::proofs::LineLaws::one_byte_more, crate::proofs::LineLaws::front_lines, crate::proofs::LineLaws::no_lines))]
pub fn before_last_line(bytes: &[u8]) -> &[u8]
    ensures { lines_of_bytes result.now ≡ but_last (lines_of_bytes bytes.now) }
{
    let Some((_, others)) = bytes.split_last() else {
        return bytes;
    };
    let mut rest = others;
    'bytes: while let Some((last, front)) = rest.split_last() {
        if *last == b'\n' {
            return rest;
        }
        rest = front;
    }
    rest
}
