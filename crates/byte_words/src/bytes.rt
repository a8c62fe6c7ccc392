ghost use Rattle.std.specs.Prelude.{◌≡◌, ℕ, Bool, ◌==◌, not};
ghost use Rattle.byte_words.specs.Words.{front, behind, is_blank, is_digit, is_lower, is_upper, is_word_byte, is_piece_byte};
ghost use Rattle.std.specs.List.{list_all};

/// A kind of bytes.
pub trait Kind {
    ghost test: { ℕ → Bool };

    /// Whether a byte is of that kind.
    fn is(byte: u8) -> bool
        ensures { result ≡ Self.test byte };
}

/// Space and tab.
pub struct Blank;

impl Kind for Blank {
    ghost test = { is_blank };

    fn is(byte: u8) -> bool {
        byte == b' ' || byte == b'\t'
    }
}

/// Decimal digits.
pub struct Digit;

impl Kind for Digit {
    ghost test = { is_digit };

    fn is(byte: u8) -> bool {
        b'0' <= byte && byte <= b'9'
    }
}

/// Letters, digits and the underscore.
pub struct WordByte;

impl Kind for WordByte {
    ghost test = { is_word_byte };

    fn is(byte: u8) -> bool {
        is_lower_case(byte) || is_upper_case(byte) || Digit::is(byte) || byte == b'_'
    }
}

/// All bytes but space and tab.
pub struct PieceByte;

impl Kind for PieceByte {
    ghost test = { is_piece_byte };

    fn is(byte: u8) -> bool {
        !Blank::is(byte)
    }
}

/// All bytes but LF.
pub struct InLine;

impl Kind for InLine {
    ghost test = { λ b. not (b == 10) };

    fn is(byte: u8) -> bool {
        byte != b'\n'
    }
}

/// Whether a byte is a lower-case letter.
pub fn is_lower_case(byte: u8) -> bool
    ensures { result ≡ is_lower byte }
{
    b'a' <= byte && byte <= b'z'
}

/// Whether a byte is an upper-case letter.
pub fn is_upper_case(byte: u8) -> bool
    ensures { result ≡ is_upper byte }
{
    b'A' <= byte && byte <= b'Z'
}

/// The bytes at the front that are of a kind, and the bytes behind them.
#[tactic(auto, using(crate::proofs::ByteLemmas::while_more, crate::proofs::ByteLemmas::while_before, crate::proofs::ByteLemmas::while_after, crate::proofs::ByteLemmas::while_end_before, crate::proofs::ByteLemmas::while_end_after))]
pub fn split_while<K: Kind>(bytes: &[u8]) -> (&[u8], &[u8])
    ensures before { result.0.now ≡ front K.test bytes.now }
    ensures after { result.1.now ≡ behind K.test bytes.now }
{
    'kinds: for i in 0..bytes.len() {
        if !K::is(bytes[i]) {
            return bytes.split_at(i);
        }
    }
    bytes.split_at(bytes.len())
}

/// The bytes without blanks at their front.
pub fn skip_blanks(bytes: &[u8]) -> &[u8]
    ensures { result.now ≡ behind is_blank bytes.now }
{
    split_while::<Blank>(bytes).1
}

/// Whether all bytes are of a kind.
pub fn is_of_kind<K: Kind>(bytes: &[u8]) -> bool
    ensures { result ≡ list_all K.test bytes.now }
{
    bytes.iter().all(|byte| K::is(*byte))
}
