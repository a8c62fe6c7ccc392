//! Bytes that are a name, a text, or any bytes: one type with one set of words, and a kind for each of the three, so that
//! none of them passes for another. Contracts see the bytes.
//!
//! | Type | Holds |
//! |---|---|
//! | `Name` | the name of a session, a table, a column or a key |
//! | `Text` | the value of a text column, or a statement |
//! | `Bytes` | the bytes of a token, a blob or a printed report |
#![tactic(auto)]

ghost use Rattle.std.specs.Prelude.{◌≡◌, ℕ, List, length, IfOk};
ghost use Rattle.std.specs.Str.{bytes_eq};

use std::alloc::{AllocError, Global};
use std::marker::{Model, PhantomData};

/// Bytes, and what they are: `Name`, `Text` and `Bytes` are these, and none of them passes for another. Contracts see the
/// bytes.
#[derive(Clone, Debug, Drop)]
pub struct BytesOf<Kind> {
    bytes: Vec<u8>,
    kind: PhantomData<Kind>,
}

/// That bytes are a name.
#[derive(Clone, Copy, Debug)]
pub struct NameKind;

/// That bytes are a text.
#[derive(Clone, Copy, Debug)]
pub struct TextKind;

/// That bytes are any bytes.
#[derive(Clone, Copy, Debug)]
pub struct AnyKind;

/// A name: of a session, a table, a column or a key.
pub type Name = BytesOf<NameKind>;

/// A text: the value of a text column, or a statement.
pub type Text = BytesOf<TextKind>;

/// The bytes of a token, a blob or a printed report.
pub type Bytes = BytesOf<AnyKind>;

impl<Kind> Model for BytesOf<Kind> {
    ghost Value = { List ℕ };

    ghost view = { λ b. b.bytes.items };
}

impl<Kind> BytesOf<Kind> {
    /// These bytes. Takes no memory.
    pub fn from_vec(bytes: Vec<u8>) -> BytesOf<Kind>
        ensures { result ≡ bytes.items }
    {
        BytesOf {
            bytes,
            kind: PhantomData,
        }
    }

    /// A copy of these bytes.
    pub fn copied(alloc: Global, bytes: &[u8]) -> Result<BytesOf<Kind>, AllocError>
        ensures { IfOk result (λ b. b ≡ bytes.now) }
    {
        Ok(BytesOf::from_vec(Vec::from_slice(alloc, bytes)?))
    }

    /// The bytes.
    pub fn as_bytes(&self) -> &[u8]
        ensures { result.now ≡ self.now }
    {
        self.bytes.as_slice()
    }

    /// How many bytes there are.
    pub fn len(&self) -> usize
        ensures { result ≡ length self.now }
    {
        self.bytes.len()
    }

    /// Whether they are these bytes.
    pub fn is(&self, bytes: &[u8]) -> bool
        ensures { result ≡ bytes_eq self.now bytes.now }
    {
        self.as_bytes() == bytes
    }
}
