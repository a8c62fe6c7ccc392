ghost use Rattle.std.specs.Prelude.{◌≡◌, [], ◌∷◌, ◌++◌, IfOk, OnOk};
ghost use Rattle.key_code.specs.Codes.{escaped, ended};
ghost use Rattle.key_code.specs.Reads.{Unescapes, IsPiece};

use std::alloc::{AllocError, Global};

/// Bytes that were read from their escaped form, and the bytes behind its end.
#[derive(Drop)]
pub(crate) struct Unescaped<'a> {
    pub(crate) bytes: Vec<u8>,
    pub(crate) rest: &'a [u8],
}

/// Adds bytes with each 0 escaped, and the two bytes 0 that end them.
pub(crate) fn put_ended(out: &mut Vec<u8>, bytes: &[u8]) -> Result<(), AllocError>
    ensures { OnOk result (out.new.items ≡ out.old.items ++ ended bytes.now) }
{
    let mut rest = bytes;
    'escaping: while let Some((first, others)) = rest.split_first() {
        put_escaped(out, *first)?;
        rest = others;
    }
    out.push(0)?;
    out.push(0)?;
    Ok(())
}

/// Adds one byte, with 255 behind it where it is 0.
fn put_escaped(out: &mut Vec<u8>, byte: u8) -> Result<(), AllocError>
    ensures { OnOk result (out.new.items ≡ out.old.items ++ escaped (byte ∷ [])) }
{
    out.push(byte)?;
    if byte == 0 {
        out.push(255)?;
    }
    Ok(())
}

/// What stands at the front of escaped bytes.
enum Piece<'a> {
    /// One byte, and what is behind it.
    Byte(u8, &'a [u8]),
    /// The end, and what is behind it.
    End(&'a [u8]),
    /// Neither of them.
    Dead,
}

/// The piece at the front of these bytes.
fn piece_of(bytes: &[u8]) -> Piece<'_>
    ensures { IsPiece result bytes.now }
{
    match bytes.split_first() {
        None => Piece::Dead,
        Some((0, others)) => zero_piece(others),
        Some((first, others)) => Piece::Byte(*first, others),
    }
}

/// The piece at the front of a byte 0 and these bytes.
fn zero_piece(others: &[u8]) -> Piece<'_>
    ensures { IsPiece result (0 ∷ others.now) }
{
    match others.split_first() {
        Some((0, after)) => Piece::End(after),
        Some((255, after)) => Piece::Byte(0, after),
        _ => Piece::Dead,
    }
}

/// Reads bytes from their escaped form; `None` exactly where none stands at the front.
#[tactic(auto, using(crate::proofs::EscapeLemmas::read_more, crate::proofs::EscapeLemmas::read_end))]
pub(crate) fn read_ended(alloc: Global, bytes: &[u8]) -> Result<Option<Unescaped<'_>>, AllocError>
    ensures { IfOk result (λ found. Unescapes found bytes.now) }
{
    let mut text = Vec::new(alloc);
    let mut rest = bytes;
    'reading: loop {
        match piece_of(rest) {
            Piece::Byte(byte, after) => {
                text.push(byte)?;
                rest = after;
            }
            Piece::End(after) => {
                return Ok(Some(Unescaped {
                    bytes: text,
                    rest: after,
                }));
            }
            Piece::Dead => return Ok(None),
        }
    }
}
