//! The frame of an entry that stays where it is.
ghost use Rattle.std.specs.Prelude.{◌≡◌, IfOk};
ghost use Rattle.frame_code.specs.Codes.{frame_code};
ghost use Rattle.frame_code.specs.Spelled.{IsSpelled};
ghost use Rattle.frame_code.specs.declared.frames.Frame.TheVariants as frame;

use crate::parts::Part;
use byte_words::put_u64;
use cdb_values::Bytes;
use phys_log::Entry;
use std::alloc::{AllocError, Global};

/// The bytes that stand for the frame of an entry, which has a spelling. The error is want of memory.
pub fn write_entry(alloc: Global, entry: &Entry) -> Result<Bytes, AllocError>
    requires { IsSpelled (frame.Entry entry.now) }
    ensures { IfOk result (λ b. b ≡ frame_code (frame.Entry entry.now)) }
{
    let mut payload = Vec::new(alloc);
    entry.write(alloc, &mut payload)?;
    let mut out = Vec::new(alloc);
    out.push(4)?;
    put_u64(&mut out, payload.len() as u64)?;
    out.extend_from_slice(payload.as_slice())?;
    Ok(Bytes::from_vec(out))
}
