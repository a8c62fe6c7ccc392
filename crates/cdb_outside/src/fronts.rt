//! Bytes that are given into a buffer.
ghost use Rattle.std.specs.Prelude.{◌≡◌, min, length, take};

/// Copies as many bytes as there are and the buffer has room for, and says how many.
pub(crate) fn copy_front(from: &[u8], buf: &mut [u8]) -> usize
    ensures count { result ≡ min (length buf.old) (length from.now) }
    ensures copied { take result buf.new ≡ take result from.now }
{
    let count = buf.len().min(from.len());
    buf[..count].copy_from_slice(&from[..count]);
    count
}
