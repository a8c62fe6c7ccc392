ghost use Rattle.std.specs.Prelude.{◌≡◌, ◌<◌, ◌++◌, OnOk, OnErr, MatchOption, length};
ghost use Rattle.byteorder.specs.Endian.{big_bytes};

use byteorder::{BigEndian, ByteOrder};
use std::alloc::AllocError;

/// Adds the 2 bytes of a number, the highest first.
///
/// Answers `AllocError` for want of memory alone, and adds nothing then.
pub fn put_u16(out: &mut Vec<u8>, n: u16) -> Result<(), AllocError>
    ensures put { OnOk result (out.new.items ≡ out.old.items ++ big_bytes 2 n) }
    ensures kept { OnErr result (out.new.items ≡ out.old.items) }
{
    let mut digits = [0u8; 2];
    BigEndian::write_u16(&mut digits, n);
    out.extend_from_slice(&digits)
}

/// Adds the 4 bytes of a number, the highest first.
///
/// Answers `AllocError` for want of memory alone, and adds nothing then.
pub fn put_u32(out: &mut Vec<u8>, n: u32) -> Result<(), AllocError>
    ensures put { OnOk result (out.new.items ≡ out.old.items ++ big_bytes 4 n) }
    ensures kept { OnErr result (out.new.items ≡ out.old.items) }
{
    let mut digits = [0u8; 4];
    BigEndian::write_u32(&mut digits, n);
    out.extend_from_slice(&digits)
}

/// Adds the 8 bytes of a number, the highest first.
///
/// Answers `AllocError` for want of memory alone, and adds nothing then.
pub fn put_u64(out: &mut Vec<u8>, n: u64) -> Result<(), AllocError>
    ensures put { OnOk result (out.new.items ≡ out.old.items ++ big_bytes 8 n) }
    ensures kept { OnErr result (out.new.items ≡ out.old.items) }
{
    let mut digits = [0u8; 8];
    BigEndian::write_u64(&mut digits, n);
    out.extend_from_slice(&digits)
}

/// The number in the first 4 bytes, the highest first, and the bytes behind it; `None` where there are fewer.
pub fn take_u32(bytes: &[u8]) -> Option<(u32, &[u8])>
    ensures { MatchOption result (length bytes.now < 4) (λ p. big_bytes 4 p.0 ++ p.1.now ≡ bytes.now) }
{
    if bytes.len() < 4 {
        return None;
    }
    let (digits, rest) = bytes.split_at(4);
    Some((BigEndian::read_u32(digits), rest))
}

/// The number in the first 8 bytes, the highest first, and the bytes behind it; `None` where there are fewer.
pub fn take_u64(bytes: &[u8]) -> Option<(u64, &[u8])>
    ensures { MatchOption result (length bytes.now < 8) (λ p. big_bytes 8 p.0 ++ p.1.now ≡ bytes.now) }
{
    if bytes.len() < 8 {
        return None;
    }
    let (digits, rest) = bytes.split_at(8);
    Some((BigEndian::read_u64(digits), rest))
}
