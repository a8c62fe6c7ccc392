ghost use Rattle.std.specs.Prelude.{◌↔◌, IsTrue};
ghost use Rattle.std.specs.Str.{IsUtf8};

use cdb_values::Value;
use std::str;

/// A value that was read, and the bytes behind it.
#[derive(Drop)]
pub(crate) struct Read<'a> {
    pub(crate) value: Value,
    pub(crate) rest: &'a [u8],
}

/// Whether bytes are UTF-8.
pub(crate) fn is_text(bytes: &[u8]) -> bool
    ensures { IsTrue result ↔ IsUtf8 bytes.now }
{
    str::from_utf8(bytes).is_ok()
}
