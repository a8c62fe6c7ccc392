//! Numbers and lengths that fit their fields.
ghost use Rattle.std.specs.Prelude.{length};
ghost use Rattle.std.specs.Bool.{Decides};
ghost use Rattle.frame_code.specs.Spelled.{IsNumber, IsNameBytes};

use cdb_values::Name;
use cdb_values::limits::NUMBER_LIMIT;

/// Names have fewer bytes than this.
const NAME_END: usize = 1 << 8;

/// Whether a number fits its 8 bytes.
pub(crate) fn is_number(number: u64) -> bool
    ensures { Decides result (IsNumber number) }
{
    number < NUMBER_LIMIT
}

/// Whether the length of a name fits its byte.
pub(crate) fn is_name(name: &Name) -> bool
    ensures { Decides result (IsNameBytes name.now) }
{
    name.len() < NAME_END
}
