ghost use Rattle.std.specs.Prelude.{◌≡◌};
ghost use Rattle.script_read.specs.declared.scripts.ScriptStop.TheVariants.{NoMemory};

use std::alloc::{AllocError, AllocFailed};
use thiserror::Error;

/// Why bytes gave no script.
#[derive(Debug, Drop, Error)]
pub enum ScriptStop {
    /// The first line with a reason against it, from 1, and the smallest of its reasons: 1 to 8 or 10.
    /// The table at the head of this crate says what they mean.
    #[error("line {line} is refused for reason {why}")]
    Refused { line: u64, why: u8 },
    /// Want of memory.
    #[error("out of memory")]
    NoMemory,
}

impl From<AllocError> for ScriptStop {
    ghost from_gives = { λ _ e. e ≡ NoMemory };

    fn from(_error: AllocError) -> ScriptStop {
        ScriptStop::NoMemory
    }
}

impl<T: Drop> From<AllocFailed<T>> for ScriptStop {
    ghost from_gives = { λ _ e. e ≡ NoMemory };

    fn from(_error: AllocFailed<T>) -> ScriptStop {
        ScriptStop::NoMemory
    }
}
