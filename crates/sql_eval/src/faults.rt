ghost use Rattle.std.specs.Prelude.{◌≡◌};
ghost use Rattle.sql_eval.specs.declared.faults.EvalFault.TheVariants.{NoMemory};

use std::alloc::{AllocError, AllocFailed};
use thiserror::Error;

/// Why a query gives no rows.
#[derive(Clone, Copy, PartialEq, Eq, Debug, Error)]
pub enum EvalFault {
    /// The total of a SUM leaves 64 bits.
    #[error("the total of a sum leaves 64 bits")]
    Overflow,
    /// Want of memory.
    #[error("out of memory")]
    NoMemory,
}

impl From<AllocError> for EvalFault {
    ghost from_gives = { λ _ e. e ≡ NoMemory };

    fn from(_error: AllocError) -> EvalFault {
        EvalFault::NoMemory
    }
}

impl<T: Drop> From<AllocFailed<T>> for EvalFault {
    ghost from_gives = { λ _ e. e ≡ NoMemory };

    fn from(_error: AllocFailed<T>) -> EvalFault {
        EvalFault::NoMemory
    }
}
