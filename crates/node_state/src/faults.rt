//! What is not kept: why, and what was under way.
use std::alloc::{AllocError, AllocFailed};

/// Why a node did not keep what it was to keep before an event.
#[derive(Clone, Copy, Drop)]
pub(crate) enum Unkept {
    /// Want of memory, or a number that no store has room for: all is as it was.
    NoMemory,
    /// A call of the store failed: the node is down.
    Fault,
}

/// At what event the store of a node failed that is down: at one that its store may hold, or at none.
#[derive(Clone, Copy, Drop)]
pub(crate) enum UnderWay {
    Nothing,
    Lead,
    Take,
    Append,
}

impl From<AllocError> for Unkept {
    ghost use Rattle.std.specs.Prelude.{◌≡◌};
    ghost use Rattle.node_state.specs.declared.faults.Unkept.TheVariants.{NoMemory};

    ghost from_gives = { λ _ e. e ≡ NoMemory };

    fn from(_: AllocError) -> Unkept {
        Unkept::NoMemory
    }
}

impl<T: Drop> From<AllocFailed<T>> for Unkept {
    ghost use Rattle.std.specs.Prelude.{◌≡◌};
    ghost use Rattle.node_state.specs.declared.faults.Unkept.TheVariants.{NoMemory};

    ghost from_gives = { λ _ e. e ≡ NoMemory };

    fn from(_: AllocFailed<T>) -> Unkept {
        Unkept::NoMemory
    }
}
