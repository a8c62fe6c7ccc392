//! Equal copies of what is kept, or put into a table.
ghost use Rattle.std.specs.Prelude.{◌≡◌, IfOk};

use phys_log::{CommitId, Decision, copy_entry};
use std::alloc::{AllocError, Global};

/// An equal identity.
pub(crate) fn copy_id(id: &CommitId) -> Result<CommitId, AllocError>
    ensures { IfOk result (λ copy. copy ≡ id.now) }
{
    id.clone()
}

/// An equal decision.
pub(crate) fn copy_decision(alloc: Global, decision: &Decision) -> Result<Decision, AllocError>
    ensures { IfOk result (λ copy. copy ≡ decision.now) }
{
    match decision {
        Decision::Repeat(position) => Ok(Decision::Repeat(*position)),
        Decision::Conflict { position, item } => Ok(Decision::Conflict {
            position: *position,
            item: *item,
        }),
        Decision::Duplicate {
            position,
            table,
            key,
        } => Ok(Decision::Duplicate {
            position: *position,
            table: *table,
            key: *key,
        }),
        Decision::Commit(entry) => Ok(Decision::Commit(copy_entry(alloc, entry)?)),
    }
}
