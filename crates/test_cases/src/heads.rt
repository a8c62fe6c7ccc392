//! The state at the end of a log.
ghost use Rattle.std.specs.Prelude.{ℕ, ◌≡◌, IfOk, MatchOption};
ghost use Rattle.phys_log.specs.Logs.{pages_of};
ghost use Rattle.cdb_values.specs.Rows.{Rows};
ghost use Rattle.table_state.specs.States.{HasState};

use cdb_values::Schema;
use log_replay::{LogPages, PagedLog};
use page_store::PageFault;
use std::alloc::Global;
use table_state::{State, state_of};

/// The state for which the pages of a log stand; `None` where they stand for none. The error is want of memory.
#[tactic(auto, using(crate::proofs::HeadLemmas::blank_beside))]
pub fn state_at_end(
    alloc: Global,
    log: &PagedLog,
    schema: &Schema,
) -> Result<Option<State>, PageFault>
    ensures { IfOk result (λ r. MatchOption r ((rows : Rows) → HasState (pages_of log.now) schema.now rows → ⊥)
        (λ state. HasState (pages_of log.now) schema.now state)) }
{
    let Ok(edited) = log.edited(alloc) else {
        return Err(PageFault::NoMemory);
    };
    match LogPages::new(alloc, log) {
        Ok(pages) => {
            let mut pages = pages;
            state_of(alloc, &mut pages, schema, edited.as_slice())
        }
        Err(_) => Err(PageFault::NoMemory),
    }
}
