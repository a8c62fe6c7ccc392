//! The state for which pages in memory stand.
ghost use Rattle.std.specs.Prelude.{ℕ, ◌≡◌, ◌<◌, IfOk, MatchOption};
ghost use Rattle.page_store.specs.Image.{blank_image};
ghost use Rattle.page_store.specs.Sources.{listed_pages};
ghost use Rattle.page_workspace.specs.Spare.{IsIn};
ghost use Rattle.cdb_values.specs.Rows.{Rows};
ghost use Rattle.table_state.specs.States.{HasState};

use cdb_values::Schema;
use page_store::{MemPages, Page, PageFault};
use std::alloc::{AllocError, Global};
use table_state::{State, state_of};

/// Pages in memory, and the numbers of those that may be other than blank.
#[derive(Drop)]
struct Numbered {
    source: MemPages,
    edited: Vec<u64>,
}

/// The pages of a list, numbered from 0, with blank ones past its end. The error is want of memory.
fn number_pages(alloc: Global, pages: Vec<Page>) -> Result<Numbered, AllocError>
    ensures pages { IfOk result (λ found. found.source.pages ≡ pages.items) }
    ensures others { IfOk result (λ found. (n : ℕ) → (IsIn n found.edited.items → ⊥) →
        listed_pages pages.items n ≡ blank_image) }
{
    let edited = numbers_below(alloc, pages.len() as u64)?;
    let source = MemPages::new(alloc, pages)?;
    Ok(Numbered { source, edited })
}

/// The state of a schema for which the pages of a list stand, numbered from 0, with blank ones past its end. `None`
/// exactly where they stand for none. The error is want of memory.
pub(crate) fn state_on(
    alloc: Global,
    pages: Vec<Page>,
    schema: &Schema,
) -> Result<Option<State>, PageFault>
    ensures { IfOk result (λ r. MatchOption r ((rows : Rows) → HasState (listed_pages pages.items) schema.now rows → ⊥)
        (λ state. HasState (listed_pages pages.items) schema.now state)) }
{
    match number_pages(alloc, pages) {
        Ok(found) => {
            let Numbered { source, edited } = found;
            let mut source = source;
            state_of(alloc, &mut source, schema, edited.as_slice())
        }
        Err(_) => Err(PageFault::NoMemory),
    }
}

/// The numbers below a limit.
fn numbers_below(alloc: Global, limit: u64) -> Result<Vec<u64>, AllocError>
    ensures { IfOk result (λ numbers. (n : ℕ) → n < limit → IsIn n numbers.items) }
{
    let mut numbers = Vec::new(alloc);
    'counting: for number in 0..limit {
        numbers.push(number)?;
    }
    Ok(numbers)
}
