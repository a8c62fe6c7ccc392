//! The rows of pages, as a source of versions.
ghost use Rattle.std.specs.Prelude.{ℕ, ◌≡◌, List, IfOk};
ghost use Rattle.cdb_values.specs.Rows.{Rows};
ghost use Rattle.table_store.specs.Stored.{Stands};
ghost use Rattle.page_rows.specs.Standing.{Standing, standing_prop};

use crate::reads::{read_between, read_rows};
use cdb_values::{Interval, List, Schema, Version};
use page_store::{PageFault, PageSource};
use plan_run::{RowFault, RowSource};
use std::alloc::Global;

/// The rows of pages that stand for a state of a schema. As a source of versions it means those of this state, and its
/// count of losses is that of the pages.
#[derive(Drop)]
pub struct PageRows<'a, P: PageSource> {
    pub pages: P,
    pub schema: &'a Schema,
    // the one state that the pages stand for
    pub ghost standing: { Standing (P.pages pages) schema.now } by { standing_prop (P.pages pages) schema.now },
}

impl<'a, P: PageSource> PageRows<'a, P> {
    /// The rows of pages that stand for a state of the schema. Takes no memory.
    pub fn new(pages: P, schema: &'a Schema) -> PageRows<'a, P>
        requires { (rows : Rows) × Stands (P.pages pages) schema.now rows }
        ensures pages { result.pages ≡ pages }
        ensures schema { result.schema.now ≡ schema.now }
        ensures rows { (rows : Rows) → Stands (P.pages pages) schema.now rows → result.standing.0 ≡ rows }
    {
        PageRows { pages, schema }
    }
}

impl<P: PageSource> RowSource for PageRows<'_, P> {
    ghost tables = { λ s. s.schema.now };

    ghost versions = { λ s. s.standing.0.tables };

    ghost losses = { λ s. P.losses s.pages };

    fn rows(&mut self, alloc: Global, table: u16) -> Result<List<Version>, RowFault> {
        match read_rows(alloc, &mut self.pages, self.schema, table) {
            Ok(versions) => Ok(versions),
            Err(PageFault::Gone) => Err(RowFault::Gone),
            Err(PageFault::NoMemory) => Err(RowFault::NoMemory),
        }
    }

    fn between(&mut self, alloc: Global, interval: &Interval) -> Result<List<Version>, RowFault> {
        match read_between(alloc, &mut self.pages, self.schema, interval) {
            Ok(versions) => Ok(versions),
            Err(PageFault::Gone) => Err(RowFault::Gone),
            Err(PageFault::NoMemory) => Err(RowFault::NoMemory),
        }
    }
}
