//! What the meta page tells.
ghost use Rattle.std.specs.Prelude.{◌≡◌, IfOk};
ghost use Rattle.page_store.specs.Sources.{IsExcused};
ghost use Rattle.table_state.specs.Counts.{are_small, told};

use cdb_values::limits::GENID_LIMIT;
use page_store::{Page, PageFault, PageSource};
use page_workspace::{COUNT_LIMIT, Meta};

/// What page 0 tells; `None` where it is no meta page, or tells a number of 2^62 or more.
pub(crate) fn read_meta<P: PageSource>(pages: &mut P) -> Result<Option<Meta>, PageFault>
    ensures told { IfOk result (λ found. found ≡ told (P.pages pages.old 0)) }
    ensures pages { P.pages pages.new ≡ P.pages pages.old }
    ensures below { P.below pages.new ≡ P.below pages.old }
    ensures excused { IsExcused result (P.losses pages.old) (P.losses pages.new) }
{
    pages.load(0)?;
    Ok(small_meta(pages.page()))
}

/// What a page tells as the meta page, where its numbers are small.
fn small_meta(page: &Page) -> Option<Meta>
    ensures { result ≡ told page.now }
{
    let meta = Meta::read(page)?;
    if are_below_limits(meta) {
        Some(meta)
    } else {
        None
    }
}

/// Whether the next genid and the number of pages are below their limits.
fn are_below_limits(meta: Meta) -> bool
    ensures { result ≡ are_small meta }
{
    meta.next < GENID_LIMIT && meta.count < COUNT_LIMIT
}
