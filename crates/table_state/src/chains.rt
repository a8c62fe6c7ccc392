//! The free pages, and the pages past the end.
ghost use Rattle.std.specs.Prelude.{◌≡◌, ◌==◌, length, IfOk, option_map};
ghost use Rattle.page_store.specs.Sources.{IsExcused};
ghost use Rattle.table_state.specs.Chains.{is_free_kind, is_free_page, is_blank, is_past, are_past, chain_from};

use page_store::{Page, PageFault, PageKind, PageSource};
use std::alloc::Global;

/// Whether a kind is that of free pages.
fn is_free_page_kind(kind: PageKind) -> bool
    ensures { result ≡ is_free_kind kind }
{
    match kind {
        PageKind::Free => true,
        PageKind::Leaf | PageKind::Inner | PageKind::Meta => false,
    }
}

/// Whether a page is a free one.
fn is_free(page: &Page) -> bool
    ensures { result ≡ is_free_page page.now }
{
    is_free_page_kind(page.head().kind) && (page.head().level == 0 && page.count() == 0)
}

/// Whether a page is one that was never written.
fn is_never_written(page: &Page) -> bool
    ensures { result ≡ is_blank page.now }
{
    is_free(page) && (page.head().right == 0 && page.lsn() == 0)
}

/// Whether a page is blank, if its number is not below the number of pages.
fn is_past_end<P: PageSource>(pages: &mut P, count: u64, id: u64) -> Result<bool, PageFault>
    ensures past { IfOk result (λ b. b ≡ is_past (P.pages pages.old) count id) }
    ensures pages { P.pages pages.new ≡ P.pages pages.old }
    ensures below { P.below pages.new ≡ P.below pages.old }
    ensures excused { IsExcused result (P.losses pages.old) (P.losses pages.new) }
{
    if id < count {
        return Ok(true);
    }
    pages.load(id)?;
    Ok(is_never_written(pages.page()))
}

/// Whether those of these pages are blank that are not below the number of pages.
pub(crate) fn are_past_end<P: PageSource>(
    pages: &mut P,
    count: u64,
    ids: &[u64],
) -> Result<bool, PageFault>
    ensures past { IfOk result (λ b. b ≡ are_past (P.pages pages.old) count ids.now) }
    ensures pages { P.pages pages.new ≡ P.pages pages.old }
    ensures below { P.below pages.new ≡ P.below pages.old }
    ensures excused { IsExcused result (P.losses pages.old) (P.losses pages.new) }
{
    let mut rest = ids;
    'looking: while let Some((id, after)) = rest.split_first() {
        let past = is_past_end(pages, count, *id)?;
        if !past {
            return Ok(false);
        }
        rest = after;
    }
    Ok(true)
}

/// The free pages that are chained from a first one; `None` where one of them is none, or where they are more than the
/// limit.
pub(crate) fn chain<P: PageSource>(
    alloc: Global,
    pages: &mut P,
    first: u64,
    limit: u64,
) -> Result<Option<Vec<u64>>, PageFault>
    ensures found { IfOk result (λ r. option_map (λ v. v.items) r ≡ chain_from (P.pages pages.old) limit first) }
    ensures pages { P.pages pages.new ≡ P.pages pages.old }
    ensures below { P.below pages.new ≡ P.below pages.old }
    ensures excused { IsExcused result (P.losses pages.old) (P.losses pages.new) }
{
    let mut ids = Vec::new(alloc);
    let mut id = first;
    let mut turns = limit;
    'along: while id != 0 {
        if turns == 0 {
            return Ok(None);
        }
        pages.load(id)?;
        let page = pages.page();
        if !is_free(page) {
            return Ok(None);
        }
        ids.push(id).map_err(|_| PageFault::NoMemory)?;
        id = page.head().right;
        turns -= 1;
    }
    Ok(Some(ids))
}
