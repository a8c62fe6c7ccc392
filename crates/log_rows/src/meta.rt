//! What the meta page tells.
ghost use Rattle.std.specs.Prelude.{◌≡◌, IfOk};
ghost use Rattle.byteorder.specs.Endian.{big_number};
ghost use Rattle.page_store.specs.Sources.{IsExcused};
ghost use Rattle.page_workspace.specs.Drafts.{meant};
ghost use Rattle.page_workspace.specs.Spare.{IsMeta, first_cell, count_of, next_genid as next_genid_of};
ghost use Rattle.phys_log.specs.Logs.{pages_of};

use log_replay::PagedLog;
use page_store::{Page, PageFault, PageSource};
use page_workspace::{EditFault, Meta, Workspace};

/// The next genid of a log, as its meta page tells it. Takes no memory.
pub fn next_genid(log: &PagedLog) -> u64
    requires meta { IsMeta (pages_of log.now 0) }
    ensures { result ≡ next_genid_of (pages_of log.now) }
{
    match log.page(0) {
        Some(page) => genid_in(page),
        None => unreachable!(),
    }
}

/// The next genid that a meta page tells.
#[tactic(auto, using(page_workspace::proofs::MetaLaws::none_tells))]
fn genid_in(page: &Page) -> u64
    requires { IsMeta page.now }
    ensures { result ≡ big_number 8 (first_cell page.now.cells) }
{
    let Some(meta) = Meta::read(page) else {
        unreachable!()
    };
    meta.next
}

/// The number of pages, as the meta page of a workspace tells it. Where page 0 is no meta page the answer may be want of
/// memory.
pub(crate) fn page_count<P: PageSource>(space: &mut Workspace<P>) -> Result<u64, PageFault>
    ensures count { IfOk result (λ count. count ≡ count_of (meant P.pages space.old)) }
    ensures edits { space.new.edits ≡ space.old.edits }
    ensures base { P.pages space.new.base ≡ P.pages space.old.base }
    ensures excused { IsExcused result (P.losses space.old.base) (P.losses space.new.base) }
{
    match space.meta() {
        Ok(meta) => Ok(meta.count),
        Err(EditFault::Gone) => Err(PageFault::Gone),
        Err(EditFault::NoMemory | EditFault::Unfit) => Err(PageFault::NoMemory),
    }
}
