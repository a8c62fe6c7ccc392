//! Edits of a page, and pages that a workspace takes. What pages keep is shown by `page_cases`.

use page_store::{Cell, Edit, Head, MemPages, Page, PageKind, PageSource, apply, undo};
use page_workspace::Workspace;
use std::alloc::{AllocError, Global};
use std::test::Fail;

/// A source with the meta page of four pages alone; the others were never written.
fn meta_alone(alloc: Global) -> Result<MemPages, Fail> {
    let mut page = Page::blank(alloc)?;
    let before = page.head();
    let after = Head {
        kind: PageKind::Meta,
        ..before
    };
    apply(&mut page, &Edit::SetHead { before, after }, 1)?;
    let cell = Cell::from_slice(
        alloc,
        b"\0\0\0\0\0\0\0\x07\0\0\0\0\0\0\0\x04\0\0\0\0\0\0\0\0",
    )?;
    apply(&mut page, &Edit::PutCell { at: 0, cell }, 1)?;
    Ok(MemPages::new(alloc, vec![in alloc; page]?)?)
}

/// Whether a page has this LSN, so many cells and so many bytes left.
fn is_page(page: &Page, lsn: u64, count: u16, space: u16) -> bool {
    page.lsn() == lsn && page.count() == count && page.space() == space
}

/// The edit that puts a cell of these bytes as the first one.
fn put_of(alloc: Global, bytes: &[u8]) -> Result<Edit, AllocError> {
    let cell = Cell::from_slice(alloc, bytes)?;
    Ok(Edit::PutCell { at: 0, cell })
}

/// An edit is made and taken back, under the LSN before.
#[test]
fn an_edit_is_taken_back(rt: HostRuntime) -> Result<(), Fail> {
    let put = put_of(rt.alloc(), b"ab")?;
    let mut page = Page::blank(rt.alloc())?;
    apply(&mut page, &put, 7)?;
    assert!(rt; is_page(&page, 7, 1, 4066));
    let copy = page.copy()?;
    undo(&mut page, &put, 3)?;
    assert!(rt; is_page(&page, 3, 0, 4072));
    assert!(rt; is_page(&copy, 7, 1, 4066));
    Ok(())
}

/// The number of a page that is taken, 0 where none is.
fn taken<P: PageSource>(alloc: Global, space: &mut Workspace<P>) -> u64 {
    space.take_page(alloc).unwrap_or(0)
}

/// How many cells a page has that is edited so.
fn cells_with<P: PageSource>(space: &mut Workspace<P>, page: u64, edit: Edit) -> Result<u16, Fail> {
    space.edit(page, edit)?;
    space.load(page)?;
    Ok(space.page().count())
}

/// Pages are taken one behind the other, by the meta page; edits are seen in the workspace, and come out in order.
#[test]
fn pages_are_taken(rt: HostRuntime) -> Result<(), Fail> {
    let put = put_of(rt.alloc(), b"b")?;
    let mut space = Workspace::new(rt.alloc(), meta_alone(rt.alloc())?);
    assert_eq!(rt; taken(rt.alloc(), &mut space), 4);
    assert_eq!(rt; taken(rt.alloc(), &mut space), 5);
    assert_eq!(rt; cells_with(&mut space, 5, put)?, 1);
    assert_eq!(rt; space.finish().len(), 3);
    Ok(())
}
