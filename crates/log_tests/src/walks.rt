//! Trees that are walked, and pages that are granted and undone. Faults of trees stand in `table_state_tests`.

use super::sound::{schema, set_up};
use btree_index::{insert, scan};
use page_store::{Edit, MemPages, PageFault, PageSource};
use page_workspace::{EditFault, Workspace};
use std::alloc::Global;
use std::test::Fail;
use table_store::create_edits;
use tree_walk::walk;
use undo_snapshot::{Granter, LogGranter, SnapshotPages};

/// The page of the root.
const ROOT: u64 = 1;

/// A workspace over the empty tree of a table's rows.
fn empty_tree(alloc: Global) -> Result<Workspace<MemPages>, Fail> {
    let edits = create_edits(alloc, &schema(alloc)?)?;
    let pages = MemPages::new(alloc, Vec::new(alloc))?;
    let mut space = Workspace::new(alloc, pages);
    edit_all(&mut space, edits)?;
    Ok(space)
}

/// Makes edits.
fn edit_all<P: PageSource>(
    space: &mut Workspace<P>,
    edits: Vec<(u64, Edit)>,
) -> Result<(), EditFault> {
    for (id, edit) in edits {
        space.edit(id, edit)?;
    }
    Ok(())
}

/// Puts a thousand keys without much order; how many were put.
fn put_keys<P: PageSource>(alloc: Global, space: &mut Workspace<P>) -> u64 {
    let mut put = 0u64;
    for number in 0..1000u64 {
        let key = number.wrapping_mul(0x9e37_79b9_7f4a_7c15).to_be_bytes();
        if insert(alloc, space, ROOT, key.as_slice(), b"some value of a row").is_ok() {
            put = put.wrapping_add(1);
        }
    }
    put
}

/// How many cells and pages a walk finds that is allowed so many pages; none where it finds no tree.
fn walked<P: PageSource>(alloc: Global, pages: &mut P, root: u64, most: u64) -> (usize, usize) {
    match walk(alloc, pages, root, most) {
        Ok(Some(found)) => (found.cells.len(), found.own.len()),
        _ => (0, 0),
    }
}

/// How many pairs a scan finds.
fn scanned<P: PageSource>(alloc: Global, pages: &mut P) -> usize {
    match scan(alloc, pages, ROOT, b"", None) {
        Ok(pairs) => pairs.len(),
        Err(_) => 0,
    }
}

/// The walk finds what a scan finds, where it is allowed as many pages as the tree has, which is of more than one level.
#[test]
fn a_grown_tree_is_walked(rt: HostRuntime) -> Result<(), Fail> {
    let alloc = rt.alloc();
    let mut space = empty_tree(alloc)?;
    assert_eq!(rt; put_keys(alloc, &mut space), 1000);
    let (cells, pages) = walked(alloc, &mut space, ROOT, 1000);
    assert_eq!(rt; (cells, scanned(alloc, &mut space)), (1000, 1000));
    assert!(rt; pages > 8, "more than one level");
    let most = pages as u64;
    assert_eq!(rt; walked(alloc, &mut space, ROOT, most), (1000, pages));
    assert_eq!(rt; walked(alloc, &mut space, ROOT, most - 1), (0, 0));
    assert_eq!(rt; walked(alloc, &mut space, 0, 1000), (0, 0), "the meta page");
    Ok(())
}

/// The LSN of a page and the position, once it is loaded.
fn loaded<G: Granter>(pages: &mut SnapshotPages<G>, page: u64) -> Result<(u64, u64), PageFault> {
    pages.load(page)?;
    Ok((pages.page().lsn(), pages.position()))
}

/// Pages that were loaded once are kept, and taken out.
#[test]
fn undone_pages_are_kept(rt: HostRuntime) -> Result<(), Fail> {
    let log = set_up(rt.alloc(), &schema(rt.alloc())?)?;
    assert!(rt; log.schema().is_some());
    let mut pages = SnapshotPages::new(rt.alloc(), LogGranter::new(&log, 0), 0)?;
    for id in [0, 1, 0] {
        assert_eq!(rt; loaded(&mut pages, id)?, (0, 0));
    }
    let kept = pages.into_kept();
    assert!(rt; kept.page(1).is_some() && kept.page(2).is_none());
    assert_eq!(rt; kept.len(), 2);
    Ok(())
}
