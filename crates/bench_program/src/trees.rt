//! A tree that grows.

use btree_index::{find, insert};
use cdb_values::Schema;
use page_store::{Edit, MemPages, PageSource};
use page_workspace::{EditFault, Workspace};
use std::alloc::{AllocError, Global};
use std::io;
use std::time::{Clock, Instant};
use table_read::read_table;
use table_store::create_edits;

/// The root of the tree: that of a table's rows.
const ROOT: u64 = 1;

/// A workspace over an empty tree.
fn empty_tree(alloc: Global) -> Result<Workspace<MemPages>, AllocError> {
    let mut schema = Schema::new(alloc);
    let _ = read_table(alloc, "create table t (a int)", &mut schema);
    let edits = create_edits(alloc, &schema)?;
    let pages = MemPages::new(alloc, Vec::new(alloc))?;
    let mut space = Workspace::new(alloc, pages);
    match edit_all(&mut space, edits) {
        Ok(()) => Ok(space),
        Err(_) => Err(AllocError),
    }
}

/// Makes edits.
fn edit_all<P: PageSource>(
    space: &mut Workspace<P>,
    edits: Vec<(u64, Edit)>,
) -> Result<(), EditFault> {
    for (id, edit) in edits {
        space.edit(id, edit)?;
    }
    Ok(())
}

/// The key of a number: 16 bytes without much order.
fn drawn_key(number: u64) -> [u8; 16] {
    let x = number
        .wrapping_mul(6364136223846793005)
        .wrapping_add(1442695040888963407);
    let mixed = (x ^ (x >> 31)).wrapping_mul(0x9e37_79b9_7f4a_7c15);
    (u128::from(mixed) << 64 | u128::from(x)).to_be_bytes()
}

/// Puts that many pairs; how many were put.
fn put_pairs<P: PageSource>(alloc: Global, space: &mut Workspace<P>, count: u64) -> u64 {
    let mut put = 0u64;
    for number in 0..count {
        if insert(
            alloc,
            space,
            ROOT,
            &drawn_key(number),
            &number.to_be_bytes(),
        )
        .is_ok()
        {
            put = put.wrapping_add(1);
        }
    }
    put
}

/// How many of that many keys are found.
fn find_pairs<P: PageSource>(alloc: Global, space: &mut Workspace<P>, count: u64) -> u64 {
    let mut found = 0u64;
    for number in 0..count {
        if let Ok(Some(_)) = find(alloc, space, ROOT, &drawn_key(number)) {
            found = found.wrapping_add(1);
        }
    }
    found
}

/// Puts that many pairs and finds each, and prints the times. Gives how many were found.
pub(crate) fn measure_trees(rt: &HostRuntime, count: u64) -> io::Result<u64> {
    let mut space = empty_tree(rt.alloc())?;
    let start = Instant::now(rt)?;
    let put = put_pairs(rt.alloc(), &mut space, count);
    let put_in = start.elapsed(rt)?.as_millis();
    let start = Instant::now(rt)?;
    let found = find_pairs(rt.alloc(), &mut space, count);
    let found_in = start.elapsed(rt)?.as_millis();
    println!(rt; "{put} put in {put_in} ms, found in {found_in} ms")?;
    Ok(found)
}
