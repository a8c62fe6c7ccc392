//! The whole store has a state, and with one fault each it has none.

use super::faults::{FREE_FAULTS, KEY_FAULTS, LEAF_FAULTS, META_FAULTS, ROOT_FAULTS, ROW_FAULTS};
use super::stores::{passed_over, whole_state};
use cdb_values::Version;
use std::alloc::{AllocError, Global};
use std::test::Fail;
use table_state::State;

/// The versions of both tables are found, and the next genid.
#[test]
fn the_whole_store_has_a_state(rt: HostRuntime) -> Result<(), Fail> {
    let state = whole_state(rt.alloc())?;
    assert_eq!(rt; state.next, 5);
    let genids = genids_of(rt.alloc(), &state)?;
    assert_eq!(rt; genids.as_slice(), [0, 1, 3, 4, 0, 2].as_slice());
    Ok(())
}

/// The genids of each table, behind a 0.
fn genids_of(alloc: Global, state: &State) -> Result<Vec<u64>, AllocError> {
    let mut genids = Vec::new(alloc);
    for table in state.tables.as_slice() {
        genids.push(0)?;
        put_genids(table.as_slice(), &mut genids)?;
    }
    Ok(genids)
}

/// Adds the genids of a table's versions.
fn put_genids(versions: &[Version], genids: &mut Vec<u64>) -> Result<(), AllocError> {
    for version in versions {
        genids.push(version.genid)?;
    }
    Ok(())
}

#[test]
fn the_meta_page_is_looked_at(rt: HostRuntime) -> Result<(), Fail> {
    assert_eq!(rt; passed_over(rt.alloc(), META_FAULTS)?.as_str(), "");
    Ok(())
}

#[test]
fn free_pages_are_looked_at(rt: HostRuntime) -> Result<(), Fail> {
    assert_eq!(rt; passed_over(rt.alloc(), FREE_FAULTS)?.as_str(), "");
    Ok(())
}

#[test]
fn roots_are_looked_at(rt: HostRuntime) -> Result<(), Fail> {
    assert_eq!(rt; passed_over(rt.alloc(), ROOT_FAULTS)?.as_str(), "");
    Ok(())
}

#[test]
fn leaves_are_looked_at(rt: HostRuntime) -> Result<(), Fail> {
    assert_eq!(rt; passed_over(rt.alloc(), LEAF_FAULTS)?.as_str(), "");
    Ok(())
}

#[test]
fn rows_are_looked_at(rt: HostRuntime) -> Result<(), Fail> {
    assert_eq!(rt; passed_over(rt.alloc(), ROW_FAULTS)?.as_str(), "");
    Ok(())
}

#[test]
fn keys_are_looked_at(rt: HostRuntime) -> Result<(), Fail> {
    assert_eq!(rt; passed_over(rt.alloc(), KEY_FAULTS)?.as_str(), "");
    Ok(())
}
