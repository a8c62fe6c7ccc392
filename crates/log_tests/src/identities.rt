//! An identity beside those that differ from it in one part, and its end.

use blkseq_table::BlkSeq;
use cdb_values::Name;
use phys_log::CommitId;
use std::alloc::{AllocError, Global};
use std::test::Fail;

/// An identity.
pub(crate) fn id_of(
    alloc: Global,
    began: u64,
    session: &[u8],
    txn: u64,
) -> Result<CommitId, AllocError> {
    Ok(CommitId {
        began,
        session: Name::copied(alloc, session)?,
        txn,
    })
}

/// Where four identities stand, a digit each: (1, a, 1), and three that differ from it in one part. A 0 is for none.
fn places(alloc: Global, table: &BlkSeq) -> Result<u64, AllocError> {
    let first = place(table, id_of(alloc, 1, b"a", 1)?);
    let began = place(table, id_of(alloc, 2, b"a", 1)?);
    let session = place(table, id_of(alloc, 1, b"b", 1)?);
    let number = place(table, id_of(alloc, 1, b"a", 2)?);
    Ok(
        first
            .wrapping_mul(1000)
            .wrapping_add(began.wrapping_mul(100))
            .wrapping_add(session.wrapping_mul(10))
            .wrapping_add(number),
    )
}

/// Where an identity stands, 0 where it does not.
fn place(table: &BlkSeq, id: CommitId) -> u64 {
    table.lookup(&id).unwrap_or(0)
}

/// The identity (1, a, 1) alone, at position 2.
fn one_identity(alloc: Global) -> Result<BlkSeq, AllocError> {
    let id = id_of(alloc, 1, b"a", 1)?;
    let mut table = BlkSeq::new(alloc);
    match table.insert(id, 2) {
        Ok(()) => Ok(table),
        Err(_) => Err(AllocError),
    }
}

/// Identities are told apart by all three parts; those behind a position are dropped.
#[test]
fn all_three_parts_tell(rt: HostRuntime) -> Result<(), Fail> {
    let mut table = one_identity(rt.alloc())?;
    assert_eq!(rt; places(rt.alloc(), &table)?, 2000);
    table.drop_above(1);
    assert_eq!(rt; places(rt.alloc(), &table)?, 0);
    Ok(())
}
