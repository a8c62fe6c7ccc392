ghost use Rattle.std.specs.Prelude.{◌≡◌, ◌↔◌, ◌<◌, ◌^◌, length, true, false, Some, None, IfOk, IfSome, OnOk, OnErr};
ghost use Rattle.cdb_values.specs.Rows.{apply, is_live};
ghost use Rattle.genid_rows.specs.Targets.{resolved, based, table_of, is_genid_live, is_target_live, given, own_genid};

use super::state::State;
use cdb_values::{List, RowOp, RowRef};
use std::alloc::{AllocError, Global};
use thiserror::Error;

/// Why an operation was not applied.
#[derive(Clone, Copy, Debug, PartialEq, Eq, Error)]
pub enum OpFault {
    /// The version that it would take away is not in its table now.
    #[error("the version is not there")]
    Missing,
    /// Want of memory, or of genids below 2^62.
    #[error("out of memory")]
    NoMemory,
}

/// Applies an operation of a transaction: an insert writes a row under the next genid at the end
/// of its table, a delete takes its target away, and an update does both. `made` has the genid
/// that each earlier write of the transaction gave, and 0 for a delete. Gives the new genid, if
/// there is one. A delete takes no memory.
pub fn apply_op(
    alloc: Global,
    state: &mut State,
    op: &RowOp,
    made: &List<u64>,
) -> Result<Option<u64>, OpFault>
    requires { table_of op.now < length state.old.tables }
    ensures applied { OnOk result (state.new ≡ apply state.old (based made.now op.now)) }
    ensures genid { IfOk result (λ genid. genid ≡ given state.old op.now) }
    ensures below { IfOk result (λ genid. IfSome genid (λ _. state.new.next < 2 ^ 62)) }
    ensures live { OnOk result (is_target_live state.old made.now op.now ≡ true) }
    ensures missing { result ≡ Err OpFault.Missing ↔ is_target_live state.old made.now op.now ≡ false }
    ensures unchanged { OnErr result (state.new ≡ state.old) }
{
    match op {
        RowOp::Insert { table, row } => written(state.insert(alloc, *table, row)),
        RowOp::Update {
            table,
            target,
            row,
            ..
        } => {
            let Some(genid) = find_target(state, *table, target, made) else {
                return Err(OpFault::Missing);
            };
            written(state.update(alloc, *table, genid, row))
        }
        RowOp::Delete { table, target, .. } => {
            let Some(genid) = find_target(state, *table, target, made) else {
                return Err(OpFault::Missing);
            };
            state.delete(alloc, *table, genid);
            Ok(None)
        }
    }
}

/// The answer of a write that gave a genid, or found no memory.
fn written(genid: Result<u64, AllocError>) -> Result<Option<u64>, OpFault>
    ensures written { IfOk genid (λ g. result ≡ Ok (Some g)) }
    ensures memory { OnErr genid (result ≡ Err OpFault.NoMemory) }
{
    match genid {
        Ok(genid) => Ok(Some(genid)),
        Err(_) => Err(OpFault::NoMemory),
    }
}

/// The genid of the version that a reference names, where it is in the table now.
fn find_target(state: &State, table: u16, target: &RowRef, made: &List<u64>) -> Option<u64>
    requires { table < length state.now.tables }
    ensures found { IfSome result (λ genid. (resolved made.now target.now ≡ Some genid) × (is_live state.now table genid ≡ true)) }
    ensures missing { result ≡ None → is_genid_live state.now table (resolved made.now target.now) ≡ false }
{
    let genid = resolve(target, made)?;
    if !state.is_live(table, genid) {
        return None;
    }
    Some(genid)
}

/// The genid that a reference names, if it names one.
fn resolve(target: &RowRef, made: &List<u64>) -> Option<u64>
    ensures { result ≡ resolved made.now target.now }
{
    match *target {
        RowRef::Base(genid) => Some(genid),
        RowRef::Own(write) => own(write, made),
    }
}

/// The genid that an own write gave, if it gave one.
fn own(write: u64, made: &List<u64>) -> Option<u64>
    ensures { result ≡ own_genid made.now write }
{
    if write == 0 {
        return None;
    }
    match made.as_slice().get((write - 1) as usize) {
        None => None,
        Some(genid) if *genid == 0 => None,
        Some(genid) => Some(*genid),
    }
}
