//! What a tree has of a version, computed.
ghost use Rattle.std.specs.Prelude.{◌≡◌, ◌++◌, IfOk, Some, slice_get, unwrap_or};
ghost use Rattle.std.specs.List.{AllByRecursion};
ghost use Rattle.std.specs.Option.{option_copied};
ghost use Rattle.byteorder.specs.Endian.{big_bytes};
ghost use Rattle.cdb_values.specs.Good.{key_of as key_of_def};
ghost use Rattle.cdb_values.specs.Rows.{version};
ghost use Rattle.key_code.specs.Codes.{IsShort};
ghost use Rattle.table_store.specs.Listings.{keyed as keyed_of, pair_of_version};

use byte_words::put_u64;
use cdb_values::{Bytes, KeyDef, List, Row, Value};
use key_code::{encode_key, encode_row};
use std::alloc::{AllocError, Global};

/// The key and the value that a tree has of a version: the rows' tree where no key is given. `Err` is want of memory.
pub fn pair_for(
    alloc: Global,
    key: Option<&KeyDef>,
    genid: u64,
    row: &Row,
) -> Result<(Bytes, Bytes), AllocError>
    requires { AllByRecursion IsShort row.now }
    ensures { IfOk result (λ p. p ≡ pair_of_version (option_copied key.entry) (version genid row.now)) }
{
    match key {
        None => Ok((genid_bytes(alloc, genid)?, encode_row(alloc, row)?)),
        Some(key) => key_pair(alloc, key, genid, row),
    }
}

/// The key alone that a tree has of a version. `Err` is want of memory.
pub fn key_for(
    alloc: Global,
    key: Option<&KeyDef>,
    genid: u64,
    row: &Row,
) -> Result<Bytes, AllocError>
    ensures { IfOk result (λ bytes. bytes ≡ (pair_of_version (option_copied key.entry) (version genid row.now)).0) }
{
    match key {
        None => genid_bytes(alloc, genid),
        Some(key) => {
            let (bytes, _) = key_pair(alloc, key, genid, row)?;
            Ok(bytes)
        }
    }
}

/// The key and the value that the tree of a key has of a version. `Err` is want of memory.
pub fn key_pair(
    alloc: Global,
    key: &KeyDef,
    genid: u64,
    row: &Row,
) -> Result<(Bytes, Bytes), AllocError>
    ensures { IfOk result (λ p. p ≡ pair_of_version (Some key.now) (version genid row.now)) }
{
    let values = key_values(alloc, key, row)?;
    let code = encode_key(alloc, values.as_slice())?;
    let genid = genid_bytes(alloc, genid)?;
    keyed(alloc, key.unique, code, genid)
}

/// A key's code with a genid: of a unique key the genid is the value, of another key it stands behind the code.
fn keyed(
    alloc: Global,
    unique: bool,
    code: Bytes,
    genid: Bytes,
) -> Result<(Bytes, Bytes), AllocError>
    ensures { IfOk result (λ p. p ≡ keyed_of unique code genid) }
{
    if unique {
        Ok((code, genid))
    } else {
        Ok((
            joined(alloc, &code, &genid)?,
            Bytes::from_vec(Vec::new(alloc)),
        ))
    }
}

/// These bytes, and then those.
fn joined(alloc: Global, first: &Bytes, second: &Bytes) -> Result<Bytes, AllocError>
    ensures { IfOk result (λ all. all ≡ first.now ++ second.now) }
{
    let mut all = Vec::new(alloc);
    all.extend_from_slice(first.as_bytes())?;
    all.extend_from_slice(second.as_bytes())?;
    Ok(Bytes::from_vec(all))
}

/// The eight bytes of a genid.
fn genid_bytes(alloc: Global, genid: u64) -> Result<Bytes, AllocError>
    ensures { IfOk result (λ bytes. bytes ≡ big_bytes 8 genid) }
{
    let mut bytes = Vec::new(alloc);
    put_u64(&mut bytes, genid)?;
    Ok(Bytes::from_vec(bytes))
}

/// The values of a row at the columns of a key. A row without one of them has NULL there. `Err` is want of memory.
pub fn key_values(alloc: Global, key: &KeyDef, row: &Row) -> Result<Row, AllocError>
    ensures { IfOk result (λ values. values ≡ key_of_def key.now row.now) }
{
    let mut values = List::new(alloc);
    let mut rest = key.columns.as_slice();
    'columns: while let Some((column, others)) = rest.split_first() {
        values.push(value_at(row, *column)?)?;
        rest = others;
    }
    Ok(values)
}

/// The value in a column, NULL where there is none.
fn value_at(row: &Row, column: u8) -> Result<Value, AllocError>
    ensures { IfOk result (λ value. value ≡ unwrap_or (slice_get row.now column) Value.Null) }
{
    match row.as_slice().get(column as usize) {
        Some(value) => value.clone(),
        None => Ok(Value::Null),
    }
}
