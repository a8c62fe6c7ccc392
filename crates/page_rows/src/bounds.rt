//! Between which keys the pairs of an interval stand in the tree of its key.
ghost use Rattle.std.specs.Prelude.{◌≡◌, ◌++◌, length, slice_get, IfOk, OnOk};
ghost use Rattle.std.specs.List.{AllByRecursion};
ghost use Rattle.key_code.specs.Codes.{key_value, key_code, IsInRange};
ghost use Rattle.query_plan.specs.Views.{edge_in, interval_in};
ghost use Rattle.page_rows.specs.Bounds.{beyond, after_null, low_end, high_end, counted_edge, low_key as low_key_of, high_key as high_key_of, IsLowInRange, IsHighInRange, AreEnds};

use cdb_values::{Edge, Interval, KeyDef, Value};
use key_code::encode_key;
use std::alloc::{AllocError, Global};
use std::slice;

/// Bytes that come after any code of values and after any genid.
const BEYOND: [u8; 9] = [255, 255, 255, 255, 255, 255, 255, 255, 255];

/// The keys between which the pairs of an interval stand: not before the first, and before the second.
#[derive(Drop)]
pub(crate) struct Ends {
    pub(crate) low: Vec<u8>,
    pub(crate) high: Vec<u8>,
}

/// The keys between which the pairs of an interval stand in the tree of its key. The error is want of memory.
pub(crate) fn ends_of(alloc: Global, key: &KeyDef, interval: &Interval) -> Result<Ends, AllocError>
    ensures { IfOk result (λ ends. AreEnds key.now (interval_in interval.now) ends.low.items ends.high.items) }
{
    let columns = key.columns.as_slice();
    let low = low_key(alloc, columns, interval)?;
    let high = high_key(alloc, columns, interval)?;
    Ok(Ends { low, high })
}

/// The first key that a pair of the interval can have, in the tree of a key over these columns. The error is want of
/// memory.
fn low_key(alloc: Global, columns: &[u8], interval: &Interval) -> Result<Vec<u8>, AllocError>
    ensures key { IfOk result (λ key. key.items ≡ low_key_of columns.now interval.now.equal (edge_in interval.now.low) (edge_in interval.now.high)) }
    ensures equal { OnOk result (AllByRecursion IsInRange interval.now.equal) }
    ensures edge { OnOk result (IsLowInRange (counted_edge (slice_get columns.now (length interval.now.equal)) (edge_in interval.now.low))) }
{
    let mut key = Vec::new(alloc);
    put_key(alloc, &mut key, interval.equal.as_slice())?;
    if interval.equal.len() < columns.len() {
        put_low(alloc, &mut key, &interval.low, &interval.high)?;
    }
    Ok(key)
}

/// A key that comes after each that a pair of the interval can have, in the tree of a key over these columns. The error
/// is want of memory.
fn high_key(alloc: Global, columns: &[u8], interval: &Interval) -> Result<Vec<u8>, AllocError>
    ensures key { IfOk result (λ key. key.items ≡ high_key_of columns.now interval.now.equal (edge_in interval.now.high)) }
    ensures edge { OnOk result (IsHighInRange (counted_edge (slice_get columns.now (length interval.now.equal)) (edge_in interval.now.high))) }
{
    let mut key = Vec::new(alloc);
    put_key(alloc, &mut key, interval.equal.as_slice())?;
    if interval.equal.len() < columns.len() {
        put_high(alloc, &mut key, &interval.high)?;
    } else {
        put_beyond(&mut key)?;
    }
    Ok(key)
}

/// Adds what two bounds say of where the pairs begin.
fn put_low(alloc: Global, key: &mut Vec<u8>, low: &Edge, high: &Edge) -> Result<(), AllocError>
    ensures end { OnOk result (key.new.items ≡ key.old.items ++ low_end (edge_in low.now) (edge_in high.now)) }
    ensures range { OnOk result (IsLowInRange (edge_in low.now)) }
{
    match low {
        Edge::Free | Edge::AtMost(_) | Edge::Below(_) => put_after_null(key, high),
        Edge::AtLeast(value) => put_value(alloc, key, value),
        Edge::Above(value) => put_after(alloc, key, value),
    }
}

/// Adds what comes after NULL, where a high bound wants a value.
fn put_after_null(key: &mut Vec<u8>, high: &Edge) -> Result<(), AllocError>
    ensures { OnOk result (key.new.items ≡ key.old.items ++ after_null (edge_in high.now)) }
{
    match high {
        Edge::Free | Edge::AtLeast(_) | Edge::Above(_) => Ok(()),
        Edge::AtMost(_) | Edge::Below(_) => {
            key.push(1)?;
            Ok(())
        }
    }
}

/// Adds what a bound says of where the pairs end.
fn put_high(alloc: Global, key: &mut Vec<u8>, edge: &Edge) -> Result<(), AllocError>
    ensures end { OnOk result (key.new.items ≡ key.old.items ++ high_end (edge_in edge.now)) }
    ensures range { OnOk result (IsHighInRange (edge_in edge.now)) }
{
    match edge {
        Edge::Free | Edge::AtLeast(_) | Edge::Above(_) => put_beyond(key),
        Edge::AtMost(value) => put_after(alloc, key, value),
        Edge::Below(value) => put_value(alloc, key, value),
    }
}

/// Adds what comes after each key that goes on with a value.
fn put_after(alloc: Global, key: &mut Vec<u8>, value: &Value) -> Result<(), AllocError>
    ensures code { OnOk result (key.new.items ≡ key.old.items ++ (key_value value.now ++ beyond)) }
    ensures range { OnOk result (IsInRange value.now) }
{
    put_value(alloc, key, value)?;
    put_beyond(key)
}

/// Adds the code of a value.
fn put_value(alloc: Global, key: &mut Vec<u8>, value: &Value) -> Result<(), AllocError>
    ensures code { OnOk result (key.new.items ≡ key.old.items ++ key_value value.now) }
    ensures range { OnOk result (IsInRange value.now) }
{
    put_key(alloc, key, slice::from_ref(value))
}

/// Adds the code of values.
fn put_key(alloc: Global, key: &mut Vec<u8>, values: &[Value]) -> Result<(), AllocError>
    ensures code { OnOk result (key.new.items ≡ key.old.items ++ key_code values.now) }
    ensures range { OnOk result (AllByRecursion IsInRange values.now) }
{
    let code = encode_key(alloc, values)?;
    key.extend_from_slice(code.as_bytes())
}

/// Adds bytes that come after any code of values and after any genid.
fn put_beyond(key: &mut Vec<u8>) -> Result<(), AllocError>
    ensures { OnOk result (key.new.items ≡ key.old.items ++ beyond) }
{
    key.extend_from_slice(&BEYOND)
}
