//! The order of values.

use cdb_values::{Bytes, Text, Value, order};
use std::alloc::{AllocError, Global};
use std::test::Fail;

/// Values in their order.
fn in_order(alloc: Global) -> Result<Vec<Value>, AllocError> {
    let mut values = Vec::new(alloc);
    values.push(Value::Null)?;
    for number in [i64::MIN, -1, 1, i64::MAX] {
        values.push(Value::Int(number))?;
    }
    for text in ["b", "ba"] {
        values.push(Value::Text(Text::copied(alloc, text.as_bytes())?))?;
    }
    values.push(Value::Blob(Bytes::copied(alloc, b"a")?))?;
    Ok(values)
}

/// Whether each value comes before those behind it, and is equal to itself.
fn are_ordered(values: &[Value]) -> bool {
    let mut rest = values;
    for _ in 0..values.len() {
        let Some((first, others)) = rest.split_first() else {
            return true;
        };
        if !order(first, first).is_eq() || !others.iter().all(|other| order(first, other).is_lt()) {
            return false;
        }
        rest = others;
    }
    true
}

#[test]
fn values_stand_in_order(rt: HostRuntime) -> Result<(), Fail> {
    let values = in_order(rt.alloc())?;
    assert_eq!(rt; values.len(), 8);
    assert!(rt; are_ordered(values.as_slice()));
    Ok(())
}
