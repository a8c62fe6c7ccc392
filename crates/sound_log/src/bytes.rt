//! Rows that were read are of bytes, since their blobs are. Nothing is tested: that a byte is below 256 is known of each
//! blob by its type, and is told here of all.
ghost use Rattle.std.specs.Prelude.{◌<◌};
ghost use Rattle.std.specs.List.{AllByRecursion};
ghost use Rattle.sound_log.specs.Bytes.{IsOfBytes, RowIsOfBytes, RowsAreOfBytes};

use cdb_values::{List, Value, Version};

/// Tells it of the rows of all tables.
pub(crate) fn tell_bytes(tables: &[List<Version>])
    ensures { RowsAreOfBytes tables.now }
{
    let mut rest = tables;
    'tables: while let Some((versions, others)) = rest.split_first() {
        tell_bytes_of_rows(versions.as_slice());
        rest = others;
    }
}

/// Tells it of the rows of a table.
fn tell_bytes_of_rows(versions: &[Version])
    ensures { AllByRecursion RowIsOfBytes versions.now }
{
    let mut rest = versions;
    'versions: while let Some((version, others)) = rest.split_first() {
        tell_bytes_of_row(version.row.as_slice());
        rest = others;
    }
}

/// Tells it of a row.
fn tell_bytes_of_row(values: &[Value])
    ensures { AllByRecursion IsOfBytes values.now }
{
    let mut rest = values;
    'values: while let Some((value, others)) = rest.split_first() {
        tell_bytes_of_value(value);
        rest = others;
    }
}

/// Tells it of a value.
fn tell_bytes_of_value(value: &Value)
    ensures { IsOfBytes value.now }
{
    if let Value::Blob(blob) = value {
        tell_bytes_of_blob(blob.as_bytes());
    }
}

/// Tells it of a blob, by its type.
fn tell_bytes_of_blob(bytes: &[u8])
    ensures { AllByRecursion (λ b. b < 256) bytes.now }
{
    let _ = bytes;
}
