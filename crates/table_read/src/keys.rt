//! The keys that a definition writes, in the order of its text.
ghost use Rattle.std.specs.Prelude.{◌≡◌, ◌++◌, ◌∷◌, [], map, flat_map, IfOk, OnOk};
ghost use Rattle.sql_grammar.specs.Views.{name_in, part_in};
ghost use Rattle.table_read.specs.Keys.{primary_over, keys_of_mark, keys_of_part, written_keys as keys_written};

use cdb_values::{List, Name};
use sql_grammar::{CreatePart, Mark};
use std::alloc::{AllocError, Global};

/// The name of a primary key.
pub(crate) const PRIMARY: &[u8] = b"pk";

/// A key as it is written: over names of columns.
#[derive(Drop)]
pub(crate) struct WrittenKey {
    pub name: Name,
    pub columns: List<Name>,
    /// Whether no two rows may have the same values there.
    pub unique: bool,
}

/// The keys of these parts.
pub(crate) fn written_keys(
    alloc: Global,
    parts: &[CreatePart],
) -> Result<List<WrittenKey>, AllocError>
    ensures { IfOk result (λ keys. keys ≡ keys_written (map part_in parts.now)) }
{
    let mut keys = List::new(alloc);
    let mut rest = parts;
    'parts: while let Some((part, after)) = rest.split_first() {
        add_part(alloc, &mut keys, part)?;
        rest = after;
    }
    Ok(keys)
}

/// Adds the keys of a part.
fn add_part(alloc: Global, keys: &mut List<WrittenKey>, part: &CreatePart) -> Result<(), AllocError>
    ensures { OnOk result (keys.new ≡ keys.old ++ keys_of_part (part_in part.now)) }
{
    match part {
        CreatePart::Column { name, marks, .. } => {
            add_marks(alloc, keys, name.as_bytes(), marks.as_slice())
        }
        CreatePart::Primary { columns } => {
            keys.push(primary_key(alloc, names(alloc, columns.as_slice())?)?)
        }
        CreatePart::Key {
            unique,
            name,
            columns,
        } => keys.push(WrittenKey {
            name: name.clone()?,
            columns: names(alloc, columns.as_slice())?,
            unique: *unique,
        }),
    }
}

/// Adds the keys of a column's marks.
fn add_marks(
    alloc: Global,
    keys: &mut List<WrittenKey>,
    column: &[u8],
    marks: &[Mark],
) -> Result<(), AllocError>
    ensures { OnOk result (keys.new ≡ keys.old ++ flat_map (keys_of_mark column.now) marks.now) }
{
    let mut rest = marks;
    'marks: while let Some((mark, after)) = rest.split_first() {
        add_mark(alloc, keys, column, *mark)?;
        rest = after;
    }
    Ok(())
}

/// Adds the key of a column's mark, if it makes one.
fn add_mark(
    alloc: Global,
    keys: &mut List<WrittenKey>,
    column: &[u8],
    mark: Mark,
) -> Result<(), AllocError>
    ensures { OnOk result (keys.new ≡ keys.old ++ keys_of_mark column.now mark) }
{
    match mark {
        Mark::NotNull => Ok(()),
        Mark::PrimaryKey => keys.push(primary_key(alloc, one_name(alloc, column)?)?),
        Mark::Unique => keys.push(WrittenKey {
            name: Name::copied(alloc, column)?,
            columns: one_name(alloc, column)?,
            unique: true,
        }),
    }
}

/// The primary key over these columns.
fn primary_key(alloc: Global, columns: List<Name>) -> Result<WrittenKey, AllocError>
    ensures { IfOk result (λ key. key ≡ primary_over columns) }
{
    Ok(WrittenKey {
        name: Name::copied(alloc, PRIMARY)?,
        columns,
        unique: true,
    })
}

/// A copy of this name alone.
fn one_name(alloc: Global, name: &[u8]) -> Result<List<Name>, AllocError>
    ensures { IfOk result (λ copies. copies ≡ name.now ∷ []) }
{
    let mut copies = List::new(alloc);
    copies.push(Name::copied(alloc, name)?)?;
    Ok(copies)
}

/// Copies of these names.
fn names(alloc: Global, names: &[Name]) -> Result<List<Name>, AllocError>
    ensures { IfOk result (λ copies. copies ≡ map name_in names.now) }
{
    let mut copies = List::new(alloc);
    let mut rest = names;
    'names: while let Some((name, after)) = rest.split_first() {
        copies.push(Name::copied(alloc, name.as_bytes())?)?;
        rest = after;
    }
    Ok(copies)
}
