//! Entries with each field at its edge, and one past it: which have a spelling.

use cdb_values::{Change, Level, List, Name, Row, Text, Value};
use entry_spelling::has_spelling;
use page_store::{Cell, Edit, Head, PageKind};
use phys_log::{CommitId, Entry, LogRecord};
use std::alloc::{AllocError, Global};
use std::test::Fail;

/// A field of an entry.
#[derive(Clone, Copy, PartialEq, Eq)]
enum Field {
    Generation,
    Began,
    Txn,
    Begin,
    Genid,
    OldGenid,
    Lsn,
    Prev,
    Page,
    Right,
    Session,
    Text,
    Cell,
    Before,
}

/// What a field has: a number, or so many bytes that are all the same. Other fields have 1, or no byte.
#[derive(Clone, Copy)]
struct Has {
    field: Field,
    number: u64,
    byte: u8,
}

impl Has {
    /// The number of a field.
    fn number(self, field: Field) -> u64 {
        if self.field == field { self.number } else { 1 }
    }

    /// The bytes of a field.
    fn bytes(self, alloc: Global, field: Field) -> Result<Vec<u8>, AllocError> {
        if self.field == field {
            vec![in alloc; self.byte; self.number as usize]
        } else {
            Ok(Vec::new(alloc))
        }
    }

    /// A row of the least integer and a text.
    fn row(self, alloc: Global) -> Result<Row, AllocError> {
        let text = Text::from_vec(self.bytes(alloc, Field::Text)?);
        let mut row = List::new(alloc);
        row.push(Value::Int(i64::MIN))?;
        row.push(Value::Text(text))?;
        Ok(row)
    }

    /// The update of a row.
    fn changes(self, alloc: Global) -> Result<List<Change>, AllocError> {
        let mut changes = List::new(alloc);
        changes.push(Change::Update {
            table: u16::MAX,
            old_genid: self.number(Field::OldGenid),
            old: self.row(alloc)?,
            genid: self.number(Field::Genid),
            row: List::new(alloc),
        })?;
        Ok(changes)
    }

    /// A record with an edit.
    fn edited(self, edit: Edit) -> LogRecord {
        LogRecord {
            lsn: self.number(Field::Lsn),
            prev: self.number(Field::Prev),
            page: self.number(Field::Page),
            edit,
        }
    }

    /// A swap of cells, and a link.
    fn records(self, alloc: Global) -> Result<List<LogRecord>, AllocError> {
        let before = Cell::new(self.bytes(alloc, Field::Before)?);
        let after = Cell::new(self.bytes(alloc, Field::Cell)?);
        let mut records = List::new(alloc);
        records.push(self.edited(Edit::SwapCell {
            at: u16::MAX,
            before,
            after,
        }))?;
        records.push(self.edited(self.link()))?;
        Ok(records)
    }

    /// The edit of a right link.
    fn link(self) -> Edit {
        let head = Head {
            kind: PageKind::Leaf,
            level: u8::MAX,
            right: self.number(Field::Right),
        };
        Edit::SetHead {
            before: head,
            after: head,
        }
    }

    /// Whether the commit has a spelling.
    fn is_commit(self, alloc: Global) -> Result<bool, AllocError> {
        let id = CommitId {
            began: self.number(Field::Began),
            session: Name::from_vec(self.bytes(alloc, Field::Session)?),
            txn: self.number(Field::Txn),
        };
        Ok(has_spelling(&Entry::Commit {
            generation: self.number(Field::Generation),
            id,
            begin: self.number(Field::Begin),
            level: Level::Snapshot,
            changes: self.changes(alloc)?,
            records: self.records(alloc)?,
        }))
    }
}

/// Whether a number is the last that a field takes.
fn is_last(alloc: Global, field: Field, number: u64, byte: u8) -> Result<bool, AllocError> {
    let last = Has {
        field,
        number,
        byte,
    };
    let past = Has {
        field,
        number: number.saturating_add(1),
        byte,
    };
    Ok(last.is_commit(alloc)? && !past.is_commit(alloc)?)
}

/// Fields of numbers: all are below 2^62.
static NUMBERS: [Field; 10] = [
    Field::Generation,
    Field::Lsn,
    Field::Prev,
    Field::Page,
    Field::Right,
    Field::Began,
    Field::Txn,
    Field::Begin,
    Field::Genid,
    Field::OldGenid,
];

#[test]
fn numbers_are_below_2_to_62(rt: HostRuntime) -> Result<(), Fail> {
    for field in &NUMBERS {
        assert!(rt; is_last(rt.alloc(), *field, (1 << 62) - 1, 0)?);
    }
    Ok(())
}

/// A text of three equal bytes.
fn text_of(byte: u8) -> Has {
    Has {
        field: Field::Text,
        number: 3,
        byte,
    }
}

/// A session's name has fewer than 2^8 bytes, a cell fewer than 2^16, and a text is UTF-8.
#[test]
fn bytes_fit_their_fields(rt: HostRuntime) -> Result<(), Fail> {
    assert!(rt; is_last(rt.alloc(), Field::Session, 255, b'a')?);
    assert!(rt; is_last(rt.alloc(), Field::Cell, 65535, b'a')?);
    assert!(rt; is_last(rt.alloc(), Field::Before, 65535, b'a')?);
    assert!(rt; text_of(0x7F).is_commit(rt.alloc())?);
    assert!(rt; !text_of(0x80).is_commit(rt.alloc())?);
    Ok(())
}
