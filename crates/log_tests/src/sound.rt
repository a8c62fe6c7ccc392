//! A log over a table with an integer column and a unique key over it, written by hand, whole and with one fault each.

use super::identities::id_of;
use cdb_values::{Level, List, Schema};
use log_replay::PagedLog;
use log_rows::setup_entry;
use page_store::{Cell, Edit};
use phys_log::{CommitId, Entry, LogRecord};
use sound_log::sound_state;
use std::alloc::{AllocError, Global};
use std::test::Fail;
use table_read::read_table;

/// Next genid 1, as the setup has it, and next genid 2; three pages, no free page.
const META: &[u8] = b"\0\0\0\0\0\0\0\x01\0\0\0\0\0\0\0\x03\0\0\0\0\0\0\0\0";

const NEXT_META: &[u8] = b"\0\0\0\0\0\0\0\x02\0\0\0\0\0\0\0\x03\0\0\0\0\0\0\0\0";

/// The version 1 with the id 7: the genid of 8 bytes as the key, then the tag of an integer and its 8 bytes.
const ROW: &[u8] = b"\0\x08\0\0\0\0\0\0\0\x01\x01\0\0\0\0\0\0\0\x07";

/// Its key: the tag of an integer and its 8 bytes with the sign bit flipped, then the genid of 8 bytes.
const KEY: &[u8] = b"\0\x09\x01\x80\0\0\0\0\0\0\x07\0\0\0\0\0\0\0\x01";

/// The schema of the table.
pub(crate) fn schema(alloc: Global) -> Result<Schema, Fail> {
    let mut schema = Schema::new(alloc);
    read_table(
        alloc,
        "create table t (id int not null, unique by_id (id))",
        &mut schema,
    )?;
    Ok(schema)
}

/// Appends an entry that fits.
fn append(alloc: Global, log: &mut PagedLog, entry: Entry) -> Result<(), Fail> {
    match log.append(alloc, entry) {
        Ok(()) => Ok(()),
        Err(_) => Err("it does not fit".into()),
    }
}

/// The log of the setup of a schema.
pub(crate) fn set_up(alloc: Global, schema: &Schema) -> Result<PagedLog, Fail> {
    let mut log = PagedLog::new(alloc);
    append(alloc, &mut log, setup_entry(alloc, schema, 1)?)?;
    Ok(log)
}

/// The record that puts a cell on page 1 or 2, whose LSN is its number.
fn putting(alloc: Global, lsn: u64, page: u64, cell: &[u8]) -> Result<LogRecord, AllocError> {
    let cell = Cell::from_slice(alloc, cell)?;
    Ok(LogRecord {
        lsn,
        prev: page,
        page,
        edit: Edit::PutCell { at: 0, cell },
    })
}

/// The record that makes the next genid 2.
fn counting(alloc: Global) -> Result<LogRecord, AllocError> {
    let before = Cell::from_slice(alloc, META)?;
    let after = Cell::from_slice(alloc, NEXT_META)?;
    Ok(LogRecord {
        lsn: 7,
        prev: 4,
        page: 0,
        edit: Edit::SwapCell {
            at: 0,
            before,
            after,
        },
    })
}

/// The three records of the transaction that wrote the row. Those of the setup have the LSNs 1 (page 1), 2 (page 2), 3 and
/// 4 (page 0).
fn row_records(alloc: Global) -> Result<List<LogRecord>, AllocError> {
    let mut records = List::new(alloc);
    records.push(putting(alloc, 5, 1, ROW)?)?;
    records.push(putting(alloc, 6, 2, KEY)?)?;
    records.push(counting(alloc)?)?;
    Ok(records)
}

/// Appends the entry of a transaction.
fn commit(
    alloc: Global,
    log: &mut PagedLog,
    id: CommitId,
    records: List<LogRecord>,
) -> Result<(), Fail> {
    let entry = Entry::Commit {
        generation: 1,
        id,
        begin: 1,
        level: Level::Snapshot,
        changes: List::new(alloc),
        records,
    };
    append(alloc, log, entry)
}

/// The log of the setup, and of the transaction (1, a, 1) that wrote the row.
fn with_row(alloc: Global) -> Result<PagedLog, Fail> {
    let mut log = set_up(alloc, &schema(alloc)?)?;
    let id = id_of(alloc, 1, b"a", 1)?;
    commit(alloc, &mut log, id, row_records(alloc)?)?;
    Ok(log)
}

/// A log is sound without entries, and with a row.
#[test]
fn logs_are_sound(rt: HostRuntime) -> Result<(), Fail> {
    let alloc = rt.alloc();
    assert!(rt;
        sound_state(alloc, 0, &PagedLog::new(alloc))?.is_some(),
        "no entry"
    );
    assert!(rt;
        sound_state(alloc, 1, &with_row(alloc)?)?.is_some(),
        "a row"
    );
    Ok(())
}

/// Identities of a transaction more, and whether the log is sound with it where generation 2 is the accepted one.
static IDENTITIES: [(u64, &[u8], u64, bool); 4] = [
    (1, b"a", 1, false),
    (1, b"a", 2, true),
    (3, b"b", 1, false),
    (2, b"b", 1, true),
];

/// Whether the log is sound with a transaction more, which has no record.
fn sound_with(alloc: Global, began: u64, session: &[u8], txn: u64) -> Result<bool, Fail> {
    let mut log = with_row(alloc)?;
    let id = id_of(alloc, began, session, txn)?;
    commit(alloc, &mut log, id, List::new(alloc))?;
    Ok(sound_state(alloc, 2, &log)?.is_some())
}

/// An identity comes twice where all its parts do, and none began later than the accepted generation.
#[test]
fn identities_come_once(rt: HostRuntime) -> Result<(), Fail> {
    for (began, session, txn, wanted) in &IDENTITIES {
        let found = sound_with(rt.alloc(), *began, *session, *txn)?;
        assert_eq!(rt; found, *wanted, "{began}, {txn}");
    }
    Ok(())
}

/// The log of a transaction alone.
fn without_setup(alloc: Global) -> Result<PagedLog, Fail> {
    let mut log = PagedLog::new(alloc);
    commit(alloc, &mut log, id_of(alloc, 1, b"a", 1)?, List::new(alloc))?;
    Ok(log)
}

/// The log of a setup and of a transaction whose only record puts the row into the tree of the table's rows.
fn without_key(alloc: Global) -> Result<PagedLog, Fail> {
    let mut log = set_up(alloc, &schema(alloc)?)?;
    let mut records = List::new(alloc);
    records.push(putting(alloc, 5, 1, ROW)?)?;
    commit(alloc, &mut log, id_of(alloc, 1, b"a", 1)?, records)?;
    Ok(log)
}

#[test]
fn faults_are_found(rt: HostRuntime) -> Result<(), Fail> {
    let alloc = rt.alloc();
    let unset = without_setup(alloc)?;
    assert!(rt; sound_state(alloc, 1, &unset)?.is_none(), "no setup");
    let unkeyed = without_key(alloc)?;
    assert!(rt;
        sound_state(alloc, 1, &unkeyed)?.is_none(),
        "a row without its key"
    );
    Ok(())
}
