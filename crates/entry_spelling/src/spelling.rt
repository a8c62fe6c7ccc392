//! Whether an entry has a spelling.
ghost use Rattle.std.specs.Prelude.{IsTrue};
ghost use Rattle.std.specs.Bool.{Decides};
ghost use Rattle.frame_code.specs.Spelled.{IsChange, IsRecord, IsSpelled};
ghost use Rattle.frame_code.specs.declared.frames.Frame.TheVariants as frame;
ghost use Rattle.entry_spelling.specs.Fields.{AreWithin, IsId, HasFields, IsGrown};

use crate::changes::are_changes;
use crate::laws::entries_that_fit_have_a_spelling;
use crate::numbers::{is_name, is_number};
use crate::records::are_records;
use cdb_values::{Change, List};
use phys_log::{CommitId, Entry, LogRecord};

/// An entry has fewer changes than this, and fewer records.
const PARTS_END: usize = 1 << 28;

/// Whether the parts of an entry fit their fields, and it has fewer than 2^28 changes and fewer than 2^28 records. Such an
/// entry has a spelling, where the tables of a setup can be added one after the other. Takes no memory.
pub fn has_spelling(entry: &Entry) -> bool
    ensures exact { Decides result (HasFields entry.now) }
    ensures spelled { IsTrue result → IsGrown entry.now → IsSpelled (frame.Entry entry.now) }
{
    entries_that_fit_have_a_spelling();
    has_fields(entry)
}

/// Whether the parts of an entry fit their fields.
fn has_fields(entry: &Entry) -> bool
    ensures { Decides result (HasFields entry.now) }
{
    match entry {
        Entry::Setup {
            generation,
            records,
            ..
        } => is_number(*generation) && has_records(records),
        Entry::Commit {
            generation,
            id,
            begin,
            changes,
            records,
            ..
        } => {
            is_number(*generation)
                && is_id(id)
                && is_number(*begin)
                && has_changes(changes)
                && has_records(records)
        }
    }
}

/// Whether what tells a transaction fits its fields.
fn is_id(id: &CommitId) -> bool
    ensures { Decides result (IsId id.now) }
{
    is_number(id.began) && is_name(&id.session) && is_number(id.txn)
}

/// Whether these changes fit their fields, and are few enough.
fn has_changes(changes: &List<Change>) -> bool
    ensures { Decides result (AreWithin IsChange changes.now) }
{
    changes.len() < PARTS_END && are_changes(changes.as_slice())
}

/// Whether these records fit their fields, and are few enough.
fn has_records(records: &List<LogRecord>) -> bool
    ensures { Decides result (AreWithin IsRecord records.now) }
{
    records.len() < PARTS_END && are_records(records.as_slice())
}
