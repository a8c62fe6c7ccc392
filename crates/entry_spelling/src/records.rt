//! Records that fit their fields.
ghost use Rattle.std.specs.Bool.{Decides};
ghost use Rattle.std.specs.List.{AllByRecursion};
ghost use Rattle.frame_code.specs.Spelled.{IsByte, IsNumber, IsTwoBytes, IsCellBytes, IsHead, IsEdit, IsRecord};

use crate::numbers::is_number;
use page_store::{Cell, Edit, Head};
use phys_log::LogRecord;

/// Cells have fewer bytes than this.
const CELL_END: usize = 1 << 16;

/// Whether each of these records fits its fields.
pub(crate) fn are_records(records: &[LogRecord]) -> bool
    ensures { Decides result (AllByRecursion IsRecord records.now) }
{
    let mut rest = records;
    'records: while let Some((first, others)) = rest.split_first() {
        if !is_record(first) {
            return false;
        }
        rest = others;
    }
    true
}

/// Whether a record fits its fields.
fn is_record(logged: &LogRecord) -> bool
    ensures { Decides result (IsRecord logged.now) }
{
    is_number(logged.lsn)
        && is_number(logged.prev)
        && is_number(logged.page)
        && is_edit(&logged.edit)
}

/// Whether an edit fits its fields.
fn is_edit(edit: &Edit) -> bool
    ensures { Decides result (IsEdit edit.now) }
{
    match edit {
        Edit::PutCell { at, cell } => is_placed(*at, cell),
        Edit::TakeCell { at, cell } => is_placed(*at, cell),
        Edit::SwapCell { at, before, after } => is_placed(*at, before) && is_cell(after),
        Edit::SetHead { before, after } => is_head(*before) && is_head(*after),
    }
}

/// Whether a cell fits its field. Its place always does.
fn is_placed(at: u16, cell: &Cell) -> bool
    ensures { Decides result (IsTwoBytes at × IsCellBytes cell.now) }
{
    is_cell(cell)
}

/// Whether the length of a cell fits its 2 bytes.
fn is_cell(cell: &Cell) -> bool
    ensures { Decides result (IsCellBytes cell.now) }
{
    cell.len() < CELL_END
}

/// Whether the right link of a head fits its field. Its level always does.
fn is_head(head: Head) -> bool
    ensures { Decides result (IsHead head) }
{
    has_link(head.level, head.right)
}

/// Whether a right link fits its 8 bytes. A level always fits its byte.
fn has_link(level: u8, right: u64) -> bool
    ensures { Decides result (IsByte level × IsNumber right) }
{
    is_number(right)
}
