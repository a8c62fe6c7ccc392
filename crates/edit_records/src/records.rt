//! Edits with their LSNs.
ghost use Rattle.std.specs.Prelude.{ℕ, ◌≡◌, ◌+◌, ◌<◌, ◌^◌, ◌++◌, ◌∷◌, [], IfOk, true};
ghost use Rattle.page_store.specs.Image.{Image};
ghost use Rattle.page_store.specs.Sources.{IsExcused};
ghost use Rattle.page_workspace.specs.Drafts.{edited_by, AreFit};
ghost use Rattle.page_workspace.specs.Spare.{count_of};
ghost use Rattle.phys_log.specs.Logs.{replayed, AreNext};
ghost use Rattle.cdb_values.specs.Rows.{Rows};
ghost use Rattle.cdb_values.specs.declared.tables.TableDef.{TableDef};
ghost use Rattle.table_store.specs.Stored.{Stands};
ghost use Rattle.edit_records.specs.Alike.{AreAlike};
ghost use Rattle.edit_records.specs.Numbered.{records_behind, raised, lsns_over, AreSmall, IsUnedited, are_below};
ghost use Rattle.std.specs.Prelude as std;

use cdb_values::List;
use cdb_values::limits::LSN_LIMIT;
use page_store::{Edit, PageFault, PageSource};
use phys_log::LogRecord;
use std::alloc::Global;
use std::collections::{HashMap, VecDeque};

/// The edits, each with the number of its page, as the records behind a last LSN: they are numbered from `last + 1` on, and
/// each tells the LSN that its page has by then. The edits are moved, and a page is loaded once.
///
/// `Gone` comes only where the source lost its pages; `NoMemory` is want of memory, and comes where an LSN would not be below
/// 2^62, too.
pub fn records_of<P: PageSource>(
    alloc: Global,
    pages: &mut P,
    last: u64,
    edits: Vec<(u64, Edit)>,
) -> Result<List<LogRecord>, PageFault>
    ensures made { IfOk result (λ records. records ≡ records_behind (P.pages pages.old) last edits.items) }
    ensures next { AreFit edits.items (P.pages pages.old) →
        IfOk result (λ records. AreNext (P.pages pages.old) (last + 1) records) }
    ensures alike { IfOk result (λ records.
        AreAlike (edited_by edits.items (P.pages pages.old)) (replayed (P.pages pages.old) records)) }
    ensures others { IfOk result (λ records. (n : ℕ) → IsUnedited n edits.items →
        replayed (P.pages pages.old) records n ≡ P.pages pages.old n) }
    ensures stands { (tables : std.List TableDef) (rows : Rows) → Stands (edited_by edits.items (P.pages pages.old)) tables rows →
        are_below (count_of (edited_by edits.items (P.pages pages.old))) edits.items ≡ true →
        IfOk result (λ records. Stands (replayed (P.pages pages.old) records) tables rows) }
    ensures small { IfOk result AreSmall }
    ensures pages { P.pages pages.new ≡ P.pages pages.old }
    ensures excused { IsExcused result (P.losses pages.old) (P.losses pages.new) }
{
    number_all(alloc, pages, last, VecDeque::from(edits))
}

/// Whether each edit is one of a page below a number. Takes no memory.
pub fn are_within(edits: &[(u64, Edit)], count: u64) -> bool
    ensures { result ≡ are_below count edits.now }
{
    edits.iter().all(|edit| edit.0 < count)
}

/// The edits as the records behind a last LSN.
fn number_all<P: PageSource>(
    alloc: Global,
    pages: &mut P,
    last: u64,
    edits: VecDeque<(u64, Edit)>,
) -> Result<List<LogRecord>, PageFault>
    ensures made { IfOk result (λ records. records ≡ records_behind (P.pages pages.old) last edits.items) }
    ensures small { IfOk result AreSmall }
    ensures pages { P.pages pages.new ≡ P.pages pages.old }
    ensures excused { IsExcused result (P.losses pages.old) (P.losses pages.new) }
{
    let mut left = edits;
    let mut lsns = HashMap::new(alloc);
    let mut records = List::new(alloc);
    let mut newest = last;
    'numbering: while let Some((page, edit)) = left.pop_front() {
        match number_one(pages, &mut lsns, &mut records, newest, page, edit) {
            Ok(lsn) => newest = lsn,
            Err(fault) => return Err(fault),
        }
    }
    Ok(records)
}

/// Puts the record of an edit behind others, and tells its LSN.
fn number_one<P: PageSource>(
    pages: &mut P,
    lsns: &mut HashMap<u64, u64>,
    records: &mut List<LogRecord>,
    last: u64,
    page: u64,
    edit: Edit,
) -> Result<u64, PageFault>
    ensures number { IfOk result (λ lsn. lsn ≡ last + 1) }
    ensures small { IfOk result (λ lsn. lsn < 2 ^ 62) }
    ensures raised { IfOk result (λ lsn. (n : ℕ) → lsns_over (P.pages pages.old) lsns.new.entries n
        ≡ raised (lsns_over (P.pages pages.old) lsns.old.entries) page lsn n) }
    ensures made { IfOk result (λ lsn. records.new ≡ records.old
        ++ record { lsn = lsn; prev = lsns_over (P.pages pages.old) lsns.old.entries page; page = page; edit = edit } ∷ []) }
    ensures pages { P.pages pages.new ≡ P.pages pages.old }
    ensures excused { IsExcused result (P.losses pages.old) (P.losses pages.new) }
{
    if last >= LSN_LIMIT - 1 {
        return Err(PageFault::NoMemory);
    }
    let lsn = last + 1;
    match raise(pages, lsns, page, lsn) {
        Ok(prev) => put(
            records,
            LogRecord {
                lsn,
                prev,
                page,
                edit,
            },
        ),
        Err(fault) => Err(fault),
    }
}

/// Puts a record behind others, and tells its LSN.
fn put(records: &mut List<LogRecord>, entry: LogRecord) -> Result<u64, PageFault>
    ensures made { IfOk result (λ lsn. (lsn ≡ entry.lsn) × (records.new ≡ records.old ++ entry ∷ [])) }
    ensures excused { (count : ℕ) → IsExcused result count count }
{
    let lsn = entry.lsn;
    match records.push(entry) {
        Ok(()) => Ok(lsn),
        Err(_) => Err(PageFault::NoMemory),
    }
}

/// Keeps an LSN as that of a page, and tells the one that the page had.
fn raise<P: PageSource>(
    pages: &mut P,
    lsns: &mut HashMap<u64, u64>,
    page: u64,
    lsn: u64,
) -> Result<u64, PageFault>
    ensures prev { IfOk result (λ prev. prev ≡ lsns_over (P.pages pages.old) lsns.old.entries page) }
    ensures raised { IfOk result (λ prev. (n : ℕ) → lsns_over (P.pages pages.old) lsns.new.entries n
        ≡ raised (lsns_over (P.pages pages.old) lsns.old.entries) page lsn n) }
    ensures pages { P.pages pages.new ≡ P.pages pages.old }
    ensures excused { IsExcused result (P.losses pages.old) (P.losses pages.new) }
{
    match lsn_of(pages, lsns, page) {
        Ok(prev) => match lsns.insert(page, lsn) {
            Ok(_) => Ok(prev),
            Err(_) => Err(PageFault::NoMemory),
        },
        Err(fault) => Err(fault),
    }
}

/// The LSN of a page: the one that is kept, or else the one that the page comes with.
fn lsn_of<P: PageSource>(
    pages: &mut P,
    lsns: &HashMap<u64, u64>,
    page: u64,
) -> Result<u64, PageFault>
    ensures told { IfOk result (λ lsn. lsn ≡ lsns_over (P.pages pages.old) lsns.now.entries page) }
    ensures pages { P.pages pages.new ≡ P.pages pages.old }
    ensures excused { IsExcused result (P.losses pages.old) (P.losses pages.new) }
{
    match lsns.get(&page) {
        Some(lsn) => Ok(*lsn),
        None => {
            pages.load(page)?;
            Ok(pages.page().lsn())
        }
    }
}
