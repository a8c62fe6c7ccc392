//! The versions of a table that lie in an interval, read by the key of the interval.
ghost use Rattle.std.specs.Prelude.{ℕ, ◌≡◌, ◌+◌, ◌^◌, ◌<◌, ◌≤◌, ◌++◌, ◌∷◌, [], true, List, Some, None, IfOk, OnOk, length, filter, slice_get, if◌then◌else◌};
ghost use Rattle.std.specs.List.{AllByRecursion};
ghost use Rattle.page_store.specs.Sources.{IsExcused};
ghost use Rattle.page_workspace.specs.Spare.{IsIn};
ghost use Rattle.cdb_values.specs.Rows.{Rows, versions_of};
ghost use Rattle.cdb_values.specs.declared.rows.Version.{Version};
ghost use Rattle.sql_answer.specs.Writes.{keys_of};
ghost use Rattle.query_laws.specs.Intervals.{lies as lies_of, lies_by};
ghost use Rattle.query_plan.specs.Views.{interval_in};
ghost use Rattle.table_store.specs.Stored.{Stands};
ghost use Rattle.page_rows.specs.Listed.{IsTreeOf, AreReadable};
ghost use Rattle.page_rows.specs.Picks.{AreRising};

use crate::bounds::ends_of;
use crate::genids::genids_in;
use crate::picks::pick;
use crate::roots::rows_root;
use btree_index::scan;
use cdb_values::{Interval, KeyDef, List, Schema, Version};
use page_store::{PageFault, PageSource};
use std::alloc::Global;
use table_store::table_versions;

/// The versions of a table, by rising genid, from pages that stand for a state of the schema; none where the table is not
/// there. `Gone` comes only where the source lost its pages; the other error is want of memory.
pub(crate) fn read_rows<P: PageSource>(
    alloc: Global,
    pages: &mut P,
    schema: &Schema,
    table: u16,
) -> Result<List<Version>, PageFault>
    ensures versions { (rows : Rows) → Stands (P.pages pages.old) schema.now rows →
        IfOk result (λ found. found ≡ versions_of rows table) }
    ensures pages { P.pages pages.new ≡ P.pages pages.old }
    ensures below { P.below pages.new ≡ P.below pages.old }
    ensures excused { IsExcused result (P.losses pages.old) (P.losses pages.new) }
{
    if table as usize >= schema.tables().len() {
        return Ok(List::new(alloc));
    }
    let versions = table_versions(alloc, pages, schema, table)?;
    Ok(List::from_vec(versions))
}

/// The versions of an interval's table that lie in it, by rising genid, from pages that stand for a state of the schema.
/// Errors as of `read_rows`.
pub(crate) fn read_between<P: PageSource>(
    alloc: Global,
    pages: &mut P,
    schema: &Schema,
    interval: &Interval,
) -> Result<List<Version>, PageFault>
    ensures lying { (rows : Rows) → Stands (P.pages pages.old) schema.now rows →
        IfOk result (λ found. found
        ≡ filter (λ v. lies_of schema.now (interval_in interval.now) v.row) (versions_of rows interval.now.table)) }
    ensures pages { P.pages pages.new ≡ P.pages pages.old }
    ensures below { P.below pages.new ≡ P.below pages.old }
    ensures excused { IsExcused result (P.losses pages.old) (P.losses pages.new) }
{
    match interval.key {
        _ if interval.empty => Ok(List::new(alloc)),
        None => read_rows(alloc, pages, schema, interval.table),
        Some(key) => match schema.keys(interval.table).get(key as usize) {
            None => Ok(List::new(alloc)),
            Some(by) => read_by_key(alloc, pages, schema, interval, key, by),
        },
    }
}

/// The same, by the key of the interval, which is at this place of its table.
fn read_by_key<P: PageSource>(
    alloc: Global,
    pages: &mut P,
    schema: &Schema,
    interval: &Interval,
    place: u8,
    key: &KeyDef,
) -> Result<List<Version>, PageFault>
    requires chosen { interval.now.key ≡ Some place }
    requires there { slice_get (keys_of (slice_get schema.now interval.now.table)) place ≡ Some key.now }
    ensures lying { (rows : Rows) → Stands (P.pages pages.old) schema.now rows →
        IfOk result (λ found. found
        ≡ filter (λ v. lies_of schema.now (interval_in interval.now) v.row) (versions_of rows interval.now.table)) }
    ensures pages { P.pages pages.new ≡ P.pages pages.old }
    ensures below { P.below pages.new ≡ P.below pages.old }
    ensures excused { IsExcused result (P.losses pages.old) (P.losses pages.new) }
{
    let root = rows_root(schema, interval.table);
    let genids = genids_between(alloc, pages, root + 1 + place as u64, key, interval)?;
    pick(
        alloc,
        pages,
        root,
        schema.tables(),
        interval,
        genids.as_slice(),
    )
}

/// The genids of the versions in an interval, and perhaps of others, rising, from the tree of the interval's key.
fn genids_between<P: PageSource>(
    alloc: Global,
    pages: &mut P,
    root: u64,
    key: &KeyDef,
    interval: &Interval,
) -> Result<Vec<u64>, PageFault>
    ensures rising { IfOk result (λ genids. AreRising genids.items) }
    ensures covers { (versions : List Version) → IsTreeOf (P.pages pages.old) root (Some key.now) versions → AreReadable versions →
        IfOk result (λ genids. AllByRecursion (λ v. lies_by (Some key.now) (interval_in interval.now) v.row ≡ true → IsIn v.genid genids.items) versions) }
    ensures pages { P.pages pages.new ≡ P.pages pages.old }
    ensures below { P.below pages.new ≡ P.below pages.old }
    ensures excused { IsExcused result (P.losses pages.old) (P.losses pages.new) }
{
    let Ok(ends) = ends_of(alloc, key, interval) else {
        return Err(PageFault::NoMemory);
    };
    let pairs = scan(
        alloc,
        pages,
        root,
        ends.low.as_slice(),
        Some(ends.high.as_slice()),
    )?;
    match genids_in(alloc, pairs.as_slice(), key.unique) {
        Ok(genids) => Ok(genids),
        Err(_) => Err(PageFault::NoMemory),
    }
}
