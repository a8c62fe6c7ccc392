//! The versions of genids that lie in an interval.
ghost use Rattle.std.specs.Prelude.{ℕ, ◌≡◌, ◌++◌, None, List, filter, IfOk, OnOk, option_to_list};
ghost use Rattle.page_store.specs.Sources.{IsExcused};
ghost use Rattle.cdb_values.specs.declared.rows.Version.{Version};
ghost use Rattle.query_laws.specs.Intervals.{lies as lies_of};
ghost use Rattle.query_plan.specs.Views.{interval_in};
ghost use Rattle.page_rows.specs.Listed.{IsTreeOf, AreReadable};
ghost use Rattle.page_rows.specs.Picks.{picked};

use crate::finds::version_of;
use cdb_values::{Interval, List, TableDef, Version};
use page_store::{PageFault, PageSource};
use plan_run::lies;
use std::alloc::{AllocError, Global};

/// The versions of genids that lie in an interval, from the rows' tree of their table, in the order of the genids. Errors
/// as of `version_of`.
pub(crate) fn pick<P: PageSource>(
    alloc: Global,
    pages: &mut P,
    root: u64,
    tables: &[TableDef],
    interval: &Interval,
    genids: &[u64],
) -> Result<List<Version>, PageFault>
    ensures found { (versions : List Version) → IsTreeOf (P.pages pages.old) root None versions → AreReadable versions →
        IfOk result (λ found. found ≡ picked (λ v. lies_of tables.now (interval_in interval.now) v.row) versions genids.now) }
    ensures pages { P.pages pages.new ≡ P.pages pages.old }
    ensures below { P.below pages.new ≡ P.below pages.old }
    ensures excused { IsExcused result (P.losses pages.old) (P.losses pages.new) }
{
    let mut found = List::new(alloc);
    let mut rest = genids;
    'genids: while let Some((genid, after)) = rest.split_first() {
        let version = version_of(alloc, pages, root, *genid)?;
        add_lying(&mut found, tables, interval, version)?;
        rest = after;
    }
    Ok(found)
}

/// Adds a version that lies in an interval.
fn add_lying(
    found: &mut List<Version>,
    tables: &[TableDef],
    interval: &Interval,
    version: Option<Version>,
) -> Result<(), PageFault>
    ensures added { OnOk result (found.new ≡ found.old ++ filter (λ v. lies_of tables.now (interval_in interval.now) v.row) (option_to_list version)) }
    ensures excused { (losses : ℕ) → IsExcused result losses losses }
{
    let Some(version) = version else {
        return Ok(());
    };
    if !lies(tables, interval, version.row.as_slice()) {
        return Ok(());
    }
    match found.push(version) {
        Ok(()) => Ok(()),
        Err(_) => Err(PageFault::NoMemory),
    }
}
