ghost use Rattle.std.specs.Prelude.{◌≡◌, ℕ, List, filter, IfOk, OnOk, ◌++◌, ◌∷◌, [], if◌then◌else◌};
ghost use Rattle.cdb_values.specs.declared.rows.Version.{Version};
ghost use Rattle.cdb_values.specs.declared.tables.TableDef.{TableDef};
ghost use Rattle.query_laws.specs.Intervals.{lies as lies_of};
ghost use Rattle.query_plan.specs.Views.{interval_in};
ghost use Rattle.sql_answer.specs.Combinations.{of_table as of_table_of};
ghost use Rattle.plan_run.specs.Sources.{AreRowsExcused, lying_in};
ghost use Rattle.plan_run.specs.declared.sources.RowFault.TheVariants.{NoMemory};

use crate::lying::lies;
use cdb_values::{Interval, List, TableDef, Version};
use std::alloc::{AllocError, AllocFailed, Global};
use thiserror::Error;

/// Why versions were not given.
#[derive(Clone, Copy, PartialEq, Eq, Debug, Error)]
pub enum RowFault {
    /// The one who gives the versions is gone; the source's count of losses rose.
    #[error("the rows are gone")]
    Gone,
    /// Want of memory.
    #[error("out of memory")]
    NoMemory,
}

impl From<AllocError> for RowFault {
    ghost from_gives = { λ _ e. e ≡ NoMemory };

    fn from(_error: AllocError) -> RowFault {
        RowFault::NoMemory
    }
}

impl<T: Drop> From<AllocFailed<T>> for RowFault {
    ghost from_gives = { λ _ e. e ≡ NoMemory };

    fn from(_error: AllocFailed<T>) -> RowFault {
        RowFault::NoMemory
    }
}

/// What gives the versions of tables, all of a table or those that lie in an interval of it. A table that is not there
/// has none.
pub trait RowSource {
    /// The tables whose versions the source means, with their keys.
    ghost tables: { Self → List TableDef };

    /// The versions that the source means of each table, by the table's place and by rising genid.
    ghost versions: { Self → List (List Version) };

    /// How often the source lost the one who gives the versions, up to the last value of a u64. A count that stands
    /// there after a call counts as one that rose in it.
    ghost losses: { Self → ℕ };

    /// The versions of a table. `Gone` comes only where the count of losses rose; the other error is want of memory.
    fn rows(&mut self, alloc: Global, table: u16) -> Result<List<Version>, RowFault>
        ensures all { IfOk result (λ found. found ≡ of_table_of (versions self.old) table) }
        ensures tables { tables self.new ≡ tables self.old }
        ensures versions { versions self.new ≡ versions self.old }
        ensures excused { AreRowsExcused result (losses self.old) (losses self.new) };

    /// The versions of an interval's table that lie in it. Errors as of `rows`.
    fn between(&mut self, alloc: Global, interval: &Interval) -> Result<List<Version>, RowFault>
        ensures lying { IfOk result (λ found. found
            ≡ lying_in (tables self.old) (interval_in interval.now) (of_table_of (versions self.old) interval.now.table)) }
        ensures tables { tables self.new ≡ tables self.old }
        ensures versions { versions self.new ≡ versions self.old }
        ensures excused { AreRowsExcused result (losses self.old) (losses self.new) };
}

/// Versions in memory, with the tables that they are of.
#[derive(Drop)]
pub struct MemRows {
    pub tables: List<TableDef>,
    /// The versions of each table, by the table's place and by rising genid.
    pub versions: List<List<Version>>,
}

impl RowSource for MemRows {
    ghost tables = { λ s. s.tables };

    ghost versions = { λ s. s.versions };

    ghost losses = { λ _. 0 };

    fn rows(&mut self, alloc: Global, table: u16) -> Result<List<Version>, RowFault> {
        Ok(all_of(alloc, of_table(self.versions.as_slice(), table))?)
    }

    fn between(&mut self, alloc: Global, interval: &Interval) -> Result<List<Version>, RowFault> {
        let versions = of_table(self.versions.as_slice(), interval.table);
        Ok(lying(alloc, self.tables.as_slice(), interval, versions)?)
    }
}

/// The versions of a table, by its place; none where it is not there.
fn of_table(versions: &[List<Version>], table: u16) -> &[Version]
    ensures { result.now ≡ of_table_of versions.now table }
{
    match versions.get(table as usize) {
        Some(versions) => versions.as_slice(),
        None => &[],
    }
}

/// Copies of versions.
fn all_of(alloc: Global, versions: &[Version]) -> Result<List<Version>, AllocError>
    ensures { IfOk result (λ all. all ≡ versions.now) }
{
    let mut all = List::new(alloc);
    let mut rest = versions;
    'versions: while let Some((version, others)) = rest.split_first() {
        all.push(copied(version)?)?;
        rest = others;
    }
    Ok(all)
}

/// Copies of the versions that lie in an interval.
#[tactic(auto, using(sql_answer_plain::proofs::CombinationLaws::kept_more))]
fn lying(
    alloc: Global,
    tables: &[TableDef],
    interval: &Interval,
    versions: &[Version],
) -> Result<List<Version>, AllocError>
    ensures { IfOk result (λ found. found ≡ lying_in tables.now (interval_in interval.now) versions.now) }
{
    let mut found = List::new(alloc);
    let mut rest = versions;
    'versions: while let Some((version, others)) = rest.split_first() {
        let is_in = lies(tables, interval, version.row.as_slice());
        add_version(&mut found, version, is_in)?;
        rest = others;
    }
    Ok(found)
}

/// Adds a copy of a version that is wanted.
fn add_version(
    found: &mut List<Version>,
    version: &Version,
    is_wanted: bool,
) -> Result<(), AllocError>
    ensures { OnOk result (found.new ≡ found.old ++ (if is_wanted then version.now ∷ [] else [])) }
{
    if is_wanted {
        found.push(copied(version)?)
    } else {
        Ok(())
    }
}

/// A copy of a version.
fn copied(version: &Version) -> Result<Version, AllocError>
    ensures { IfOk result (λ copy. copy ≡ version.now) }
{
    version.clone()
}
