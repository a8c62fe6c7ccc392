ghost use Rattle.std.specs.Prelude.{◌≡◌, ◌<◌, ◌+◌, ◌^◌, ◌++◌, ◌∷◌, [], true, false, length, IfOk, OnOk, OnErr};
ghost use Rattle.cdb_values.specs.Rows.{no_rows, versions_of, is_live, without, taken, added};

use cdb_values::limits::GENID_LIMIT;
use cdb_values::{List, Row, TableDef, Version};
use std::alloc::{AllocError, Global};
use std::marker::Model;

/// The rows of all tables and the next genid. Contracts see the record `Rows`.
#[derive(Drop)]
pub struct State {
    tables: List<List<Version>>,
    next: u64,
}

impl Model for State {
    ghost use Rattle.cdb_values.specs.Rows.{Rows};

    ghost Value = { Rows };

    ghost view = { λ s. record { tables = s.tables; next = s.next } };
}

impl State {
    /// The tables without rows, with 1 as the next genid.
    pub fn new(alloc: Global, tables: &[TableDef]) -> Result<State, AllocError>
        ensures { IfOk result (λ s. s ≡ no_rows tables.now) }
    {
        let mut lists: List<List<Version>> = List::new(alloc);
        let mut rest = tables;
        'tables: while let Some((_table, after)) = rest.split_first() {
            lists.push(List::new(alloc))?;
            rest = after;
        }
        Ok(State {
            tables: lists,
            next: 1,
        })
    }

    /// The number of tables. Takes no memory.
    pub fn tables(&self) -> usize
        ensures { result ≡ length self.now.tables }
    {
        self.tables.len()
    }

    /// The versions of the table at a place, by rising genid. Takes no memory.
    pub fn versions(&self, table: u16) -> &[Version]
        requires { table < length self.now.tables }
        ensures { result.now ≡ versions_of self.now table }
    {
        self.tables.as_slice()[table as usize].as_slice()
    }

    /// The next genid. Takes no memory.
    pub fn next(&self) -> u64
        ensures { result ≡ self.now.next }
    {
        self.next
    }
}

impl State {
    /// Whether a version with that genid is in the table now.
    pub(super) fn is_live(&self, table: u16, genid: u64) -> bool
        requires { table < length self.now.tables }
        ensures { result ≡ is_live self.now table genid }
    {
        self.versions(table)
            .iter()
            .any(|version| version.genid == genid)
    }

    /// Writes a row at the end of a table, and gives its genid.
    pub(super) fn insert(&mut self, alloc: Global, table: u16, row: &Row) -> Result<u64, AllocError>
        requires { table < length self.old.tables }
        ensures added { OnOk result (self.new ≡ added self.old table row.now) }
        ensures genid { IfOk result (λ genid. genid ≡ self.old.next) }
        ensures below { OnOk result (self.new.next < 2 ^ 62) }
        ensures unchanged { OnErr result (self.new ≡ self.old) }
    {
        let genid = self.fresh_genid()?;
        let row = copied(row)?;
        let versions = self.tables.replace_at(table as usize, List::new(alloc));
        let (versions, is_longer) = lengthened(versions, Version { genid, row });
        let _empty = self.tables.replace_at(table as usize, versions);
        if !is_longer {
            return Err(AllocError);
        }
        self.next = genid + 1;
        Ok(genid)
    }

    /// Takes a version away and writes a row at the end of its table, and gives the row's genid.
    pub(super) fn update(
        &mut self,
        alloc: Global,
        table: u16,
        target: u64,
        row: &Row,
    ) -> Result<u64, AllocError>
        requires { table < length self.old.tables }
        ensures replaced { OnOk result (self.new ≡ added (taken self.old table target) table row.now) }
        ensures genid { IfOk result (λ genid. genid ≡ self.old.next) }
        ensures below { OnOk result (self.new.next < 2 ^ 62) }
        ensures unchanged { OnErr result (self.new ≡ self.old) }
    {
        let genid = self.fresh_genid()?;
        let row = copied(row)?;
        let versions = self.tables.replace_at(table as usize, List::new(alloc));
        let (versions, is_replaced) = replaced(versions, target, Version { genid, row });
        let _empty = self.tables.replace_at(table as usize, versions);
        if !is_replaced {
            return Err(AllocError);
        }
        self.next = genid + 1;
        Ok(genid)
    }

    /// Takes a version away. Takes no memory.
    pub(super) fn delete(&mut self, alloc: Global, table: u16, target: u64)
        requires { table < length self.old.tables }
        ensures { self.new ≡ taken self.old table target }
    {
        let versions = self.tables.replace_at(table as usize, List::new(alloc));
        let versions = kept(versions, target);
        let _empty = self.tables.replace_at(table as usize, versions);
    }

    /// The next genid, where another one can follow it.
    fn fresh_genid(&self) -> Result<u64, AllocError>
        ensures genid { IfOk result (λ genid. genid ≡ self.now.next) }
        ensures below { OnOk result (self.now.next + 1 < 2 ^ 62) }
    {
        if self.next >= GENID_LIMIT - 1 {
            return Err(AllocError);
        }
        Ok(self.next)
    }
}

/// A copy of a row.
fn copied(row: &Row) -> Result<Row, AllocError>
    ensures { IfOk result (λ copy. copy ≡ row.now) }
{
    row.clone()
}

/// These versions with another at the end, and true; or the same versions, and false, for want of
/// memory.
fn lengthened(versions: List<Version>, version: Version) -> (List<Version>, bool)
    ensures done { result.1 ≡ true → result.0 ≡ versions ++ version ∷ [] }
    ensures unchanged { result.1 ≡ false → result.0 ≡ versions }
{
    let mut items = versions.into_vec();
    if items.reserve(1).is_err() {
        return (List::from_vec(items), false);
    }
    items.push_reserved(version);
    (List::from_vec(items), true)
}

/// These versions without the one of a genid. Takes no memory.
fn kept(versions: List<Version>, target: u64) -> List<Version>
    ensures { result ≡ without target versions }
{
    let mut items = versions.into_vec();
    items.retain(|version| version.genid != target);
    List::from_vec(items)
}

/// These versions without the one of a genid and with another at the end, and true; or the same
/// versions, and false, for want of memory.
fn replaced(versions: List<Version>, target: u64, version: Version) -> (List<Version>, bool)
    ensures done { result.1 ≡ true → result.0 ≡ without target versions ++ version ∷ [] }
    ensures unchanged { result.1 ≡ false → result.0 ≡ versions }
{
    let mut items = versions.into_vec();
    if items.reserve(1).is_err() {
        return (List::from_vec(items), false);
    }
    items.retain(|version| version.genid != target);
    items.push_reserved(version);
    (List::from_vec(items), true)
}
