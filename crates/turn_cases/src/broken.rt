//! Which key rows break first.
ghost use Rattle.std.specs.Prelude.{◌≡◌, ◌≤◌, ◌<◌, ◌^◌, [], length, IfSome};
ghost use Rattle.cdb_values.specs.Good.{first_broken as first_broken_of, broken_key as broken_key_of};
ghost use Rattle.cdb_values.specs.Good.{breaks as breaks_of, are_apart as are_apart_of, is_key_taken as is_key_taken_of};
ghost use Rattle.turn_cases.specs.Plain.{is_first_taken as is_first_taken_of, key_at, named};

use cdb_values::{KeyDef, List, Schema, Value, Version};

/// A key by its place.
#[derive(Clone, Copy, Drop)]
pub(crate) struct BrokenKey {
    pub table: u16,
    pub key: u8,
}

/// Whether one of these versions has the same values at the key as this row.
fn is_key_taken(key: &KeyDef, row: &[Value], versions: &[Version]) -> bool
    ensures { result ≡ is_key_taken_of key.now row.now versions.now }
{
    versions
        .iter()
        .any(|version| key.has_same_values(row, version.row.as_slice()))
}

/// Whether one of these versions has the same values at the key as the first of the others, if there is one.
fn is_first_taken(key: &KeyDef, before: &[Version], rest: &[Version]) -> bool
    ensures { result ≡ is_first_taken_of key.now before.now rest.now }
{
    match rest.split_first() {
        None => false,
        Some((version, _after)) => is_key_taken(key, version.row.as_slice(), before),
    }
}

/// Whether each version has other values at the key than those before it.
#[tactic(auto, using(crate::proofs::BrokenLemmas::apart_more, crate::proofs::BrokenLemmas::apart_no_more))]
fn are_apart(key: &KeyDef, versions: &[Version]) -> bool
    ensures { result ≡ are_apart_of key.now [] versions.now }
{
    'versions: for at in 0..versions.len() {
        let (before, rest) = versions.split_at(at);
        if is_first_taken(key, before, rest) {
            return false;
        }
    }
    true
}

/// Whether a table's versions break that key.
fn breaks(versions: &[Version], key: &KeyDef) -> bool
    ensures { result ≡ breaks_of versions.now key.now }
{
    key.unique && !are_apart(key, versions)
}

/// The place of the first of these keys that a table's versions break.
#[tactic(auto, using(crate::proofs::BrokenLemmas::drop_next))]
fn broken_key(versions: &[Version], keys: &[KeyDef]) -> Option<u8>
    requires { length keys.now ≤ 8 }
    ensures key { key_at keys.now result ≡ broken_key_of versions.now keys.now }
    ensures within { IfSome result (λ key. key < length keys.now) }
{
    let mut at = 0u8;
    let mut rest = keys;
    'keys: while let Some((key, after)) = rest.split_first() {
        if breaks(versions, key) {
            return Some(at);
        }
        at += 1;
        rest = after;
    }
    None
}

/// The first key that the versions of tables break, in the order of the tables and then of their keys.
pub(crate) fn first_broken(schema: &Schema, tables: &[List<Version>]) -> Option<BrokenKey>
    requires { length tables.now < 2 ^ 16 }
    ensures { named schema.now result ≡ first_broken_of schema.now tables.now }
{
    let mut table = 0u16;
    let mut rest = tables;
    'tables: while let Some((versions, after)) = rest.split_first() {
        if let Some(key) = broken_key(versions.as_slice(), schema.keys(table)) {
            return Some(BrokenKey { table, key });
        }
        table += 1;
        rest = after;
    }
    None
}
