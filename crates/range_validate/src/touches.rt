//! The first entry that touches a used item.
ghost use Rattle.std.specs.Prelude.{◌≡◌};
ghost use Rattle.range_validate.specs.Touches.{changes_in, first_item as first_item_of, first_touch_of};

use crate::intervals::first_range;
use crate::versions::first_version;
use cdb_values::{Change, GenidItem, Interval, Item, Schema, TableDef};
use phys_log::Entry;

/// An entry that touches a used item, by its place, and the first such item.
#[derive(Clone, Copy, PartialEq, Eq, Debug)]
pub struct Touch {
    /// The place of the entry among those that were looked at, from 0.
    pub place: u64,
    pub item: Item,
}

/// The first of these entries that touches one of these versions, or one of these intervals of a schema, and the first item
/// that it touches: the versions in order, and then the intervals in order. No row lies in an interval whose key the schema
/// lacks. Takes no memory.
pub fn first_touch(
    schema: &Schema,
    entries: &[Entry],
    genids: &[GenidItem],
    ranges: &[Interval],
) -> Option<Touch>
    ensures { result ≡ first_touch_of schema.now entries.now genids.now ranges.now }
{
    first_among(schema.tables(), entries, genids, ranges)
}

/// The first of these entries that touches an item, over these tables.
#[tactic(auto, using(crate::proofs::TouchLemmas::touch_here, crate::proofs::TouchLemmas::touch_later, crate::proofs::TouchLemmas::touch_none))]
fn first_among(
    tables: &[TableDef],
    entries: &[Entry],
    genids: &[GenidItem],
    ranges: &[Interval],
) -> Option<Touch>
    ensures { result ≡ first_touch_of tables.now entries.now genids.now ranges.now }
{
    'entries: for place in 0..entries.len() {
        if let Some(item) = first_item(tables, changes_of(&entries[place]), genids, ranges) {
            return Some(Touch {
                place: place as u64,
                item,
            });
        }
    }
    None
}

/// The first item that changes touch.
fn first_item(
    tables: &[TableDef],
    changes: &[Change],
    genids: &[GenidItem],
    ranges: &[Interval],
) -> Option<Item>
    ensures { result ≡ first_item_of tables.now changes.now genids.now ranges.now }
{
    match first_version(changes, genids) {
        Some(item) => Some(Item::Genid(item)),
        None => first_range(tables, changes, ranges),
    }
}

/// The changes of an entry; a setup has none.
fn changes_of(entry: &Entry) -> &[Change]
    ensures { result.now ≡ changes_in entry.now }
{
    match entry {
        Entry::Setup { .. } => &[],
        Entry::Commit { changes, .. } => changes.as_slice(),
    }
}
