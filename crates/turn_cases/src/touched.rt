//! Which entry touches first what a transaction used.
ghost use Rattle.std.specs.Prelude.{◌≡◌, ◌+◌, ◌<◌, ◌^◌, [], ◌∷◌, length, option_map};
ghost use Rattle.cdb_values.specs.Changes.{genids_taken};
ghost use Rattle.session_language.specs.Intervals.{changes_touch as changes_touch_of};
ghost use Rattle.session_language.specs.Touched.{first_use as first_use_of, first_used as first_used_of, is_touched as is_touched_by};
ghost use Rattle.session_turns.specs.Decisions.{item_of};
ghost use Rattle.turn_cases.specs.Plain.{changes_in, touch_of, used_of};

use crate::rows::PlainEntry;
use cdb_values::{Change, GenidItem, Interval, Item, TableDef};
use key_intervals::touches;

/// A position whose entry touches something that was used, and the first such thing.
#[derive(Clone, Copy, Drop)]
pub(crate) struct FirstTouch {
    pub position: u64,
    pub item: Item,
}

/// Whether changes take a version away.
#[tactic(auto, using(crate::proofs::TouchLemmas::touched_taken, crate::proofs::TouchLemmas::touched_none))]
fn is_touched(changes: &[Change], item: GenidItem) -> bool
    ensures { result ≡ is_touched_by (genids_taken changes.now) item }
{
    let mut rest = changes;
    'changes: while let Some((change, after)) = rest.split_first() {
        if takes(change, item) {
            return true;
        }
        rest = after;
    }
    false
}

/// Whether a change takes a version away.
fn takes(change: &Change, item: GenidItem) -> bool
    ensures { result ≡ is_touched_by (genids_taken (change.now ∷ [])) item }
{
    match change {
        Change::Insert { .. } => false,
        Change::Update {
            table,
            old_genid,
            ..
        } => *table == item.table && *old_genid == item.genid,
        Change::Delete {
            table,
            old_genid,
            ..
        } => *table == item.table && *old_genid == item.genid,
    }
}

/// Whether changes touch an interval.
fn changes_touch(tables: &[TableDef], interval: &Interval, changes: &[Change]) -> bool
    ensures { result ≡ changes_touch_of tables.now interval.now changes.now }
{
    changes
        .iter()
        .any(|change| touches(tables, interval, change))
}

/// The first of these versions, and of these intervals behind them, that changes touch.
fn first_used(
    tables: &[TableDef],
    changes: &[Change],
    genids: &[GenidItem],
    ranges: &[Interval],
) -> Option<Item>
    ensures { result ≡ option_map item_of (first_used_of tables.now changes.now (used_of genids.now ranges.now)) }
{
    let mut rest = genids;
    'items: while let Some((item, after)) = rest.split_first() {
        if is_touched(changes, *item) {
            return Some(Item::Genid(*item));
        }
        rest = after;
    }
    first_range(tables, changes, ranges)
}

/// The first of these intervals that changes touch.
fn first_range(tables: &[TableDef], changes: &[Change], ranges: &[Interval]) -> Option<Item>
    ensures { result ≡ option_map item_of (first_used_of tables.now changes.now (used_of [] ranges.now)) }
{
    let mut rest = ranges;
    'intervals: while let Some((interval, after)) = rest.split_first() {
        if changes_touch(tables, interval, changes) {
            return Some(Item::Range {
                table: interval.table,
                key: interval.key,
            });
        }
        rest = after;
    }
    None
}

/// The first of these entries behind a position that touches something that was used, and the first that it touches.
pub(crate) fn first_use(
    tables: &[TableDef],
    position: u64,
    entries: &[PlainEntry],
    genids: &[GenidItem],
    ranges: &[Interval],
) -> Option<FirstTouch>
    requires { position + length entries.now < 2 ^ 64 }
    ensures { result ≡ option_map touch_of (first_use_of tables.now position (changes_in entries.now) (used_of genids.now ranges.now)) }
{
    let mut position = position;
    let mut rest = entries;
    'entries: while let Some((entry, after)) = rest.split_first() {
        position += 1;
        if let Some(item) = first_used(tables, entry.changes.as_slice(), genids, ranges) {
            return Some(FirstTouch { position, item });
        }
        rest = after;
    }
    None
}
