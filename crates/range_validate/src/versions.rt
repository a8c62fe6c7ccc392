//! Which used version changes take away.
ghost use Rattle.std.specs.Prelude.{◌≡◌};
ghost use Rattle.std.specs.List.{list_any};
ghost use Rattle.cdb_values.specs.Changes.{genid_item, genids_taken};
ghost use Rattle.session_language.specs.Touched.{is_same_item, is_touched as is_touched_of, first_touched as first_touched_of};
ghost use Rattle.range_validate.specs.Touches.{takes_item as takes_item_of};

use cdb_values::{Change, GenidItem};

/// The first of the used versions that changes take away.
pub(crate) fn first_version(changes: &[Change], used: &[GenidItem]) -> Option<GenidItem>
    ensures { result ≡ first_touched_of (genids_taken changes.now) used.now }
{
    let mut rest = used;
    'used: while let Some((item, after)) = rest.split_first() {
        if is_touched(changes, *item) {
            return Some(*item);
        }
        rest = after;
    }
    None
}

/// Whether changes take a version away.
#[tactic(auto, using(crate::proofs::TouchLemmas::touched_by_changes))]
fn is_touched(changes: &[Change], item: GenidItem) -> bool
    ensures { result ≡ is_touched_of (genids_taken changes.now) item }
{
    is_taken(changes, item)
}

/// Whether one of these changes takes a version away.
fn is_taken(changes: &[Change], item: GenidItem) -> bool
    ensures { result ≡ list_any (takes_item_of item) changes.now }
{
    changes.iter().any(|change| takes_item(change, item))
}

/// Whether a change takes a version away.
fn takes_item(change: &Change, item: GenidItem) -> bool
    ensures { result ≡ takes_item_of item change.now }
{
    match change {
        Change::Insert { .. } => false,
        Change::Update {
            table,
            old_genid,
            ..
        } => is_same(item, *table, *old_genid),
        Change::Delete {
            table,
            old_genid,
            ..
        } => is_same(item, *table, *old_genid),
    }
}

/// Whether a version is that of a table with a genid.
fn is_same(item: GenidItem, table: u16, genid: u64) -> bool
    ensures { result ≡ is_same_item item (genid_item table genid) }
{
    item.table == table && item.genid == genid
}
