//! Which entry touches what a request used.
ghost use Rattle.std.specs.Prelude.{◌≡◌, ◌≤◌, drop, length};
ghost use Rattle.block_processor.specs.Conflicts.{conflict_since, ranges_of};

use cdb_values::{Interval, Item, Level, Schema};
use phys_log::{CommitRequest, Entry};
use range_validate::first_touch;

/// An entry that touches a used item, by its position, and the first such item.
#[derive(Clone, Copy)]
pub(crate) struct Found {
    pub position: u64,
    pub item: Item,
}

/// The first entry after the begin of a request that touches an item that it used. Goes once over the entries, and takes no
/// memory.
#[tactic(auto, using(crate::proofs::ConflictLemmas::no_touch_is_none, crate::proofs::ConflictLemmas::touch_is_conflict, crate::proofs::ConflictLemmas::touch_is_within))]
pub(crate) fn first_conflict(
    schema: &Schema,
    entries: &[Entry],
    request: &CommitRequest,
) -> Option<Found>
    requires { request.now.begin ≤ length entries.now }
    ensures { result ≡ conflict_since schema.now request.now.begin entries.now request.now.genids (ranges_of request.now) }
{
    let since = entries_since(entries, request.begin);
    let before = (entries.len() - since.len()) as u64;
    match first_touch(
        schema,
        since,
        request.genids.as_slice(),
        used_ranges(request),
    ) {
        None => None,
        Some(touch) => Some(Found {
            position: before + touch.place + 1,
            item: touch.item,
        }),
    }
}

/// The intervals that count for a request: those that it read, where its level is serializable.
fn used_ranges(request: &CommitRequest) -> &[Interval]
    ensures { result.now ≡ ranges_of request.now }
{
    match request.level {
        Level::Snapshot => &[],
        Level::Serializable => request.ranges.as_slice(),
    }
}

/// The entries after a position.
fn entries_since(entries: &[Entry], begin: u64) -> &[Entry]
    requires { begin ≤ length entries.now }
    ensures { result.now ≡ drop begin entries.now }
{
    let (_, since) = entries.split_at(begin as usize);
    since
}
