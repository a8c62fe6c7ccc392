ghost use Rattle.std.specs.Prelude.{◌≡◌, ◌≤◌, [], None, List, length, take, IfOk, OnOk, OnErr, IsOk, IsSome, unwrap_or};
ghost use Rattle.phys_log.specs.Logs.{pages_of};
ghost use Rattle.phys_log.specs.declared.entries.Entry.{Entry};
ghost use Rattle.undo_snapshot.specs.Kept.{AreOf};
ghost use Rattle.undo_snapshot.specs.Positions.{entries_in, kept_before, most_positions, pages_at, put_pages, AreOfLog, IsSmall};

use crate::kept::KeptPages;
use lru::LruCache;
use std::alloc::{AllocError, Global};
use std::marker::Model;
use std::num::NonZeroUsize;

/// Of how many positions pages are kept at most.
const MOST_POSITIONS: usize = 64;

/// Undone pages of a log at several positions, for readers that come back to these; at most 64 positions, those that were read
/// last. The log may grow meanwhile. Contracts see the positions with their pages, the one that was read last first.
///
/// A reader takes the pages of its position out, and puts them back with those that it undid. Its place stays meanwhile, so
/// that the way back takes no memory, and what was undone is never let go for want of it.
#[derive(Drop)]
pub struct KeptPositions {
    kept: Option<LruCache<u64, KeptPages>>,
}

impl Model for KeptPositions {
    ghost use Rattle.std.specs.Prelude.{ℕ, List};
    ghost use Rattle.page_store.specs.Image.{Image};
    ghost use Rattle.undo_snapshot.specs.Positions.{entries_in, IsSmall};

    ghost Value = { List (ℕ × List (ℕ × Image)) };

    ghost view = { λ k. entries_in k.kept };

    ghost invariant = { λ k. IsSmall k.kept };
}

impl KeptPositions {
    /// No position. Takes no memory.
    pub fn none() -> KeptPositions
        ensures { result ≡ [] }
    {
        KeptPositions { kept: None }
    }

    /// Takes out the pages that are kept of a position, and leaves its place without pages. Where it has no place, it gets
    /// one; where there are 64 then, the position that was read before all others loses its own. The error is want of memory;
    /// all is as before then.
    #[tactic(auto, using(crate::proofs::PositionLemmas::place_stays))]
    pub fn take(&mut self, alloc: Global, position: u64) -> Result<KeptPages, AllocError>
        ensures taken { IfOk result (λ pages. pages ≡ kept_before self.old position) }
        ensures place { OnOk result (self.new ≡ put_pages self.old position []) }
        ensures unchanged { OnErr result (self.new ≡ self.old) }
        ensures pages { (log : List Entry) → AreOfLog log self.old → IfOk result (AreOf (pages_of (take position log))) }
        ensures others { (log : List Entry) → position ≤ length log → AreOfLog log self.old → AreOfLog log self.new }
    {
        let place = KeptPages::new(alloc)?;
        let none = KeptPages::new(alloc)?;
        let had = self.exchange(alloc, position, place)?;
        Ok(or_none(had, none))
    }

    /// Puts pages of a position into its place, which becomes the first. Takes no memory.
    #[tactic(auto, using(crate::proofs::PositionLemmas::put_stays))]
    pub fn put(&mut self, alloc: Global, position: u64, pages: KeptPages)
        requires { IsSome (pages_at self.old position) }
        ensures put { self.new ≡ put_pages self.old position pages }
        ensures of_log { (log : List Entry) → position ≤ length log → AreOf (pages_of (take position log)) pages
            → AreOfLog log self.old → AreOfLog log self.new }
    {
        match self.exchange(alloc, position, pages) {
            Ok(before) => drop(before),
            Err(_) => unreachable!(),
        }
    }

    /// Puts pages of a position first, and gives those that it had. The error is want of memory, which comes only where the
    /// position has no place; all is as before then.
    #[tactic(auto, using(crate::proofs::PositionLemmas::put_in))]
    fn exchange(
        &mut self,
        alloc: Global,
        position: u64,
        pages: KeptPages,
    ) -> Result<Option<KeptPages>, AllocError>
        ensures had { IfOk result (λ had. had ≡ pages_at self.old position) }
        ensures put { OnOk result (self.new ≡ put_pages self.old position pages) }
        ensures unchanged { OnErr result (self.new ≡ self.old) }
        ensures there { IsSome (pages_at self.old position) → IsOk result }
    {
        let mut kept = room(alloc, self.kept.take())?;
        let had = kept.put(position, pages);
        self.kept = Some(kept);
        match had {
            Ok(had) => Ok(had),
            Err(_) => Err(AllocError),
        }
    }
}

/// These pages, where there are some, else those without a page.
fn or_none(pages: Option<KeptPages>, none: KeptPages) -> KeptPages
    requires { none ≡ [] }
    ensures { result ≡ unwrap_or pages [] }
{
    match pages {
        Some(pages) => pages,
        None => none,
    }
}

/// Those that are kept, or room for the first. The error is want of memory.
fn room(
    alloc: Global,
    kept: Option<LruCache<u64, KeptPages>>,
) -> Result<LruCache<u64, KeptPages>, AllocError>
    requires { IsSmall kept }
    ensures same { IfOk result (λ k. k.entries ≡ entries_in kept) }
    ensures small { IfOk result (λ k. k.cap ≡ most_positions) }
    ensures there { OnErr result (kept ≡ None) }
{
    match kept {
        Some(kept) => Ok(kept),
        None => match NonZeroUsize::new(MOST_POSITIONS) {
            Some(most) => LruCache::sparse(alloc, most),
            None => unreachable!(),
        },
    }
}
