ghost use Rattle.std.specs.Prelude.{ℕ, ◌≡◌, [], IfOk, OnOk, OnErr, IsOk, IsSome, Some, None, length};
ghost use Rattle.page_store.specs.Image.{Image};
ghost use Rattle.page_store.specs.Sources.{IsExcused};
ghost use Rattle.phys_log.specs.Logs.{pages_of};
ghost use Rattle.undo_snapshot.specs.Kept.{kept_page, used_page, AreOf};

use crate::granters::Granter;
use crate::kept::KeptPages;
use page_store::{Page, PageFault, PageSource};
use std::alloc::{AllocError, Global};
use std::marker::Model;

/// The pages at a position, as a source: each is granted, undone and kept. No call waits.
#[derive(Drop)]
pub struct SnapshotPages<G: Granter> {
    alloc: Global,
    granter: G,
    position: u64,
    kept: KeptPages,
    loaded: Option<u64>,
}

impl<G: Granter> Model for SnapshotPages<G> {
    ghost use Rattle.undo_snapshot.specs.Kept.{kept_at};
    ghost use Rattle.undo_snapshot.specs.Snapshots.{Snapshot, IsSnapshot};

    ghost Value = { Snapshot G };

    ghost view = { λ s. record { granter = s.granter; kept = s.kept; loaded = kept_at s.kept s.loaded } };

    ghost invariant = { λ s. IsSnapshot (G.front s.granter) s.position s.kept };
}

impl<G: Granter> SnapshotPages<G> {
    /// The pages at the granter's position, which is the number of the entries up to it. None is loaded or kept. The
    /// error is want of memory.
    pub fn new(alloc: Global, granter: G, position: u64) -> Result<SnapshotPages<G>, AllocError>
    where
        G: Drop,
        requires { position ≡ length (G.front granter) }
        ensures { IfOk result (λ s. s ≡ record { granter = granter; kept = []; loaded = None }) }
    {
        let kept = KeptPages::new(alloc)?;
        Ok(SnapshotPages::with_kept(alloc, granter, position, kept))
    }

    /// The same, with pages that were kept over the same first entries.
    pub fn with_kept(alloc: Global, granter: G, position: u64, kept: KeptPages) -> SnapshotPages<G>
        requires position { position ≡ length (G.front granter) }
        requires kept { AreOf (pages_of (G.front granter)) kept }
        ensures { result ≡ record { granter = granter; kept = kept; loaded = None } }
    {
        SnapshotPages {
            alloc,
            granter,
            position,
            kept,
            loaded: None,
        }
    }

    /// The kept pages, for the next source over the same first entries.
    pub fn into_kept(self) -> KeptPages
    where
        G: Drop,
        ensures kept { result ≡ self.kept }
        ensures pages { AreOf (pages_of (G.front self.granter)) result }
    {
        let SnapshotPages { kept, .. } = self;
        kept
    }

    /// Who grants the pages.
    pub fn granter(&self) -> &G
        ensures { result.now ≡ self.now.granter }
    {
        &self.granter
    }

    /// The position.
    pub fn position(&self) -> u64
        ensures { result ≡ length (G.front self.now.granter) }
    {
        self.position
    }
}

impl<G: Granter> PageSource for SnapshotPages<G> {
    ghost pages = { λ s. pages_of (G.front s.granter) };

    ghost below = { λ s. pages_of (G.front s.granter) };

    ghost loaded = { λ s. s.loaded };

    ghost losses = { λ s. G.losses s.granter };

    fn load(&mut self, id: u64) -> Result<(), PageFault>
        ensures front { G.front self.new.granter ≡ G.front self.old.granter }
        ensures loaded { OnOk result (self.new.loaded ≡ Some (pages_of (G.front self.old.granter) id)) }
        ensures none { OnErr result (self.new.loaded ≡ None) }
        // a kept page is loaded without a grant
        ensures again { IsSome (kept_page self.old.kept id) → IsOk result × (self.new.granter ≡ self.old.granter) }
        ensures kept { OnOk result (self.new.kept ≡ used_page self.old.kept id (pages_of (G.front self.old.granter) id)) }
        ensures unchanged { OnErr result (self.new.kept ≡ self.old.kept) }
        ensures excused { IsExcused result (G.losses self.old.granter) (G.losses self.new.granter) }
    {
        self.loaded = None;
        use_page(&mut self.granter, &mut self.kept, self.alloc, id)?;
        self.loaded = Some(id);
        Ok(())
    }

    fn page(&self) -> &Page {
        match self.loaded {
            Some(id) => loaded_page(&self.kept, id),
            None => unreachable!(),
        }
    }
}

/// Makes a page the kept one that was used last. Where it is not kept yet, it is granted and undone.
#[tactic(auto, using(crate::proofs::KeptLemmas::promoted_is))]
fn use_page<G: Granter>(
    granter: &mut G,
    kept: &mut KeptPages,
    alloc: Global,
    id: u64,
) -> Result<(), PageFault>
    requires { AreOf (pages_of (G.front granter.old)) kept.old }
    ensures front { G.front granter.new ≡ G.front granter.old }
    ensures again { IsSome (kept_page kept.old id) → IsOk result × (granter.new ≡ granter.old) }
    ensures kept { OnOk result (kept.new ≡ used_page kept.old id (pages_of (G.front granter.old) id)) }
    ensures unchanged { OnErr result (kept.new ≡ kept.old) }
    ensures excused { IsExcused result (G.losses granter.old) (G.losses granter.new) }
{
    if kept.touch(id) {
        return Ok(());
    }
    let page = granter.page(alloc, id)?;
    match kept.keep(id, page) {
        Ok(()) => Ok(()),
        Err(_) => Err(PageFault::NoMemory),
    }
}

/// A page that is kept.
fn loaded_page(kept: &KeptPages, id: u64) -> &Page
    requires { IsSome (kept_page kept.now id) }
    ensures { kept_page kept.now id ≡ Some result.now }
{
    match kept.page(id) {
        Some(page) => page,
        None => unreachable!(),
    }
}
