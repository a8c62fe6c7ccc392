ghost use Rattle.std.specs.Prelude as std;
ghost use Rattle.std.specs.Prelude.{ℕ, ◌≡◌, []};
ghost use Rattle.page_store.specs.Image.{Image};
ghost use Rattle.phys_log.specs.Logs.{pages_of};
ghost use Rattle.phys_log.specs.declared.entries.Entry.{Entry as OneEntry};
ghost use Rattle.undo_snapshot.specs.Kept.{AreOf, Further};

use crate::granters::Granter;
use crate::kept::KeptPages;
use crate::snapshots::SnapshotPages;
use page_store::{Page, PageFault, PageSource};
use std::marker::{Brand, Model, PhantomData};

/// What a type stands for: first entries, and pages of them that were kept. A proof picks both where a call passes `Brand`.
pub trait Front {
    ghost front: { std.List OneEntry };

    ghost kept: { std.List (ℕ × Image) };
}

impl Front for Brand {
    ghost front = { [] };

    ghost kept = { [] };
}

/// Undone pages whose first entries are those of its type, and which began with the kept pages of its type. So it is known
/// to be of these entries even after code that told nothing of it, and to keep what it began with, and what was used since.
/// Contracts see the `SnapshotPages`.
#[derive(Drop)]
pub struct FrontPages<F: Front, G: Granter> {
    pages: SnapshotPages<G>,
    of: PhantomData<F>,
}

impl<F: Front, G: Granter> Model for FrontPages<F, G> {
    ghost use Rattle.std.specs.Prelude.{◌≡◌};
    ghost use Rattle.phys_log.specs.Logs.{pages_of};
    ghost use Rattle.undo_snapshot.specs.Kept.{Further};
    ghost use Rattle.undo_snapshot.specs.Snapshots.{Snapshot};

    ghost Value = { Snapshot G };

    ghost view = { λ s. s.pages };

    ghost invariant = { λ s. (G.front s.pages.granter ≡ F.front) × Further (pages_of F.front) F.kept s.pages.kept };
}

impl<F: Front, G: Granter> FrontPages<F, G> {
    /// These pages, which are of the first entries of the type, and begin with its kept pages.
    pub fn new(pages: SnapshotPages<G>) -> FrontPages<F, G>
        requires front { G.front pages.granter ≡ F.front }
        requires kept { pages.kept ≡ F.kept }
        ensures { result ≡ pages }
    {
        FrontPages {
            pages,
            of: PhantomData,
        }
    }

    /// The kept pages, for the next source over the same first entries: those that it began with, and what was used since.
    pub fn into_kept(self) -> KeptPages
    where
        G: Drop,
        ensures kept { result ≡ self.kept }
        ensures pages { AreOf (pages_of F.front) result }
        ensures further { Further (pages_of F.front) F.kept result }
    {
        let FrontPages { pages, .. } = self;
        pages.into_kept()
    }
}

impl<F: Front, G: Granter> PageSource for FrontPages<F, G> {
    ghost pages = { λ _. pages_of F.front };

    ghost below = { λ _. pages_of F.front };

    ghost loaded = { λ s. s.loaded };

    ghost losses = { λ s. G.losses s.granter };

    fn load(&mut self, id: u64) -> Result<(), PageFault> {
        self.pages.load(id)
    }

    fn page(&self) -> &Page {
        self.pages.page()
    }
}
