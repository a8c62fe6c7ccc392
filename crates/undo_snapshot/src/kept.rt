ghost use Rattle.std.specs.Prelude.{ℕ, ◌≡◌, ◌≤◌, ◌↔◌, [], IsTrue, IfOk, OnOk, OnErr, length, is_some, false, nat_eq, option_copied};
ghost use Rattle.page_store.specs.Image.{Image};
ghost use Rattle.lru.specs.LruCache.{promoted};
ghost use Rattle.undo_snapshot.specs.Kept.{kept_page, used_page, most_kept};

use lru::LruCache;
use page_store::Page;
use std::alloc::{AllocError, Global};
use std::marker::Model;
use std::num::NonZeroUsize;

/// How many pages are kept at most.
const MOST_KEPT: usize = 256;

/// Undone pages that are kept for further loads, with their numbers; at most 256, those that were used last. Contracts
/// see the list of them, the one that was used last first.
#[derive(Drop)]
pub struct KeptPages {
    pages: LruCache<u64, Page>,
}

impl Model for KeptPages {
    ghost use Rattle.std.specs.Prelude.{ℕ, ◌≡◌, List};
    ghost use Rattle.page_store.specs.Image.{Image};
    ghost use Rattle.undo_snapshot.specs.Kept.{most_kept};

    ghost Value = { List (ℕ × Image) };

    ghost view = { λ k. k.pages.entries };

    ghost invariant = { λ k. k.pages.cap ≡ most_kept };
}

impl KeptPages {
    /// No page. The error is want of memory.
    pub fn new(alloc: Global) -> Result<KeptPages, AllocError>
        ensures { IfOk result (λ k. k ≡ []) }
    {
        match NonZeroUsize::new(MOST_KEPT) {
            Some(most) => Ok(KeptPages {
                pages: LruCache::sparse(alloc, most)?,
            }),
            None => unreachable!(),
        }
    }

    /// How many pages are kept.
    pub fn len(&self) -> usize
        ensures len { result ≡ length self.now }
        ensures most { result ≤ most_kept }
    {
        self.pages.len()
    }

    /// Whether no page is kept.
    pub fn is_empty(&self) -> bool
        ensures { IsTrue result ↔ (self.now ≡ []) }
    {
        self.pages.is_empty()
    }

    /// The kept page of a number, where there is one. It does not count as used.
    pub fn page(&self, id: u64) -> Option<&Page>
        ensures { option_copied result ≡ kept_page self.now id }
    {
        self.pages.peek(&id)
    }

    /// Makes the kept page of a number the one that was used last; whether there is one.
    #[tactic(auto, using(crate::proofs::KeptLemmas::promoted_none))]
    pub(crate) fn touch(&mut self, id: u64) -> bool
        ensures there { result ≡ is_some (kept_page self.old id) }
        ensures used { self.new ≡ promoted (nat_eq id) self.old }
        ensures same { result ≡ false → self.new ≡ self.old }
    {
        self.pages.promote(&id)
    }

    /// Keeps a page as the one that was used last. The error is want of memory; the kept pages are as before then.
    pub(crate) fn keep(&mut self, id: u64, page: Page) -> Result<(), AllocError>
        ensures used { OnOk result (self.new ≡ used_page self.old id page) }
        ensures unchanged { OnErr result (self.new ≡ self.old) }
    {
        match self.pages.put(id, page) {
            Ok(_) => Ok(()),
            Err(_) => Err(AllocError),
        }
    }
}
