//! Laws of the free pages.
ghost use Rattle.std.specs.Prelude.{ℕ, ◌≡◌, ◌<◌, ◌∷◌, [], List};
ghost use Rattle.page_store.specs.Image.{Image};
ghost use Rattle.page_workspace.specs.Chains.{LeavesFree};
ghost use Rattle.page_workspace.specs.Spare.{AreFree, IsIn, count_of};
ghost use Rattle.page_workspace.specs.Takes.{FreesPage, TakesPage};

/// The laws of the free pages: an empty page that is given back stands in front of them, and one that is taken was the
/// first of them, or was never written; the others stay as they are.
pub fn free_pages_are_a_chain()
    ensures given { (old new : ℕ → Image) (id : ℕ) (ids : List ℕ) → AreFree old ids → FreesPage old new id → (old id).cells ≡ [] →
        (IsIn id ids → ⊥) → id < count_of old → AreFree new (id ∷ ids) }
    ensures taken { (old new : ℕ → Image) (id : ℕ) (ids : List ℕ) → AreFree old ids → TakesPage old new id →
        (count_of old ≡ 0 → ⊥) → LeavesFree old new id ids }
{}
