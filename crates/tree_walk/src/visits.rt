//! Pages that are visited, and counted.
use page_store::{PageFault, PageSource};

/// A source of pages that may count how many it is asked for. Code that asks for pages by `visit` alone can say of every
/// such count how far it rises; nothing is known of it after a `load`.
pub trait VisitedPages: PageSource {
    ghost use Rattle.std.specs.Prelude.{ℕ, ◌≡◌, ◌+◌, ◌≤◌, Some, OnOk};
    ghost use Rattle.page_store.specs.Sources.{IsExcused};

    /// How many pages it was asked for.
    ghost visits: { Self → ℕ };

    /// Makes page `id` the loaded one, as `load` does.
    fn visit(&mut self, id: u64) -> Result<(), PageFault>
        ensures pages { Self.pages self.new ≡ Self.pages self.old }
        ensures below { Self.below self.new ≡ Self.below self.old }
        ensures loaded { OnOk result (Self.loaded self.new ≡ Some (Self.pages self.old id)) }
        ensures excused { IsExcused result (Self.losses self.old) (Self.losses self.new) }
        ensures counted { visits self.new ≤ visits self.old + 1 };
}

/// Each source of pages may be visited. It counts nothing of its own.
impl<P: PageSource> VisitedPages for P {
    ghost visits = { λ _. 0 };

    fn visit(&mut self, id: u64) -> Result<(), PageFault> {
        self.load(id)
    }
}
