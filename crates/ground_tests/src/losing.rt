//! A source that loses its pages.
ghost use Rattle.std.specs.Prelude.{◌≡◌, None, false, option_map, if◌then◌else◌};
ghost use Rattle.page_store.specs.Sources.{listed_pages};

use page_store::{Cell, Edit, MemPages, Page, PageFault, PageSource};
use page_workspace::{EditFault, Workspace};
use std::test::Fail;

/// Pages of which each load behind the first few is answered by `Gone`, with the count of such losses.
#[derive(Drop)]
struct LostPages {
    below: MemPages,
    left: u64,
    losses: u64,
    is_open: bool,
}

impl PageSource for LostPages {
    ghost pages = { λ s. listed_pages s.below.pages };

    ghost below = { λ s. listed_pages s.below.pages };

    ghost loaded = { λ s. if s.is_open then option_map (listed_pages s.below.pages) s.below.loaded else None };

    ghost losses = { λ s. s.losses };

    fn load(&mut self, id: u64) -> Result<(), PageFault> {
        self.is_open = false;
        if self.left == 0 {
            self.losses = self.losses.saturating_add(1);
            return Err(PageFault::Gone);
        }
        self.left -= 1;
        self.below.load(id)?;
        self.is_open = true;
        Ok(())
    }

    fn page(&self) -> &Page {
        self.below.page()
    }
}

/// These pages, of which so many loads are not lost.
fn lost_behind(below: MemPages, left: u64) -> LostPages {
    LostPages {
        below,
        left,
        losses: 0,
        is_open: false,
    }
}

/// Both faults of a lost page are told as such, and no edit is left.
#[test]
fn a_lost_page_is_told(rt: HostRuntime) -> Result<(), Fail> {
    let below = MemPages::new(rt.alloc(), Vec::new(rt.alloc()))?;
    let mut space = Workspace::new(rt.alloc(), lost_behind(below, 1));
    assert!(rt; space.load(2).is_ok());
    assert!(rt; matches!(space.load(1), Err(PageFault::Gone)));
    let cell = Cell::from_slice(rt.alloc(), b"a")?;
    let put = Edit::PutCell { at: 0, cell };
    assert!(rt; matches!(space.edit(1, put), Err(EditFault::Gone)));
    assert!(rt; matches!(space.take_page(rt.alloc()), Err(EditFault::Gone)));
    assert!(rt; space.finish().is_empty());
    Ok(())
}
