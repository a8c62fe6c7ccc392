//! The trees of a store, as the walks give them.
ghost use Rattle.std.specs.Prelude.{ℕ, ◌≡◌, ◌+◌, ◌<◌, ◌^◌, IfOk, MatchOption};
ghost use Rattle.page_store.specs.Sources.{IsExcused};
ghost use Rattle.table_state.specs.Grown.{AreGrown, IsFelled};

use page_store::{PageFault, PageSource};
use std::alloc::Global;
use tree_walk::{Walked, walk};

/// So many trees from root 1 on, each of no more pages than the limit; `None` where one of them is none.
pub(crate) fn walk_trees<P: PageSource>(
    alloc: Global,
    pages: &mut P,
    number: u64,
    limit: u64,
) -> Result<Option<Vec<Walked>>, PageFault>
    requires { number < 2 ^ 62 }
    ensures grown { IfOk result (λ r. MatchOption r (IsFelled (P.pages pages.old) number limit) (λ v. AreGrown (P.pages pages.old) number limit v.items)) }
    ensures pages { P.pages pages.new ≡ P.pages pages.old }
    ensures below { P.below pages.new ≡ P.below pages.old }
    ensures excused { IsExcused result (P.losses pages.old) (P.losses pages.new) }
{
    let mut trees = Vec::new(alloc);
    'walking: for at in 0..number {
        let Some(tree) = walk(alloc, pages, 1 + at, limit)? else {
            return Ok(None);
        };
        trees.push(tree).map_err(|_| PageFault::NoMemory)?;
    }
    Ok(Some(trees))
}
