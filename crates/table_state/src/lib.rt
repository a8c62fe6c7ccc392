//! The state for which any pages stand, those of a damaged or hostile store among them: the versions of each table and the
//! next genid, where the pages stand for a good state, and nothing where they stand for none.
//!
//! The pages are looked at in this order. Each step has a definition of its own, and where it finds nothing, no state stands:
//!
//! | Step | Code | Definition |
//! |---|---|---|
//! | the meta page: one cell of 24 bytes, its next genid and its number of pages below 2^62 | `counts` | `Counts` |
//! | the pages from the number of pages on are blank | `chains` | `Chains` |
//! | the free pages along their right links, of kind free and without cells | `chains` | `Chains` |
//! | all three | `reserves` | `Reserves` |
//! | one walk for each tree of the plan, over no more pages than were edited | `grown` | `Grown` |
//! | no page twice in the trees and the free pages, none of them 0, all below the number of pages | `numbers` | `Numbers` |
//! | all of it | `forests` | `Found` |
//! | the versions that the cells of a rows' tree have, by rising genid below the next one | `rows` | `Listed` |
//! | each row may stand in its table: types, NULLs and sizes | `fits` | `Fits` |
//! | each key's tree has as many pairs as there are versions, and that of each version | `keys`, `key_pair` of `table_store` | `Listed` |
//! | table after table, and all together | `tables`, `states` | `Listed`, `States` |
//!
//! Why these decide it:
//!
//! 1. Only edited pages can be other than blank. So a tree, whose pages are apart and not blank, has no more pages than were
//!    edited, and a chain of free pages at most one more: its last page alone may be blank itself. These bound the work.
//! 2. Pages tell their trees, and a chain is known from its first page. So the pages that the walks give are those of any
//!    state that stands, and one look at all numbers, sorted, tells whether they are apart.
//! 3. The cells of a tree climb, so a pair is found in it by halving. As many pairs as there are versions, which differ by
//!    their genids, and one for each version: then there is no other pair.
//! 4. A tree has each key once. So unique keys are kept, and nobody looks at the rows for it.
//!
//! For example, a table with an integer column and a unique key over it, and three edited pages:
//!
//! ```text
//! page 0   meta: next genid 4, 3 pages, no free page
//! page 1   leaf, the rows of t:   1 -> (9)      3 -> (4)
//! page 2   leaf, the key of t:    4 -> 3        9 -> 1
//! ```
//!
//! These pages stand for the versions 1: (9) and 3: (4). With the next genid 3 they stand for no state, and neither with one
//! of the four pairs less.
#![tactic(auto)]

mod chains;
mod counts;
mod fits;
mod forests;
mod grown;
mod keys;
mod numbers;
mod reserves;
mod rows;
mod states;
mod tables;

pub use states::{State, state_of};
