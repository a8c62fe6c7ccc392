//! The walk over a tree of any pages whatever, those of a damaged or hostile store among them. It ends, visits no more pages
//! than it is allowed on each of its two ways, and finds the tree below a root exactly where the pages have one.
//!
//! The height of a tree is found first, along the first cells: the level that a page tells says no more than 255. With it
//! known the walk goes down level by level, and asks of each page what the definition of a tree asks of it: its kind and
//! level, its cells, the order of its keys between those of its neighbours, and the link to the next leaf. It does not ask
//! that no page comes twice, since that is looked at once over a whole store.
//!
//! | Step | Code | Definition, in `Walks` |
//! |---|---|---|
//! | what a cell, a page above the leaves and a leaf is to be | `cells`, `checks` | `is_inner`, `is_leaf_of` |
//! | one level down, and the cells of the leaves | `levels` | `descend`, `gather` |
//! | the height, and the whole walk | `walks` | `depth_from`, `walk_from`, `IsWalked` |
//! | pages that are visited, and counted | `visits` | |
//!
//! For example: where the one leaf of a tree links to page 9 in place of 0, the walk gives nothing.
#![tactic(auto)]

mod cells;
mod checks;
mod laws;
mod levels;
mod lows;
mod visits;
mod walks;

pub use laws::a_walk_decides;
pub use visits::VisitedPages;
pub use walks::{Walked, walk};
