//! B-trees on pages: below a root, pages hold a list of pairs of a key and a value, in the order of the keys.
//!
//! A cell of a leaf has a pair; a cell above the leaves has a key and the page below it. Numbers are big-endian:
//!
//! | Offset | Bytes | What |
//! |---|---|---|
//! | 0 | 2 | length of the key, at most 1,630 |
//! | 2 | that many | the key |
//! | behind | the others | in a leaf the value, so that the cell has at most 1,640 bytes; above the leaves 8 bytes, the child |
//!
//! The pair of the key `ab` and the value `x` is `00 02 61 62 78`. A leaf with the pairs `a` = `1` and `c` = `2`, and an
//! inner page over it and page 3:
//!
//! ```text
//! page 2   leaf, level 0, right 3    | 00 01 61 31 | 00 01 63 32 |
//! page 1   inner, level 1, right 0   | 00 00  00 00 00 00 00 00 00 02 | 00 01 6D  00 00 00 00 00 00 00 03 |
//! ```
//!
//! A tree of two levels, with its root at page 1:
//!
//! ```text
//! page 1, inner, level 1:   "" -> page 2       "m" -> page 3
//! page 2, leaf, right 3:    a, c, k
//! page 3, leaf, right 0:    m, z
//! ```
//!
//! A split of page 2, which has no room for `d`. A fresh page takes its cells from near the middle on, and stands behind
//! it, in the row of leaves and above; then `d` goes to page 2:
//!
//! ```text
//! page 1, inner, level 1:   "" -> page 2       "k" -> page 4       "m" -> page 3
//! page 2, leaf, right 4:    a, c
//! page 4, leaf, right 3:    k
//! page 3, leaf, right 0:    m, z
//! ```
//!
//! Where no page on the way has room for a further cell, the root is raised first: its cells move to a fresh page, its
//! one child, and it stands one level higher under its own number. So after the split of that child the cells of a root
//! stand on two new pages.
//!
//! A `remove` leaves a leaf that became empty where it is; `remove_and_free` takes it out of the tree, with each page above
//! it that has no other child, and puts them in front of the free pages, from where the next split takes its fresh page.
//! The leaf before gets the right link of the one that goes:
//!
//! ```text
//! page 1, inner, level 1:   "" -> page 2       "m" -> page 3
//! page 2, leaf, right 3:    a, c
//! page 3, leaf, right 0:    m, z
//! page 4, free, right 0
//! ```
//!
//! The first cell of a page above the leaves has the empty key; each further key is at most every key below its child
//! and above every key before it. Leaves are joined by their right links, 0 at the end. Keys are ordered byte by byte,
//! a beginning before what it begins. A leaf may be empty.
//!
//! In the definitions a level is a list of entries, a page with the least key that may stand below it, and the level
//! below is computed from it: the first cell of a page takes the page's own least key. So order is said once, at the
//! leaves. Least keys do not fall, and two are the same only around an empty leaf. That the pages below a root hold at
//! most one list is a law of the definitions, `trees_have_one_list`.
#![tactic(auto)]

mod cells;
mod finds;
mod frees;
mod halves;
mod inserts;
mod keys;
mod laws;
mod paths;
mod places;
mod prunes;
mod removes;
mod scans;
mod splits;
mod steps;

pub use cells::{key_in, value_in};
pub use finds::find;
pub use inserts::{InsertFault, insert};
pub use keys::is_before;
pub use laws::trees_have_one_list;
pub use removes::{remove, remove_and_free};
pub use scans::scan;
