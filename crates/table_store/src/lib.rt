//! Tables on pages: pages that stand for a state of a schema, which is the versions of each table and the next genid.
//!
//! A store has one tree for the rows of each table and one for each of its keys. The tables come in their order, of a
//! table first the rows and then the keys; tree `i` of this plan, from 0, has its root on page `1 + i`:
//!
//! | Tree | Key | Value |
//! |---|---|---|
//! | rows | the genid, in 8 bytes | the row's code |
//! | unique key | the key's code | the genid, in 8 bytes |
//! | another key | the key's code, then the genid in 8 bytes | nothing |
//!
//! A table `t` with an integer column `id` and a unique key over it, the version 1 with the id 9 and the version 3 with
//! the id 4, and the next genid 4:
//!
//! ```text
//! page 0   meta: next genid 4, 3 pages, first free 0
//! page 1   leaf   1 -> (9)   00 08  00 00 00 00 00 00 00 01     01 00 00 00 00 00 00 00 09
//!                 3 -> (4)   00 08  00 00 00 00 00 00 00 03     01 00 00 00 00 00 00 00 04
//! page 2   leaf   4 -> 3     00 09  01 80 00 00 00 00 00 00 04  00 00 00 00 00 00 00 03
//!                 9 -> 1     00 09  01 80 00 00 00 00 00 00 09  00 00 00 00 00 00 00 01
//! ```
//!
//! The definitions are three layers that know little of one another:
//!
//! ```text
//! Forest     several trees on the same pages, apart from one another; no rows
//! Listings   rows, and the lists of pairs that trees have of them; no pages
//! Stands     both, and the next genid
//! ```
//!
//! What a tree lists is said by membership: a pair for each version, and no other pair. The order is the tree's, which
//! has each key once, so a list of pairs is known from its members. Hence, in four steps:
//!
//! 1. Pages tell the height of the tree at a root, so its pages and its list (`pages_hold_one_forest`).
//! 2. A pair of the rows' tree tells its version, and versions by rising genids are known from their members. So pages
//!    stand for at most one state (`pages_stand_for_one_state`).
//! 3. A tree has each key once, and the code of a key tells its values. So no two versions have the same values at a
//!    unique key (`pages_that_stand_keep_their_keys`).
//! 4. The pages of two trees are apart, so a change of one tree leaves every other as it is
//!    (`a_change_of_one_tree_keeps_the_others`), and operations can be done tree after tree: in each, all that goes is
//!    taken out before anything is put in (`a_tree_after_operations`).
//!
//! A store begins by `create_edits`: each tree as a leaf without cells, and the meta page with the next genid 1. The other
//! functions run nothing: each is a law, and its clauses are what is proved.
#![tactic(auto)]

mod creates;
mod laws;
mod pairs;
mod reads;
mod worked;

pub use creates::create_edits;
pub use laws::{
    a_change_of_one_tree_keeps_the_others, a_tree_after_operations, pages_hold_one_forest,
    pages_stand_for_one_state, pages_that_stand_keep_their_keys,
};
pub use pairs::{key_for, key_pair, key_values, pair_for};
pub use reads::table_versions;
pub use worked::two_rows_stand;
