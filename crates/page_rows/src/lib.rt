//! The rows of pages: a source of versions over pages that stand for a state of a schema.
//!
//! Pages stand for one state at most, so a `PageRows` need not be told which one: it means the versions of that state. It
//! gives all versions of a table from the rows' tree, and those of an interval by the tree of the interval's key:
//!
//! ```text
//! interval  -- two keys, one at each end -->  a part of the key's tree  -- genids -->  in order, each once
//! genid     -- the rows' tree -->             its version, where it lies in the interval
//! ```
//!
//! Both ends begin with the code of the values that the first columns equal, and behind it stands what the bound of the
//! next column says. A key goes on with the code of that column's value, and may end in a genid; nine bytes 255 come
//! after all of these:
//!
//! | Bound | The low end goes on with | The high end goes on with |
//! |---|---|---|
//! | none, or no next column | nothing, or 01 below a high bound, since NULL is 00 | nine bytes 255 |
//! | at least x | the code of x | |
//! | above x | the code of x, nine bytes 255 | |
//! | at most x | | the code of x, nine bytes 255 |
//! | below x | | the code of x |
//!
//! For example, over a key by_v(v, id) that is not unique, `v = 3 and id > 5` is read so:
//!
//! ```text
//! from     01 80 .. 03  01 80 .. 05  FF FF FF FF FF FF FF FF FF
//! to       01 80 .. 03  FF FF FF FF FF FF FF FF FF
//! pairs    (3, 6) genid 4      (3, 9) genid 2
//! genids   2, 4
//! ```
//!
//! That no version of the interval is missed is a matter of these keys; that no other is given, of the look at each row.
#![tactic(auto)]

mod bounds;
mod finds;
mod genids;
mod picks;
mod reads;
mod roots;
mod sources;

pub use sources::PageRows;
