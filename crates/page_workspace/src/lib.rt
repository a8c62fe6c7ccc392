//! A workspace: pages of any source with edits laid over them, in order, while the source stays as it is.
//!
//! A workspace is itself a source, of the pages after the edits:
//!
//! ```text
//! source       0: meta 3 pages   1: leaf a, c      2: blank
//! edits           take a page       put b at 1
//! workspace    0: meta 4 pages   1: leaf a, b, c   2: blank
//! ```
//!
//! `finish` gives the edits in order, each with the number of its page, to be logged and then applied to the source's
//! own pages. Page 0 is the meta page: one cell of 24 bytes with the next genid, the number of pages and the first free
//! page, each in eight bytes, big-endian. These are a `Meta`; `take_page` takes the first free page, or the page behind the
//! last by raising its number of pages, and `free_page` gives one back.
#![tactic(auto)]

mod laws;
mod metas;
mod owns;
mod takes;
mod workspaces;

pub use laws::free_pages_are_a_chain;
pub use metas::{COUNT_LIMIT, Meta};
pub use workspaces::{EditFault, Workspace};
