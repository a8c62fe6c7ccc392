//! The replay of a log: its entries with the pages that they make, and grants of pages to readers at an earlier
//! position.
//!
//! A `PagedLog` is seen as its list of entries. What it keeps beside them follows from them at each moment, and nobody
//! outside can change one without the other: the pages are the replay of the entries, and each page's chain has its
//! records in LSN order with the positions of their entries. A log of three entries over two pages:
//!
//! ```text
//! position  record: LSN, prev, page, edit               page 0            page 1
//! 1         1  0  page 0  put x at 0                    x        LSN 1    blank    LSN 0
//! 2         2  0  page 1  put a at 0                    x        LSN 1    a        LSN 2
//!           3  1  page 0  swap x for y at 0             y        LSN 3    a        LSN 2
//! 3         4  3  page 0  put z at 1                    y, z     LSN 4    a        LSN 2
//!
//! chains    page 0: (1, 1) (2, 3) (3, 4)    page 1: (2, 2)      as (position, LSN)
//! ```
//!
//! The pages are kept by their numbers, which are dense, each with its chain. An entry is replayed on the kept pages
//! themselves; where one of its records is not the next one, those before it are undone, the last first. Other entries are
//! put in the place of the last ones in the same way: `replace_tail(1, [e])` undoes records 4, 3 and 2, then replays `e`.
//! Where `e` is not replayed, 2, 3 and 4 are made again on the same pages. `exchange_tail(1, [e])` keeps entries 2 and 3 aside,
//! so that the caller may still take `e` back: their records are made again then too, and their chains have kept room for that.
//!
//! A grant of page 0 at position 1 gives the page of now, `y, z` with LSN 4, and its records after position 1, newest
//! first: 4, then 3. The reader undoes them: record 4 taken back leaves `y` with LSN 3, its `prev`; record 3 taken back
//! leaves `x` with LSN 1. That is the page at position 1. A reader that has the log at hand is given that page at once,
//! and no record is copied.
//!
//! | Notion | Code | Definition |
//! |---|---|---|
//! | the pages of a log, an entry that fits it | `PagedLog::append`, `page`, `drop_tail`, `replace_tail`, `exchange_tail` | `Logs` of `phys_log` |
//! | the chain of a page | `PagedLog::chain` | `specs/Chains.antt` |
//! | the records of a page after a position | `PagedLog::grant` | `Undone` of `phys_log` |
//! | a page at a position | `PagedLog::page_at` | `Logs` of `phys_log` |
//! | what is kept beside the entries | | `specs/Kept.antt` |
//! | last entries that may still be put back | `Exchange` | `specs/Exchanges.antt` |
#![tactic(auto)]

mod chains;
mod exchanges;
mod grants;
mod kept;
mod log_pages;
mod logs;
mod tails;
mod undoes;
mod writes;

pub use chains::ChainLink;
pub use exchanges::Exchange;
pub use grants::Grant;
pub use log_pages::LogPages;
pub use logs::{AppendFault, PagedLog};
