//! The physical log: its entries and their records, and what their replay means.
//!
//! A log is a list of entries, and an entry's position is its place in it, from 1. Entry 1 is the schema; every other
//! entry is one committed transaction. An entry holds physical records: each has its LSN, which is its number from 1
//! over the whole log, the LSN of the last earlier record of its page (0 where there is none), the number of its page,
//! and an edit that tells what it finds and what it leaves.
//!
//! ```text
//! position  entry    records: LSN, prev, page, edit
//! 1         setup    1  0  page 0  set head: free -> meta
//!                    2  1  page 0  put the cell x at 0
//! 2         commit   3  0  page 1  set head: free -> leaf
//!                    4  2  page 0  swap the cell at 0: x -> y
//! 3         commit   5  3  page 1  put the cell z at 0
//! ```
//!
//! Replayed, these give page 0 with the cell y and the LSN 4, and page 1 with the cell z and the LSN 5. At position 1
//! page 0 has the cell x and the LSN 2: that is page 0 of now, with its record 4 undone.
//!
//! | Notion | Code | Definition |
//! |---|---|---|
//! | the pages of a log, and the page at a position | | `specs/Logs.antt` |
//! | an entry is the next of a log | | `Fits` of `specs/Logs.antt` |
//! | the last LSN | `last_lsn` | `last_lsn_of` of `specs/Logs.antt` |
//! | the records of a page after a position, newest first, and what is left when they are undone | | `specs/Undone.antt` |
//! | an equal entry, an equal record | `copy_entry`, `copy_record` | |
//! | what a commit asks, and what is decided | `CommitRequest`, `Decision` | |
//!
//! The definitions know lists of entries alone. Their laws are the clauses of public functions that have no body: each
//! holds for all entries.
#![tactic(auto)]

mod entries;
mod laws;
mod requests;

pub use cdb_values::{Edge, GenidItem, Interval, Item};
pub use entries::{CommitId, Entry, LogRecord, copy_entry, copy_record, last_lsn};
pub use laws::{
    chains_are_linked, first_entries_decide, first_lsns_tell, logs_grow, undoing_gives_the_page_at,
};
pub use requests::{CommitRequest, Decision};
