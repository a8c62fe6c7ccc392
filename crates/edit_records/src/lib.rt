//! Edits of pages become the records of a log.
//!
//! An edit over pages leaves the LSN of its page as it was, since it has no number yet. A record of a log has one, its LSN,
//! which its page then has, too; and it tells the LSN that the page had before it, its `prev`. So the pages that records leave
//! are the pages that the edits leave, with other LSNs.
//!
//! For example: three edits behind the last LSN 7, where page 1 comes with the LSN 4 and page 2 was never written:
//!
//! ```text
//! edit               record: LSN, prev, page, edit
//! page 1  put x      8   4  page 1  put x
//! page 2  set head   9   0  page 2  set head
//! page 1  take y     10  8  page 1  take y
//! ```
//!
//! Afterwards page 1 has the LSN 10 and page 2 the LSN 9, and a log whose last LSN is 7 can go on with these records.
//!
//! | Notion | Code | Definition |
//! |---|---|---|
//! | edits with their LSNs | `records_of` | `records_behind` of `specs/Numbered.antt` |
//! | pages that are the same but for their LSNs | | `AreAlike` of `specs/Alike.antt` |
//! | edits of pages below a number | `are_within` | `are_below` of `specs/Numbered.antt` |
//!
//! No page of a tree is told by its LSN, and neither is a free one. So pages that stand for a state of a schema stand for it
//! with any other LSNs, as long as the pages past the end are blank (`stands_is_blind_to_lsns`); no record may name those, for
//! a record leaves its LSN there.
#![tactic(auto)]

mod laws;
mod records;

pub use laws::{
    records_are_next, records_leave_what_edits_leave, records_stand, stands_is_blind_to_lsns,
};
pub use records::{are_within, records_of};
