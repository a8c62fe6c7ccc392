//! Which entries have a spelling as a frame, so that a store can keep them.
//!
//! A number of 8 bytes is below 2^62, a place and the length of a cell have 2 bytes, a name's length has 1, and a row's
//! has 4. The text of a row is UTF-8. An entry whose parts fit their fields has a spelling, where it has fewer than 2^28
//! changes and fewer than 2^28 records, so that the size of its payload fits too:
//!
//! | Part | Bytes at most |
//! |---|---|
//! | a change | 2^34 |
//! | a record | 2^18 |
//! | the tables of a schema | 2^18 |
//! | all of an entry | 2^63 |
//!
//! Of the commit of transaction 1 of the session `a`, which began in generation 1 at position 1, with one change and one
//! record:
//!
//! ```text
//! insert 7 into table 0: (NULL, 'b')        record 3, before it 1, page 2: put a cell of 9 bytes at 0     has a spelling
//! insert 2^62 into table 0: (NULL, 'b')     record 3, before it 1, page 2: put a cell of 9 bytes at 0     has none: genid
//! insert 7 into table 0: (NULL, 'b')        record 3, before it 1, page 2: put a cell of 2^16 bytes at 0  has none: cell
//! ```
//!
//! The tables of a setup are not looked at: a schema grew to them one after the other, and such tables fit their fields.
//!
//! | Notion | Code | Definition |
//! |---|---|---|
//! | an entry whose parts fit their fields | `has_spelling` | `HasFields` of `specs/Fields.antt` |
//! | tables that a schema grew to | | `Grow` of `frame_code` |
//! | an entry that has a spelling | | `IsSpelled` of `frame_code` |
#![tactic(auto)]

mod changes;
mod laws;
mod numbers;
mod records;
mod spelling;

pub use laws::entries_that_fit_have_a_spelling;
pub use spelling::has_spelling;
