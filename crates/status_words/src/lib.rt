//! What is said of a run that did not end with a report: one sentence, for a person.
//!
//! ```text
//! cdb: line 3: this is no table that may be (reason 7); docs/script.md#tables
//! ```
//!
//! | Part | Code | Definition |
//! |---|---|---|
//! | the line, or the store and the byte | `put_place` | `place_of` |
//! | what it is, in plain words | `words` | none: they are free |
//! | the reason's number, and the page that helps | `put_page` | `page_of` |
#![tactic(auto)]

mod sentence;

pub use sentence::status_words;
