//! The report of a run: its lines as data, its one spelling and its printer.
//!
//! A report is what a run tells: the lines of its sessions and nodes in the order in which they came
//! about, then the base, the committed history after it, the feeds, and the length of the history.
//! Each line ends with LF, its words stand apart by one space, and a number is decimal without
//! leading zeros. So a report has one spelling.
//!
//! | Line | What it tells |
//! |---|---|
//! | `SESSION TXN REPLY` | what a session was answered in its transaction of that number, 0 outside one |
//! | `down COUNT NODE fault`, `down COUNT NODE stop` | a node went down |
//! | `up NODE` | a node came up |
//! | `barrier` | all earlier lines of the script were done |
//! | `fed POSITION` | the feeds were offered the changes up to a position |
//! | `base POSITION` | the length of the history before the run; no line where it is 0 |
//! | `entry POSITION schema` | the schema stands at that position |
//! | `entry POSITION SESSION TXN BEGIN LEVEL` | that transaction stands there; it began at `BEGIN` |
//! | `feed PLACE TABLE TAKEN DROPPED` | what a feed place took, and how many consumers it lost |
//! | `end POSITION` | the length of the history |
//!
//! | Reply | What it tells |
//! |---|---|
//! | `begin POSITION` | the transaction sees the rows at that position |
//! | `row VALUE\|VALUE` | a row of a select |
//! | `done ROWS`, `changed ROWS` | how many rows a select gave, and how many a write changed |
//! | `error CAUSE`, `error syntax AT` | a statement was refused |
//! | `level LEVEL` | `snapshot` or `serializable` from the next transaction on |
//! | `rolledback` | the transaction was given up |
//! | `committed POSITION` | it stands there in the history; it began there if it changed nothing |
//! | `conflict POSITION genid TABLE GENID`, `conflict POSITION range TABLE KEY` | a later commit changed what it used or read |
//! | `duplicate POSITION TABLE KEY` | its writes break that key at that position |
//! | `lost NODE DOWN`, `nomajority UP NODES`, `nomemory` | its node went down, too few are up, want of memory |
//!
//! A value is `null`, an integer, a text between quotes where each quote of it stands twice, or a
//! blob as `x'` and lower-case hexadecimal digits. The row of NULL, -5, the text `it's` and the
//! bytes 0 and 175 has the reply `row null|-5|'it''s'|x'00af'`.
//!
//! An insert and a select of the session `a` give
//!
//! ```text
//! a 1 begin 1
//! a 1 changed 1
//! a 1 committed 2
//! a 2 begin 2
//! a 2 row 1|10
//! a 2 done 1
//! a 2 committed 2
//! entry 1 schema
//! entry 2 a 1 1 snapshot
//! end 2
//! ```
//!
//! whose last line is the bytes `65 6e 64 20 32 0a`.
//!
//! The text of a report is `report_text` of `specs/Text.antt`, and the reports that the grammar has are
//! `IsReport` of `specs/Grammar.antt`. The crate `report_read` reads the text again; what makes a report
//! lawful is said in the crate `report_laws`.
#![tactic(auto)]

mod printing;
mod reports;

pub use printing::print;
pub use reports::{EntryLine, FeedLine, Line, Report};
