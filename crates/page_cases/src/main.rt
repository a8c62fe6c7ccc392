//! Cases of pages: `page_cases < stdin` reads calls, a line each, over a log and the pages that it makes, and writes each
//! line again with what it was answered: `find 1 m -> 34`. A blank line and one that begins with `#` are only written.
//!
//! A word of bytes is `-` for none, or signs: a letter, a digit, `_`, or `%` with two hex digits; a number in braces behind
//! one tells how often it stands. So `ab{12}%00` is an a, twelve b and a NUL. A value is an integer, `null`, a text behind
//! `'` or a blob behind `:`.
//!
//! | Line | What is done | Answer |
//! |---|---|---|
//! | `new` | an empty log, no table | `done` |
//! | `table TEXT`, then `setup` | tables, and the entry that makes their trees: table by table the rows' and each key's, roots from page 1 on | `done`, `refused` |
//! | `insert ROOT KEY VALUE`, `remove ROOT KEY` | an entry of a tree's change | `done`, `duplicate`, `long`; `done`, `absent` |
//! | `begin` .. `end` | lines of trees between, as one entry; reads among them see the changes | theirs |
//! | `find ROOT KEY`, `scan ROOT LOW HIGH` | reads; a HIGH of `-` is none | the value, `absent`; pairs, `none` |
//! | `put T V..`, `change T GENID V.. to V..`, `take T GENID V..`, then `do` | an entry of row operations | `done`, `duplicate T KEY`, `long` |
//! | `rows T`, `state`, `between T KEY from/above/to/below/is V` | reads of tables; all of a sound store; those of an interval of a key's first column | versions, `none` |
//! | `record LSN PREV PAGE EDIT`, then `append` | an entry of records | `done`, `unfit` |
//! | `drop K` | the entries behind position K are dropped | `done` |
//! | `page N`, `chain N`, `grant N K`, `edited`, `pages`, `entries` | what a log has: a page, its records as position and LSN, those behind a position, pages that are edited, and how many | |
//!
//! Behind `find`, `scan`, `rows` and `page` the words `at K` read at position K: pages are granted and undone.
#![tactic(auto)]

mod cases;
mod logs;
mod records;
mod tables;
mod trees;
mod words;

use crate::cases::Case;
use std::io;
use std::io::{BufRead, BufReader};

fn main(rt: HostRuntime) -> io::Result<()> {
    let mut case = Case::new(rt.alloc());
    let reader = BufReader::new(rt.alloc(), rt.reader())?;
    for line in reader.lines(rt.alloc()) {
        let mut out = String::new(rt.alloc());
        case.tell(rt.alloc(), line?.as_str(), &mut out)?;
        rt.print(out.as_str())?;
    }
    Ok(())
}
