//! A case: a log that grows line by line.

use crate::logs::{append_records, change_all, commit, drop_behind, set_up};
use crate::records::{put_chain, put_edited, put_grant, put_page, put_pages, record_of};
use crate::tables::{edits_of, interval_of, op_of, put_between, put_rows, put_state};
use crate::trees::read;
use crate::words::{number, place, put_number, word, words_of};
use cdb_values::{List, RowOp, Schema};
use log_replay::PagedLog;
use page_store::PageSource;
use phys_log::LogRecord;
use std::alloc::{AllocError, Global};
use std::mem;
use table_read::{TableStop, read_table};
use undo_snapshot::{LogGranter, SnapshotPages};

/// A log, its tables, and what waits for the line that ends it: operations, records, lines of trees.
#[derive(Drop)]
pub(crate) struct Case {
    schema: Schema,
    log: PagedLog,
    ops: Vec<RowOp>,
    records: List<LogRecord>,
    lines: Vec<String>,
    is_begun: bool,
}

impl Case {
    /// An empty log, and nothing that waits.
    pub(crate) fn new(alloc: Global) -> Case {
        Case {
            schema: Schema::new(alloc),
            log: PagedLog::new(alloc),
            ops: Vec::new(alloc),
            records: List::new(alloc),
            lines: Vec::new(alloc),
            is_begun: false,
        }
    }

    /// Adds a line with its answer; nothing where it waits.
    pub(crate) fn tell(
        &mut self,
        alloc: Global,
        line: &str,
        out: &mut String,
    ) -> Result<(), AllocError> {
        if line.is_empty() || line.starts_with('#') {
            out.push_str(line)?;
            return out.push('\n');
        }
        if line == "end" {
            self.is_begun = false;
            self.change(alloc, out)?;
            return out.push_str("end -> done\n");
        }
        if self.is_begun {
            return self.wait(alloc, line);
        }
        if line.starts_with("insert ") || line.starts_with("remove ") {
            self.wait(alloc, line)?;
            return self.change(alloc, out);
        }
        out.push_str(line)?;
        out.push_str(" -> ")?;
        self.answer(alloc, line, out)?;
        out.push('\n')
    }

    /// Keeps a line of a tree.
    fn wait(&mut self, alloc: Global, line: &str) -> Result<(), AllocError> {
        let line = String::from_str(alloc, line)?;
        self.lines.push(line)?;
        Ok(())
    }

    /// Does the lines of trees that wait, as one entry.
    fn change(&mut self, alloc: Global, out: &mut String) -> Result<(), AllocError> {
        let lines = mem::replace(&mut self.lines, Vec::new(alloc));
        change_all(alloc, &mut self.log, lines.as_slice(), out)
    }

    /// Adds the answer to a line.
    fn answer(&mut self, alloc: Global, line: &str, out: &mut String) -> Result<(), AllocError> {
        let words = words_of(alloc, line)?;
        let words = words.as_slice();
        match word(words, 0) {
            "new" => *self = Case::new(alloc),
            "begin" => self.is_begun = true,
            "put" | "take" | "change" => self.ops.push(op_of(alloc, words)?)?,
            "record" => self.records.push(record_of(alloc, words)?)?,
            "table" => return out.push_str(add_table(alloc, line, &mut self.schema)?),
            "setup" => return out.push_str(set_up(alloc, &mut self.log, &self.schema)?),
            "do" => return self.do_all(alloc, out),
            "append" => return out.push_str(self.append_all(alloc)?),
            "drop" => {
                let position = number(word(words, 1));
                return out.push_str(drop_behind(alloc, &mut self.log, position)?);
            }
            _ => return look(alloc, &self.schema, &self.log, words, out),
        }
        out.push_str("done")
    }

    /// Does the operations that wait.
    fn do_all(&mut self, alloc: Global, out: &mut String) -> Result<(), AllocError> {
        let ops = mem::replace(&mut self.ops, Vec::new(alloc));
        match edits_of(alloc, &self.schema, &self.log, ops.as_slice(), out)? {
            Some(edits) => out.push_str(commit(alloc, &mut self.log, edits)?),
            None => Ok(()),
        }
    }

    /// Appends the records that wait.
    fn append_all(&mut self, alloc: Global) -> Result<&'static str, AllocError> {
        let records = mem::replace(&mut self.records, List::new(alloc));
        append_records(alloc, &mut self.log, records)
    }
}

/// Reads a table.
fn add_table(alloc: Global, line: &str, schema: &mut Schema) -> Result<&'static str, AllocError> {
    let text = line.strip_prefix("table ").unwrap_or("");
    if text.len() > 1000 {
        return Ok("?");
    }
    match read_table(alloc, text, schema) {
        Ok(_) => Ok("done"),
        Err(TableStop::NoMemory) => Err(AllocError),
        Err(_) => Ok("refused"),
    }
}

/// Adds what a log has.
fn look(
    alloc: Global,
    schema: &Schema,
    log: &PagedLog,
    words: &[&str],
    out: &mut String,
) -> Result<(), AllocError> {
    match word(words, 0) {
        "state" => put_state(alloc, schema, log, out),
        "between" => {
            let interval = interval_of(alloc, words)?;
            put_between(alloc, schema, log, &interval, out)
        }
        "chain" => put_chain(alloc, log, number(word(words, 1)), out),
        "grant" => put_grant(
            alloc,
            log,
            number(word(words, 1)),
            number(word(words, 2)),
            out,
        ),
        "edited" => put_edited(alloc, log, out),
        "pages" => put_pages(alloc, log, out),
        "entries" => put_number(alloc, out, log.entries().len() as u64),
        _ => read_at(alloc, schema, log, words, out),
    }
}

/// Adds what is read of pages at a position, that behind `at` or the last one: they are granted and undone.
fn read_at(
    alloc: Global,
    schema: &Schema,
    log: &PagedLog,
    words: &[&str],
    out: &mut String,
) -> Result<(), AllocError> {
    let end = log.entries().len() as u64;
    let position = match words {
        [.., "at", position] => number(position),
        _ => end,
    };
    if position > end {
        return out.push('?');
    }
    let granter = LogGranter::new(log, position);
    let mut pages = SnapshotPages::new(alloc, granter, position)?;
    read_pages(alloc, schema, &mut pages, words, out)
}

/// Adds what is read of pages.
fn read_pages<P: PageSource>(
    alloc: Global,
    schema: &Schema,
    pages: &mut P,
    words: &[&str],
    out: &mut String,
) -> Result<(), AllocError> {
    match word(words, 0) {
        "rows" => put_rows(alloc, pages, schema, place(word(words, 1)), out),
        "page" => {
            if pages.load(number(word(words, 1))).is_err() {
                return Err(AllocError);
            }
            put_page(alloc, pages.page(), out)
        }
        _ => read(alloc, pages, words, out),
    }
}
