//! The sentence on a status.
ghost use Rattle.std.specs.Prelude.{◌≡◌, ◌++◌, IfOk, OnOk};
ghost use Rattle.std.specs.Fmt.{decimal};
ghost use Rattle.status_words.specs.Sentence.{IsSentence, byte_place, page_of, place_of, reason_end, reason_page};

use cdb_outside::Status;
use cdb_values::Bytes;
use std::alloc::{AllocError, Global};

/// The sentence on a status. It says where it is, what it is and which page helps, and ends with its line.
pub fn status_words(alloc: Global, status: Status) -> Result<Bytes, AllocError>
    ensures { IfOk result (λ text. IsSentence status text) }
{
    let text = told(alloc, status, words(status).as_bytes())?;
    Ok(Bytes::from_vec(text))
}

/// The sentence on a status by these words.
fn told(alloc: Global, status: Status, words: &[u8]) -> Result<Vec<u8>, AllocError>
    ensures { IfOk result (λ text. text.items ≡ place_of status ++ (words.now ++ page_of status)) }
{
    let mut text = Vec::new(alloc);
    put_place(alloc, &mut text, status)?;
    text.extend_from_slice(words)?;
    put_page(alloc, &mut text, status)?;
    Ok(text)
}

/// Where it is: the line of the script, or the node's store and the byte.
fn put_place(alloc: Global, out: &mut Vec<u8>, status: Status) -> Result<(), AllocError>
    ensures { OnOk result (out.new.items ≡ out.old.items ++ place_of status) }
{
    match status {
        Status::Refused { line, .. } => put_numbered(alloc, out, b"cdb: line ", line, b": "),
        Status::StoreRefused { node, at } => put_offset(alloc, out, node, at),
        Status::Unsound { node } => {
            put_numbered(alloc, out, b"cdb: the store of node ", node as u64, b": ")
        }
        _ => put(out, b"cdb: "),
    }
}

/// The store of a node, and the byte in it.
fn put_offset(alloc: Global, out: &mut Vec<u8>, node: u8, at: u64) -> Result<(), AllocError>
    ensures { OnOk result (out.new.items ≡ out.old.items ++ byte_place node at) }
{
    put_numbered(
        alloc,
        out,
        b"cdb: the store of node ",
        node as u64,
        b", byte ",
    )?;
    put_numbered(alloc, out, b"", at, b": ")
}

/// The number of the reason, where there is one, and the page that helps.
fn put_page(alloc: Global, out: &mut Vec<u8>, status: Status) -> Result<(), AllocError>
    ensures { OnOk result (out.new.items ≡ out.old.items ++ page_of status) }
{
    match status {
        Status::Done => put(out, b"; docs/report.md\n"),
        Status::Refused { why, .. } => put_reason(alloc, out, why),
        Status::StoreRefused { .. } => put(out, b"; docs/keeping_a_store.md#after-status-6\n"),
        Status::NoMemory => put(out, b"; docs/keeping_a_store.md#after-status-7\n"),
        Status::Unsound { .. } => put(out, b"; docs/keeping_a_store.md#after-status-9\n"),
        Status::Usage | Status::ReadFault | Status::WriteFault => {
            put(out, b"; docs/script.md#the-command\n")
        }
    }
}

/// The number of a reason, and the page that helps with it.
fn put_reason(alloc: Global, out: &mut Vec<u8>, why: u8) -> Result<(), AllocError>
    ensures { OnOk result (out.new.items ≡ out.old.items ++ reason_end why) }
{
    put_numbered(alloc, out, b" (reason ", why as u64, b"); ")?;
    put_reason_page(out, why)?;
    put(out, b"\n")
}

/// The page that helps with a reason.
fn put_reason_page(out: &mut Vec<u8>, why: u8) -> Result<(), AllocError>
    ensures { OnOk result (out.new.items ≡ out.old.items ++ reason_page why) }
{
    match why {
        7 => put(out, b"docs/script.md#tables"),
        10 => put(out, b"docs/script.md#what-runs-today"),
        _ => put(out, b"docs/script.md#refusals"),
    }
}

/// A number between two texts.
fn put_numbered(
    alloc: Global,
    out: &mut Vec<u8>,
    before: &[u8],
    number: u64,
    behind: &[u8],
) -> Result<(), AllocError>
    ensures { OnOk result (out.new.items ≡ out.old.items ++ (before.now ++ (decimal number ++ behind.now))) }
{
    put(out, before)?;
    put(out, number.to_string(alloc)?.as_bytes())?;
    put(out, behind)
}

/// Adds bytes.
fn put(out: &mut Vec<u8>, bytes: &[u8]) -> Result<(), AllocError>
    ensures { OnOk result (out.new.items ≡ out.old.items ++ bytes.now) }
{
    out.extend_from_slice(bytes)
}

/// What a status is, in plain words.
fn words(status: Status) -> &'static str {
    match status {
        Status::Done => "the report was written",
        Status::Usage =>
            "these words are no command, as `cdb play [--stores DIR] < SCRIPT` is; `run` and `fill` do not run yet",
        Status::Refused { why, .. } => reason_words(why),
        Status::ReadFault =>
            "the script could not be read; it comes on standard input, as in `cdb play < SCRIPT`",
        Status::WriteFault =>
            "the report could not be written, and what it was to tell may be in the store",
        Status::StoreRefused { at: 0, .. } =>
            "this is no store of this node and this cluster; nothing was run",
        Status::StoreRefused { .. } => "what stands from here on is no log; nothing was run",
        Status::NoMemory =>
            "there was not enough memory, and a part of the script may have been run",
        Status::Unsound { .. } => "its log is none that a run left behind; nothing was run",
    }
}

/// What a reason against a line is, in plain words.
fn reason_words(why: u8) -> &'static str {
    match why {
        1 => "this is not UTF-8",
        2 => "this has more than 65,535 bytes",
        3 =>
            "a script begins with `nodes 1`; then come sessions, tables, and lines as `a: begin`; a comment begins \
            with `#`; this is none of them where it stands",
        4 => "a script begins with a line `nodes 1`",
        5 =>
            "a session is declared once, by a line as `session a 1`, in small letters, digits and `_`",
        6 => "there is no node with this number, and a session's is 1, as in `session a 1`",
        7 => "this is no table that may be",
        8 =>
            "this passes a limit: 64 sessions, 64 tables, 64 columns and 8 keys of a table, 8 columns of a key, \
            67,108,864 bytes of a script, 1 to 64 workers, and no `watch` yet",
        9 => "the store has other tables; a script without `create` lines takes those of the store",
        10 =>
            "this does not run yet: leave it out, and write `nodes 1`, and a session without `hasql`",
        _ => "this cannot be accepted",
    }
}
