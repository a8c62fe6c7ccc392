//! What is told of a text that is read as a script.

use cdb_values::Name;
use script_form::{Act, BodyLine, Script};
use script_read::{ScriptStop, read_script};
use std::alloc::{AllocError, Global};

/// Adds a name behind a blank.
fn put_name(out: &mut Vec<u8>, name: &Name) -> Result<(), AllocError> {
    out.push(b' ')?;
    out.extend_from_slice(name.as_bytes())
}

/// Adds a line of the body.
fn put_body_line(alloc: Global, out: &mut Vec<u8>, line: &BodyLine) -> Result<(), AllocError> {
    let number = line.line;
    out.extend_from_slice(format!(in alloc; "line {number}:")?.as_bytes())?;
    match &line.act {
        Act::Say { session, text } => {
            put_name(out, session)?;
            out.extend_from_slice(b" says ")?;
            out.extend_from_slice(text.as_bytes())?;
        }
        _ => out.extend_from_slice(b" another")?,
    }
    out.extend_from_slice(b"\n")
}

/// Adds what a script holds.
fn put_script(alloc: Global, out: &mut Vec<u8>, script: &Script) -> Result<(), AllocError> {
    let nodes = script.nodes;
    out.extend_from_slice(format!(in alloc; "script of {nodes} nodes, cluster")?.as_bytes())?;
    put_name(out, &script.cluster)?;
    out.extend_from_slice(b", sessions")?;
    for session in script.sessions.as_slice() {
        put_name(out, &session.name)?;
    }
    out.extend_from_slice(b", tables")?;
    for table in script.tables.as_slice() {
        put_name(out, &table.table.name)?;
    }
    out.push(b'\n')?;
    for line in script.body.as_slice() {
        put_body_line(alloc, out, line)?;
    }
    Ok(())
}

/// Adds what is told of bytes that are read as a script: what it holds, or in short that it is one; or why it is refused.
pub(crate) fn put_read(
    alloc: Global,
    out: &mut Vec<u8>,
    bytes: &[u8],
    counts: (u64, u64),
    in_short: bool,
) -> Result<(), AllocError> {
    match read_script(alloc, bytes, counts.0, counts.1) {
        Ok(_) if in_short => out.extend_from_slice(b"script\n"),
        Ok(script) => put_script(alloc, out, &script),
        Err(ScriptStop::Refused { line, why }) => {
            out.extend_from_slice(format!(in alloc; "refused {line} {why}\n")?.as_bytes())
        }
        Err(ScriptStop::NoMemory) => Err(AllocError),
    }
}
