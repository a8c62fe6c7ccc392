//! Lines of sessions on a node that is as plain as can be: standard input has scripts, and what each is told is printed.
//!
//! ```text
//! case an insert and a select
//! |nodes 1
//! |session a 1
//! |create table t(id integer primary key)
//! |a: select * from t
//! ```
//!
//! is answered by the name of the case and the report.
#![tactic(auto)]

mod broken;
mod plain;
mod playing;
mod rows;
mod touched;

use playing::{begun_report, play};
use report_text::{Report, print};
use script_form::Script;
use script_read::read_script;
use std::alloc::{AllocError, Global};
use std::io::{self, Write};

fn main(rt: HostRuntime) -> io::Result<()> {
    let alloc = rt.alloc();
    let text = io::read_to_string(alloc, rt.stdin())?;
    let told = answers(alloc, text.as_str())?;
    io::writer(&rt).write_all(told.as_slice())
}

/// The lines of a text, each script among them answered by what it is told.
fn answers(alloc: Global, text: &str) -> Result<Vec<u8>, AllocError> {
    let mut out = Vec::new(alloc);
    let mut script = Vec::new(alloc);
    for line in text.lines() {
        if let Some(said) = line.strip_prefix('|') {
            put_line(&mut script, said)?;
        } else if line.is_empty() {
            put_told(alloc, script.as_slice(), &mut out)?;
            script.clear();
        } else {
            put_line(&mut out, line)?;
        }
    }
    put_told(alloc, script.as_slice(), &mut out)?;
    Ok(out)
}

/// Adds a line.
fn put_line(out: &mut Vec<u8>, line: &str) -> Result<(), AllocError> {
    out.extend_from_slice(line.as_bytes())?;
    out.push(b'\n')?;
    Ok(())
}

/// Adds what a script is told, if there is one.
fn put_told(alloc: Global, script: &[u8], out: &mut Vec<u8>) -> Result<(), AllocError> {
    if script.is_empty() {
        return Ok(());
    }
    match read_script(alloc, script, 1, 0) {
        Ok(script) => {
            let told = put_played(alloc, &script, out);
            drop(script);
            told
        }
        Err(_) => put_line(out, "refused"),
    }
}

/// Adds the report of a script that is played.
fn put_played(alloc: Global, script: &Script, out: &mut Vec<u8>) -> Result<(), AllocError> {
    let mut report = begun_report(alloc)?;
    let told = match play(alloc, script, &mut report) {
        Ok(()) => put_report(alloc, &report, out),
        Err(stop) => Err(stop),
    };
    drop(report);
    told
}

/// Adds a report.
fn put_report(alloc: Global, report: &Report, out: &mut Vec<u8>) -> Result<(), AllocError> {
    let text = print(alloc, report)?;
    out.extend_from_slice(text.as_bytes())
}
