//! Codes, statements, scripts and reports.

use cdb_values::{Text, Value};
use key_code::{decode_key, encode_key};
use report_read::read_report;
use script_read::read_script;
use sql_reader::read;
use std::alloc::{AllocError, Global};

const STATEMENT: &str =
    "select customer.name, count(*), sum(orders.amount) from customer, orders where customer.id = orders.owner and orders.amount > 100 and not orders.state = 'closed' group by customer.name order by customer.name limit 50";

const SCRIPT_HEAD: &[u8] =
    b"nodes 1\nsession a 1\ncreate table t(id integer primary key, v integer)\n";

const SCRIPT_LINE: &[u8] = b"a: select * from t where id = 12345\n";

const REPORT_LINE: &[u8] = b"teller 7 row 12345|'it''s a customer'\n";

/// How many keys came back from their codes.
pub(crate) fn keys(alloc: Global, count: u64) -> Result<u64, AllocError> {
    let mut back = 0u64;
    for i in 0..count {
        let number = i64::try_from(i).unwrap_or(0);
        let text = Value::Text(Text::copied(alloc, b"customer")?);
        let values = [Value::Int(number), text];
        let code = encode_key(alloc, &values)?;
        if decode_key(alloc, code.as_bytes())?.is_some() {
            back = back.saturating_add(1);
        }
    }
    Ok(back)
}

/// The statement. A proof that calls this does not carry it.
fn statement() -> &'static str {
    STATEMENT
}

/// Whether a text is read.
fn is_read(alloc: Global, text: &str) -> bool {
    text.len() <= 1000 && read(alloc, text).is_ok()
}

/// How many statements were read.
pub(crate) fn statements(alloc: Global, count: u64) -> u64 {
    let text = statement();
    let mut found = 0u64;
    for _ in 0..count {
        if is_read(alloc, text) {
            found = found.saturating_add(1);
        }
    }
    found
}

/// A head and so many lines.
fn lines(alloc: Global, head: &[u8], line: &[u8], count: u64) -> Result<Vec<u8>, AllocError> {
    let mut bytes = Vec::from_slice(alloc, head)?;
    for _ in 0..count {
        bytes.extend_from_slice(line)?;
    }
    Ok(bytes)
}

/// How many lines to be run were read; none where the script is refused.
pub(crate) fn script(alloc: Global, count: u64) -> Result<u64, AllocError> {
    let bytes = lines(alloc, SCRIPT_HEAD, SCRIPT_LINE, count)?;
    match read_script(alloc, bytes.as_slice(), 1, 0) {
        Ok(script) => Ok(script.body.len() as u64),
        Err(_) => Ok(0),
    }
}

/// How many lines of sessions were read; none where the text is no report.
pub(crate) fn report(alloc: Global, count: u64) -> Result<u64, AllocError> {
    let mut bytes = lines(alloc, b"", REPORT_LINE, count)?;
    bytes.extend_from_slice(b"end 7\n")?;
    match read_report(alloc, bytes.as_slice())? {
        Some(report) => Ok(report.lines.len() as u64),
        None => Ok(0),
    }
}
