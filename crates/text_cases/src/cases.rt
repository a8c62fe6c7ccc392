//! A case: a text and what it is read as, as lines tell it.

use std::alloc::{AllocError, Global};

/// What a text is read as.
#[derive(Clone, Copy)]
pub(crate) enum Kind {
    /// A script for so many stores and consumers.
    Script { stores: u64, consumers: u64 },
    Report,
    /// Definitions of tables of one schema, a line each.
    Tables,
}

/// A case.
#[derive(Drop)]
pub(crate) struct Case {
    pub(crate) name: String,
    pub(crate) kind: Kind,
    pub(crate) text: Vec<u8>,
    /// Whether the text is cut after each byte.
    pub(crate) is_cut: bool,
    /// The bytes to which each byte is changed.
    pub(crate) changes: Vec<u8>,
    /// The first line that is none of a case.
    pub(crate) strange: Option<String>,
}

/// The number that a text is; 0 where it is none.
fn number(text: &str) -> u64 {
    text.parse::<u64>().unwrap_or(0)
}

/// Adds the bytes that are told by two digits each, with blanks between them.
fn put_bytes(out: &mut Vec<u8>, text: &str) -> Result<(), AllocError> {
    for word in text.split(' ') {
        if let Ok(byte) = u8::from_str_radix(word, 16) {
            out.push(byte)?;
        }
    }
    Ok(())
}

/// Adds a text so many times.
fn put_times(out: &mut Vec<u8>, times: u64, text: &str) -> Result<(), AllocError> {
    for _ in 0..times {
        out.extend_from_slice(text.as_bytes())?;
    }
    Ok(())
}

impl Case {
    /// A case of this name, of an empty script.
    pub(crate) fn new(alloc: Global, name: &str) -> Result<Case, AllocError> {
        Ok(Case {
            name: String::from_str(alloc, name)?,
            kind: Kind::Script {
                stores: 7,
                consumers: 16,
            },
            text: Vec::new(alloc),
            is_cut: false,
            changes: Vec::new(alloc),
            strange: None,
        })
    }

    /// A line more of the case.
    pub(crate) fn take(&mut self, alloc: Global, line: &str) -> Result<(), AllocError> {
        if let Some(text) = line.strip_prefix("|") {
            self.text.extend_from_slice(text.as_bytes())?;
            self.text.push(b'\n')?;
        } else if let Some(text) = line.strip_prefix("+") {
            self.text.extend_from_slice(text.as_bytes())?;
        } else if let Some(setting) = line.strip_prefix("- ") {
            if !self.sets(setting)? {
                self.strange = Some(String::from_str(alloc, line)?);
            }
        } else if !line.is_empty() && !line.starts_with("#") {
            self.strange = Some(String::from_str(alloc, line)?);
        }
        Ok(())
    }

    /// Takes what a line tells of the text and of how it is read; whether it tells any.
    fn sets(&mut self, line: &str) -> Result<bool, AllocError> {
        if let Some(bytes) = line.strip_prefix("bytes ") {
            put_bytes(&mut self.text, bytes)?;
        } else if let Some(text) = line.strip_prefix("times ") {
            let (times, text) = text.split_once(' ').unwrap_or(("0", ""));
            put_times(&mut self.text, number(times), text)?;
        } else if let Some(bytes) = line.strip_prefix("change to ") {
            put_bytes(&mut self.changes, bytes)?;
        } else if let Some(counts) = line.strip_prefix("script for ") {
            let (stores, consumers) = counts.split_once(' ').unwrap_or(("0", "0"));
            self.kind = Kind::Script {
                stores: number(stores),
                consumers: number(consumers),
            };
        } else {
            match line {
                "report" => self.kind = Kind::Report,
                "tables" => self.kind = Kind::Tables,
                "cut" => self.is_cut = true,
                _ => return Ok(false),
            }
        }
        Ok(true)
    }
}
