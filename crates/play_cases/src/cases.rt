//! A case: a script, and what it is run over, as lines tell it.

use std::alloc::{AllocError, Global};

/// Where the store of a case fails.
#[derive(Clone, Copy)]
pub(crate) enum Fault {
    Never,
    /// At the call of this number.
    AtCall,
    /// After so many appended bytes.
    AfterBytes,
}

/// What is told of a store behind its run.
#[derive(Clone, Copy)]
pub(crate) enum Tells {
    Nothing,
    Length,
    Bytes,
}

/// A case.
#[derive(Drop)]
pub(crate) struct Case {
    pub(crate) name: String,
    pub(crate) words: Vec<String>,
    pub(crate) script: Vec<u8>,
    /// The number of the read that fails.
    pub(crate) source_fails: Option<u64>,
    /// How many bytes the sink takes.
    pub(crate) sink_takes: usize,
    /// Whether the store is the one that the case before left; these bytes are behind it.
    pub(crate) is_over: bool,
    pub(crate) store: Vec<u8>,
    /// How many of the store's last bytes are dropped.
    pub(crate) dropped: usize,
    /// A byte of the store that is another one, by its offset.
    pub(crate) change: Option<(usize, u8)>,
    pub(crate) fault: Fault,
    /// The case is run for each `step`-th of these numbers of its fault.
    pub(crate) first: u64,
    pub(crate) last: u64,
    pub(crate) step: u64,
    /// How many pending bytes a halt keeps.
    pub(crate) keeps: u64,
    /// Whether the script is run again over what is left of the store.
    pub(crate) is_again: bool,
    pub(crate) tells: Tells,
    /// The first line that is none of a case.
    pub(crate) strange: Option<String>,
}

/// The number that a text is; 0 where it is none.
fn number(text: &str) -> u64 {
    text.parse::<u64>().unwrap_or(0)
}

/// Such a number, where it fits.
fn count(text: &str) -> usize {
    usize::try_from(number(text)).unwrap_or(0)
}

/// Adds the bytes that are told by two digits each, with blanks between them.
fn put_bytes(out: &mut Vec<u8>, text: &str) -> Result<(), AllocError> {
    for word in text.split(' ') {
        if let Ok(byte) = u8::from_str_radix(word, 16) {
            out.push(byte)?;
        }
    }
    Ok(())
}

/// Adds a text so many times.
fn put_times(out: &mut Vec<u8>, times: u64, text: &str) -> Result<(), AllocError> {
    for _ in 0..times {
        out.extend_from_slice(text.as_bytes())?;
    }
    Ok(())
}

/// The words of a text.
fn words_of(alloc: Global, text: &str) -> Result<Vec<String>, AllocError> {
    let mut words = Vec::new(alloc);
    for word in text.split(' ') {
        if !word.is_empty() {
            words.push(String::from_str(alloc, word)?)?;
        }
    }
    Ok(words)
}

impl Case {
    /// A case of this name, over an empty script and an empty store, where nothing fails.
    pub(crate) fn new(alloc: Global, name: &str) -> Result<Case, AllocError> {
        Ok(Case {
            name: String::from_str(alloc, name)?,
            words: words_of(alloc, "play")?,
            script: Vec::new(alloc),
            source_fails: None,
            sink_takes: usize::MAX,
            is_over: false,
            store: Vec::new(alloc),
            dropped: 0,
            change: None,
            fault: Fault::Never,
            first: 0,
            last: 0,
            step: 1,
            keeps: 0,
            is_again: false,
            tells: Tells::Nothing,
            strange: None,
        })
    }

    /// A line more of the case.
    pub(crate) fn take(&mut self, alloc: Global, line: &str) -> Result<(), AllocError> {
        if let Some(text) = line.strip_prefix("|") {
            self.script.extend_from_slice(text.as_bytes())?;
            self.script.push(b'\n')?;
        } else if let Some(text) = line.strip_prefix("+") {
            self.script.extend_from_slice(text.as_bytes())?;
        } else if let Some(setting) = line.strip_prefix("- ") {
            if !self.sets(alloc, setting)? {
                self.strange = Some(String::from_str(alloc, line)?);
            }
        } else if !line.is_empty() && !line.starts_with("#") {
            self.strange = Some(String::from_str(alloc, line)?);
        }
        Ok(())
    }

    /// Takes what a line tells of the words, more of the script, the source and the sink, or the store; whether it tells any.
    fn sets(&mut self, alloc: Global, line: &str) -> Result<bool, AllocError> {
        if let Some(words) = line.strip_prefix("words") {
            self.words = words_of(alloc, words)?;
        } else if let Some(bytes) = line.strip_prefix("bytes ") {
            put_bytes(&mut self.script, bytes)?;
        } else if let Some(text) = line.strip_prefix("times ") {
            let (times, text) = text.split_once(' ').unwrap_or(("0", ""));
            put_times(&mut self.script, number(times), text)?;
        } else if let Some(call) = line.strip_prefix("source fails at ") {
            self.source_fails = Some(number(call));
        } else if let Some(most) = line.strip_prefix("sink takes ") {
            self.sink_takes = count(most);
        } else if let Some(bytes) = line.strip_prefix("store holds ") {
            put_bytes(&mut self.store, bytes)?;
        } else {
            return Ok(self.sets_store(line) || self.sets_fault(line));
        }
        Ok(true)
    }

    /// Sets what a line tells of the store before and behind the run.
    fn sets_store(&mut self, line: &str) -> bool {
        if let Some(bytes) = line.strip_prefix("store lacks ") {
            self.dropped = count(bytes);
        } else if let Some(change) = line.strip_prefix("store has ") {
            let (byte, at) = change.split_once(" at ").unwrap_or(("", ""));
            self.change = Some((count(at), u8::from_str_radix(byte, 16).unwrap_or(0)));
        } else {
            match line {
                "store of the case before" => self.is_over = true,
                "tell length" => self.tells = Tells::Length,
                "tell bytes" => self.tells = Tells::Bytes,
                "tell again" => self.is_again = true,
                _ => return false,
            }
        }
        true
    }

    /// Sets what a line tells of the store's fault.
    fn sets_fault(&mut self, line: &str) -> bool {
        if let Some(numbers) = line.strip_prefix("store fails at ") {
            self.fault = Fault::AtCall;
            self.sets_numbers(numbers);
        } else if let Some(numbers) = line.strip_prefix("store stops after ") {
            self.fault = Fault::AfterBytes;
            self.sets_numbers(numbers);
        } else if let Some(bytes) = line.strip_prefix("halt keeps ") {
            self.keeps = number(bytes);
        } else {
            return false;
        }
        true
    }

    /// Sets the numbers of the fault: one, or two with `to` between them and perhaps a step behind `by`.
    fn sets_numbers(&mut self, numbers: &str) {
        let (numbers, step) = numbers.split_once(" by ").unwrap_or((numbers, "1"));
        let (first, last) = numbers.split_once(" to ").unwrap_or((numbers, numbers));
        self.first = number(first);
        self.last = number(last);
        self.step = number(step).max(1);
    }
}
