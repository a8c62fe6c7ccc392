//! The lines of a case.

use crate::files::file_told;
use crate::frames::frames_told;
use crate::opened::stand_told;
use crate::runs::{Failing, Run, failing_told, run_told};
use crate::variants::{Asked, cuts_told, turns_told};
use std::alloc::{AllocError, Global};
use std::io;

/// A case: the bytes of its store, those of the frames that its steps take, and which numbers are asked.
#[derive(Drop)]
pub(crate) struct Case {
    store: Vec<u8>,
    given: Vec<u8>,
    is_given: bool,
    every: u64,
}

impl Case {
    /// A case without bytes.
    pub(crate) fn new(alloc: Global) -> Case {
        Case {
            store: Vec::new(alloc),
            given: Vec::new(alloc),
            is_given: false,
            every: 1,
        }
    }

    /// Takes a line, and tells its answer, in whole lines.
    pub(crate) fn take(&mut self, rt: &HostRuntime, line: &str) -> io::Result<String> {
        let line = line.trim();
        if line == "file" {
            return file_told(rt, self.store.as_slice());
        }
        Ok(self.told(rt.alloc(), line)?)
    }

    /// Takes a line that needs no file, and tells its answer.
    fn told(&mut self, alloc: Global, line: &str) -> Result<String, AllocError> {
        let (word, rest) = line.split_once(' ').unwrap_or((line, ""));
        match word {
            "" | "#" => Ok(String::new(alloc)),
            "case" => self.begin(alloc, line),
            "store" => {
                self.is_given = false;
                self.add(alloc, rest)
            }
            "given" => {
                self.is_given = true;
                self.add(alloc, rest)
            }
            "every" => {
                self.every = rest.parse::<u64>().unwrap_or(1);
                Ok(String::new(alloc))
            }
            _ if is_digits(word) => self.add(alloc, line),
            _ => self.asked(alloc, line, word, rest),
        }
    }

    /// Begins a case.
    fn begin(&mut self, alloc: Global, line: &str) -> Result<String, AllocError> {
        self.store.clear();
        self.given.clear();
        self.is_given = false;
        self.every = 1;
        format!(in alloc; "{line}\n")
    }

    /// Adds the bytes of a line to those of the store, or to the given ones.
    fn add(&mut self, alloc: Global, digits: &str) -> Result<String, AllocError> {
        let (digits, _) = digits.split_once('#').unwrap_or((digits, ""));
        for word in digits.split_whitespace() {
            let Ok(bytes) = hex::decode(alloc, word) else {
                return format!(in alloc; "no bytes: {digits}\n");
            };
            if self.is_given {
                self.given.extend_from_slice(bytes.as_slice())?;
            } else {
                self.store.extend_from_slice(bytes.as_slice())?;
            }
        }
        Ok(String::new(alloc))
    }

    /// A question, and its answer.
    fn asked(
        &self,
        alloc: Global,
        line: &str,
        word: &str,
        rest: &str,
    ) -> Result<String, AllocError> {
        let told = self.answer(alloc, word, rest)?;
        format!(in alloc; "{line}\n{told}")
    }

    /// The answer to a question of a case.
    fn answer(&self, alloc: Global, word: &str, rest: &str) -> Result<String, AllocError> {
        let store = self.store.as_slice();
        let (first, steps) = rest.split_once(' ').unwrap_or((rest, ""));
        let number = first.parse::<u64>().unwrap_or(0);
        let bits = number.min(255) as u8;
        match word {
            "frames" => frames_told(alloc, store),
            "fronts" => cuts_told(alloc, store, Asked::Frame, 1),
            "bits" => turns_told(alloc, store, Asked::Frame, bits, 1),
            "stand" => stand_told(alloc, store),
            "cuts" => cuts_told(alloc, store, Asked::Opening, self.every),
            "turns" => turns_told(alloc, store, Asked::Opening, bits, self.every),
            "run" => run_told(alloc, self.run(rest)),
            "fails" => failing_told(alloc, self.run(steps), Failing::AtCall, number, 1),
            "stops" => {
                failing_told(
                    alloc,
                    self.run(steps),
                    Failing::BehindBytes,
                    number,
                    self.every,
                )
            }
            _ => String::from_str(alloc, "no line of a case\n"),
        }
    }

    /// A run of steps over the store of the case.
    fn run<'a>(&'a self, steps: &'a str) -> Run<'a> {
        Run {
            bytes: self.store.as_slice(),
            given: self.given.as_slice(),
            steps,
        }
    }
}

/// Whether a word is of hexadecimal digits.
fn is_digits(word: &str) -> bool {
    word.len() > 1 && word.bytes().all(|byte| byte.is_ascii_hexdigit())
}
