//! Answers of many cases that follow each other, told once where they are the same.

use std::alloc::{AllocError, Global};

/// Whether a number is one of those that are asked: one that `every` divides.
pub(crate) fn is_asked(number: u64, every: u64) -> bool {
    number % every.max(1) == 0
}

/// Answers by number, rising. Those that are the same are told by one line.
#[derive(Drop)]
pub(crate) struct Answers {
    out: String,
    first: u64,
    last: u64,
    told: String,
}

impl Answers {
    /// No answer.
    pub(crate) fn new(alloc: Global) -> Answers {
        Answers {
            out: String::new(alloc),
            first: 0,
            last: 0,
            told: String::new(alloc),
        }
    }

    /// Adds the answer with a number.
    pub(crate) fn add(&mut self, number: u64, told: String) -> Result<(), AllocError> {
        if told.as_str() != self.told.as_str() {
            self.end_line()?;
            self.first = number;
            self.told = told;
        }
        self.last = number;
        Ok(())
    }

    /// Ends the line of the last answers.
    fn end_line(&mut self) -> Result<(), AllocError> {
        if self.told.is_empty() {
            return Ok(());
        }
        let first = self.first;
        let last = self.last;
        let told = self.told.as_str();
        writeln!(self.out, "  {first}..{last} {told}")
    }

    /// The lines.
    pub(crate) fn lines(self) -> Result<String, AllocError> {
        let mut whole = self;
        whole.end_line()?;
        Ok(whole.out)
    }
}
