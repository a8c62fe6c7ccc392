//! The text that is printed.

use std::alloc::{AllocError, Global};
use std::io::Write;

/// A text that grows. Where memory runs out, what would be added is lost, and `finished` says so.
#[derive(Drop)]
pub(crate) struct Output {
    bytes: Vec<u8>,
    is_whole: bool,
}

impl Output {
    pub(crate) fn new(alloc: Global) -> Output {
        Output {
            bytes: Vec::new(alloc),
            is_whole: true,
        }
    }

    /// The text, where nothing of it is lost.
    pub(crate) fn finished(self) -> Result<Vec<u8>, AllocError> {
        let Output { bytes, is_whole } = self;
        if is_whole { Ok(bytes) } else { Err(AllocError) }
    }

    /// What would have been added is lost.
    pub(crate) fn fail(&mut self) {
        self.is_whole = false;
    }

    pub(crate) fn put(&mut self, text: &str) {
        self.put_bytes(text.as_bytes());
    }

    pub(crate) fn put_bytes(&mut self, bytes: &[u8]) {
        self.is_whole &= self.bytes.extend_from_slice(bytes).is_ok();
    }

    pub(crate) fn put_count(&mut self, count: u64) {
        self.is_whole &= write!(self.bytes, "{count}").is_ok();
    }

    pub(crate) fn put_integer(&mut self, number: i64) {
        self.is_whole &= write!(self.bytes, "{number}").is_ok();
    }

    pub(crate) fn put_hex(&mut self, byte: u8) {
        self.is_whole &= write!(self.bytes, "{byte:02x}").is_ok();
    }

    /// How many bytes there are.
    pub(crate) fn len(&self) -> usize {
        self.bytes.len()
    }

    /// Takes away what stands from `start` on. Where it is not one text twice, of which the second begins at `second`,
    /// it stays with `sign` behind it.
    pub(crate) fn settle(&mut self, start: usize, second: usize, sign: &str) {
        if self.bytes.get(start..second) == self.bytes.get(second..) {
            self.bytes.truncate(start);
        } else {
            self.put(sign);
        }
    }
}
