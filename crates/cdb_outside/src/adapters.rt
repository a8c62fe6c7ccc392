//! A reader of std as a source, and a writer of std as a sink.
ghost use Rattle.std.specs.Prelude.{◌≡◌, ◌<◌, None, length, IfOk, OnOk, OnErr};
ghost use Rattle.std.specs.Io.{ReadsAtMost, WritesAtMost};
ghost use Rattle.std.specs.Io.KnownBytes.{ReadConsumes, WriteAppends};
ghost use Rattle.cdb_outside.specs.Faults.{HasCause, count_after};
ghost use Rattle.cdb_outside.specs.Objects.{Counted};

use crate::{Failed, Sink, Source};
use std::io::{Read, Write};
use std::marker::Model;

/// A source over a reader. It tells nothing of content, since no one knows what a file or a terminal
/// will give, and counts the reads that failed.
#[derive(Drop)]
pub struct ReadSource<I> {
    reader: I,
    faults: u64,
}

impl<I> Model for ReadSource<I> {
    ghost Value = { Counted I };

    ghost view = { λ s. record { inner = s.reader; failures = s.faults } };
}

impl<I> ReadSource<I> {
    /// A source over this reader, with no fault yet.
    pub fn new(reader: I) -> ReadSource<I>
        ensures { result ≡ record { inner = reader; failures = 0 } }
    {
        ReadSource { reader, faults: 0 }
    }
}

impl<I: Read> Source for ReadSource<I> {
    ghost left = { λ _. None };

    ghost faults = { λ s. s.failures };

    /// One read of the reader. `Failed` where that failed.
    fn read(&mut self, buf: &mut [u8]) -> Result<usize, Failed>
        requires { 0 < length buf.old }
        ensures bound { ReadsAtMost result buf.new }
        ensures passes { ReadConsumes (I.remaining self.old.inner) (I.remaining self.new.inner) result buf.new }
        ensures success { OnOk result (self.new.failures ≡ self.old.failures) }
        ensures failure { OnErr result (self.new.failures ≡ count_after self.old.failures) }
        ensures cause { HasCause self.old.failures self.new.failures result }
    {
        match self.reader.read(buf) {
            Ok(count) => Ok(count),
            Err(_) => {
                self.faults = self.faults.saturating_add(1);
                Err(Failed)
            }
        }
    }
}

/// A sink over a writer. It tells nothing of content, and counts the writes that failed or took no
/// byte.
#[derive(Drop)]
pub struct WriteSink<O> {
    writer: O,
    faults: u64,
}

impl<O> Model for WriteSink<O> {
    ghost Value = { Counted O };

    ghost view = { λ s. record { inner = s.writer; failures = s.faults } };
}

impl<O> WriteSink<O> {
    /// A sink over this writer, with no fault yet.
    pub fn new(writer: O) -> WriteSink<O>
        ensures { result ≡ record { inner = writer; failures = 0 } }
    {
        WriteSink { writer, faults: 0 }
    }
}

impl<O: Write> Sink for WriteSink<O> {
    ghost taken = { λ _. None };

    ghost faults = { λ s. s.failures };

    /// One write to the writer. `Failed` where that failed, or took none of some bytes.
    fn write(&mut self, bytes: &[u8]) -> Result<usize, Failed>
        ensures bound { WritesAtMost result bytes.now }
        ensures some { 0 < length bytes.now → IfOk result (λ n. 0 < n) }
        ensures passes { WriteAppends (O.contents self.old.inner) (O.contents self.new.inner) result bytes.now }
        ensures success { OnOk result (self.new.failures ≡ self.old.failures) }
        ensures failure { OnErr result (self.new.failures ≡ count_after self.old.failures) }
        ensures cause { HasCause self.old.failures self.new.failures result }
    {
        match self.writer.write(bytes) {
            Ok(count) if count > 0 || bytes.is_empty() => Ok(count),
            _ => {
                self.faults = self.faults.saturating_add(1);
                Err(Failed)
            }
        }
    }
}
