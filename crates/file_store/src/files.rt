//! A store of a log in a file.
ghost use Rattle.std.specs.Prelude.{◌≡◌, ◌≢◌, ◌-◌, ◌<◌, ◌≤◌, ◌↔◌, IsTrue, None, [], ◌++◌, min, length, take, drop, IsErr, IfOk, OnOk, OnErr};
ghost use Rattle.std.specs.Io.{ReadsAtMost};
ghost use Rattle.cdb_outside.specs.Faults.{HasCause, Rose, count_after};
ghost use Rattle.cdb_outside.specs.Parts.{IsFront, IsFrontFrom};
ghost use Rattle.cdb_outside.specs.Stores.{GivesFrom, JoinsFront};
ghost use Rattle.file_store.specs.Files.{HeldFile, last_cut};

use cdb_outside::{Failed, KeptBytes, LogStore};
use std::fs::{OpenFile, OpenOptions};
use std::io::{ErrorKind, Seek, SeekFrom, Write};
use std::marker::Model;
use std::rt::Files;
use std::{fs, io};

/// How the bytes of a file stand to the synced bytes of its store, as far as the store knows.
#[derive(Clone, Copy, PartialEq, Eq, Debug)]
pub enum FileState {
    /// They are the same.
    Equal,
    /// A call failed that was to change the file, and the next one makes it equal first.
    Behind,
    /// The file could not be read when the store was made, and each call fails.
    Unread,
}

/// Bytes that were cut off the file of a store: the offset of the first, and how many.
#[derive(Clone, Copy, PartialEq, Eq, Debug)]
pub struct CutOff {
    /// Where the first of them stood.
    pub at: u64,
    /// How many there were.
    pub count: u64,
}

/// A store that keeps its bytes in a file, and in memory those that it read when it was made and those that it synced
/// since. These are its synced bytes. A halt keeps no pending byte.
#[derive(Drop)]
pub struct FileStore<'a, R: Files> {
    files: &'a R,
    path: String,
    file: Option<R::File>,
    kept: KeptBytes,
    state: FileState,
    cut_off: Option<CutOff>,
    writes: u64,
    faults: u64,
}

impl<'a, R: Files> Model for FileStore<'a, R> {
    ghost Value = { HeldFile };

    ghost view = { λ s. record {
      durable = s.kept.durable;
      waiting = s.kept.waiting;
      state = s.state;
      cut_off = s.cut_off;
      writes = s.writes;
      failures = s.faults;
    } };
}

impl<'a, R: Files + AllocGlobal> FileStore<'a, R> {
    /// A store over the file with this path. A file that is not there counts as an empty one, and the first sync makes
    /// it. Where the file cannot be read for another reason, the store has no bytes and each of its calls fails.
    pub fn new(files: &'a R, path: String) -> FileStore<'a, R>
        ensures settled { result.waiting ≡ [] }
        ensures begun { result.state ≢ FileState.Behind }
        ensures unread { result.state ≡ FileState.Unread → result.durable ≡ [] }
        ensures whole { result.cut_off ≡ None }
        ensures count { result.failures ≡ 0 }
    {
        let (bytes, state) = match fs::read(files, path.as_str()) {
            Ok(bytes) => (bytes, FileState::Equal),
            Err(error) if error.kind() == ErrorKind::NotFound => {
                (Vec::new(files.alloc()), FileState::Equal)
            }
            Err(_) => (Vec::new(files.alloc()), FileState::Unread),
        };
        FileStore {
            files,
            path,
            file: None,
            kept: KeptBytes::new(bytes),
            state,
            cut_off: None,
            writes: 0,
            faults: 0,
        }
    }
}

impl<'a, R: Files + AllocGlobal> FileStore<'a, R> {
    /// The synced bytes.
    pub fn synced(&self) -> &[u8]
        ensures { result.now ≡ self.now.durable }
    {
        self.kept.synced()
    }

    /// Whether the file could not be read when the store was made.
    pub fn is_unread(&self) -> bool
        ensures { IsTrue result ↔ (self.now.state ≡ FileState.Unread) }
    {
        match self.state {
            FileState::Unread => true,
            _ => false,
        }
    }

    /// The bytes that the last cut took off, of those that took some. They stand in the file beside the store.
    pub fn cut_off(&self) -> Option<CutOff>
        ensures { result ≡ self.now.cut_off }
    {
        self.cut_off
    }

    /// How many calls failed.
    pub fn failures(&self) -> u64
        ensures { result ≡ self.now.failures }
    {
        self.faults
    }

    /// The file, open to be written; it is made where it is not there.
    fn opened(&mut self) -> io::Result<R::File>
        ensures { self.new ≡ self.old }
    {
        match self.file.take() {
            Some(file) => Ok(file),
            None => OpenOptions::new()
                .write(true)
                .create(true)
                .open(self.files, self.path.as_str()),
        }
    }

    /// Writes the pending bytes behind the synced ones, and syncs the file. A file that failed is closed.
    fn write_pending(&mut self) -> io::Result<()>
        ensures { self.new ≡ self.old }
    {
        let mut file = self.opened()?;
        let at = self.kept.synced().len() as u64;
        write_at(&mut file, at, self.kept.pending())?;
        self.file = Some(file);
        Ok(())
    }

    /// Adds bytes that stand in the file from an offset on to the end of the file beside it, and syncs that.
    fn set_aside(&self, at: u64, bytes: &[u8]) -> io::Result<()> {
        if bytes.is_empty() {
            return Ok(());
        }
        let mut path = self.path.clone()?;
        path.push_str(".cut")?;
        let mut beside = OpenOptions::new()
            .append(true)
            .create(true)
            .open(self.files, path.as_str())?;
        beside.write_all(&at.to_be_bytes())?;
        beside.write_all(&(bytes.len() as u64).to_be_bytes())?;
        beside.write_all(bytes)?;
        beside.sync_all()
    }

    /// Leaves the file so many bytes, once the others are set aside, and syncs it. A file that failed is closed.
    fn shorten(&mut self, size: u64) -> io::Result<()>
        requires within { size ≤ length self.old.durable }
        ensures { self.new ≡ self.old }
    {
        self.set_aside(size, &self.kept.synced()[size as usize..])?;
        let file = self.opened()?;
        file.set_len(size)?;
        file.sync_all()?;
        self.file = Some(file);
        Ok(())
    }

    /// Sets aside what the file has behind the synced bytes, or all of it where it does not begin with them.
    fn set_others_aside(&self) -> io::Result<()> {
        let found = match fs::read(self.files, self.path.as_str()) {
            Ok(found) => found,
            Err(error) if error.kind() == ErrorKind::NotFound => return Ok(()),
            Err(error) => return Err(error),
        };
        let bytes = self.kept.synced();
        match found.as_slice().strip_prefix(bytes) {
            Some(rest) => self.set_aside(bytes.len() as u64, rest),
            None => self.set_aside(0, found.as_slice()),
        }
    }

    /// Makes the file equal to the synced bytes, once what else it has is set aside. A file that failed is closed.
    fn rewrite(&mut self) -> io::Result<()>
        ensures { self.new ≡ self.old }
    {
        self.set_others_aside()?;
        let mut file = self.opened()?;
        let bytes = self.kept.synced();
        write_at(&mut file, 0, bytes)?;
        file.set_len(bytes.len() as u64)?;
        file.sync_all()?;
        self.file = Some(file);
        Ok(())
    }

    /// Makes the file equal to the synced bytes, where a call before left it behind.
    fn catch_up(&mut self) -> Result<(), Failed>
        ensures unread { self.old.state ≡ FileState.Unread → IsErr result }
        ensures success { OnOk result (self.new ≡ record self.old { state = FileState.Equal }) }
        ensures failure { OnErr result (self.new ≡ record self.old { failures = count_after self.old.failures }) }
        ensures behind { OnErr result (self.old.state ≢ FileState.Equal) }
        ensures cause { HasCause self.old.failures self.new.failures result }
    {
        let is_equal = match self.state {
            FileState::Equal => true,
            FileState::Behind => self.rewrite().is_ok(),
            FileState::Unread => false,
        };
        if !is_equal {
            self.faults = self.faults.saturating_add(1);
            return Err(Failed);
        }
        self.state = FileState::Equal;
        Ok(())
    }
}

/// The last bytes that were cut off, once these are which stood at an offset; those before where there is none of these.
fn last_cut(at: u64, bytes: &[u8], before: Option<CutOff>) -> Option<CutOff>
    ensures { result ≡ last_cut at bytes.now before }
{
    if bytes.is_empty() {
        return before;
    }
    Some(CutOff {
        at,
        count: bytes.len() as u64,
    })
}

/// Writes bytes to a place in a file, and syncs it.
fn write_at<F: Write + Seek + OpenFile>(file: &mut F, at: u64, bytes: &[u8]) -> io::Result<()> {
    file.seek(SeekFrom::Start(at))?;
    file.write_all(bytes)?;
    file.sync_all()
}

impl<'a, R: Files + AllocGlobal> LogStore for FileStore<'a, R> {
    ghost synced = { λ s. s.durable };

    ghost pending = { λ s. s.waiting };

    ghost faults = { λ s. s.failures };

    ghost writes = { λ s. s.writes };

    /// Gives as many bytes as the buffer has room for and stand there, of those in memory.
    fn read(&mut self, at: u64, buf: &mut [u8]) -> Result<usize, Failed>
        ensures bound { ReadsAtMost result buf.new }
        ensures given { GivesFrom self.old.durable at result buf.new }
        ensures some { at < length self.old.durable → 0 < length buf.old → IfOk result (λ n. 0 < n) }
        ensures synced { self.new.durable ≡ self.old.durable }
        ensures pending { self.new.waiting ≡ self.old.waiting }
        ensures unwritten { self.new.writes ≡ self.old.writes }
        ensures cause { HasCause self.old.failures self.new.failures result }

        ensures count { IfOk result (λ n. n ≡ min (length buf.old) (length self.old.durable - at)) }
        ensures unread { self.old.state ≡ FileState.Unread → IsErr result }
        ensures success { OnOk result (self.new ≡ record self.old { state = FileState.Equal }) }
        ensures failure { OnErr result (self.new ≡ record self.old { failures = count_after self.old.failures }) }
    {
        self.catch_up()?;
        Ok(self.kept.give(at, buf))
    }

    /// Keeps the bytes in memory.
    fn append(&mut self, bytes: &[u8]) -> Result<(), Failed>
        ensures appended { OnOk result (self.new.waiting ≡ self.old.waiting ++ bytes.now) }
        ensures part { OnErr result (IsFront self.new.waiting (self.old.waiting ++ bytes.now)) }
        ensures synced { self.new.durable ≡ self.old.durable }
        ensures wrote { Rose self.old.writes self.new.writes }
        ensures cause { HasCause self.old.failures self.new.failures result }

        ensures unread { self.old.state ≡ FileState.Unread → IsErr result }
        ensures success { OnOk result (self.new ≡ record self.old {
          waiting = self.old.waiting ++ bytes.now;
          state = FileState.Equal;
          writes = count_after self.old.writes;
        }) }
        ensures failure { OnErr result (self.new ≡ record self.old {
          state = self.new.state;
          writes = count_after self.old.writes;
          failures = count_after self.old.failures;
        }) }
    {
        self.writes = self.writes.saturating_add(1);
        self.catch_up()?;
        if !self.kept.add(bytes) {
            self.faults = self.faults.saturating_add(1);
            return Err(Failed);
        }
        Ok(())
    }

    /// Writes the pending bytes behind the synced ones in the file, by one write where the system takes them at once, and
    /// syncs it.
    fn sync(&mut self) -> Result<(), Failed>
        ensures joined { OnOk result (self.new.durable ≡ self.old.durable ++ self.old.waiting) }
        ensures settled { OnOk result (self.new.waiting ≡ []) }
        ensures synced { OnErr result (self.new.durable ≡ self.old.durable) }
        ensures part { OnErr result (IsFront self.new.waiting self.old.waiting) }
        ensures wrote { Rose self.old.writes self.new.writes }
        ensures cause { HasCause self.old.failures self.new.failures result }

        ensures unread { self.old.state ≡ FileState.Unread → IsErr result }
        ensures success { OnOk result (self.new ≡ record self.old {
          durable = self.old.durable ++ self.old.waiting;
          waiting = [];
          state = FileState.Equal;
          writes = count_after self.old.writes;
        }) }
        ensures failure { OnErr result (self.new ≡ record self.old {
          state = self.new.state;
          writes = count_after self.old.writes;
          failures = count_after self.old.failures;
        }) }
        ensures behind { OnErr result (self.new.state ≢ FileState.Equal) }
    {
        self.writes = self.writes.saturating_add(1);
        self.catch_up()?;
        if self.write_pending().is_err() {
            self.state = FileState::Behind;
            self.faults = self.faults.saturating_add(1);
            return Err(Failed);
        }
        self.kept.join();
        Ok(())
    }

    /// Sets the bytes behind aside, shortens the file and syncs it. After `Failed` all synced bytes are left.
    fn cut(&mut self, at: u64) -> Result<(), Failed>
        requires settled { self.old.waiting ≡ [] }
        requires within { at ≤ length self.old.durable }
        ensures cut { OnOk result (self.new.durable ≡ take at self.old.durable) }
        ensures part { OnErr result (IsFrontFrom at self.new.durable self.old.durable) }
        ensures emptied { self.new.waiting ≡ [] }
        ensures wrote { Rose self.old.writes self.new.writes }
        ensures cause { HasCause self.old.failures self.new.failures result }

        ensures unread { self.old.state ≡ FileState.Unread → IsErr result }
        ensures success { OnOk result (self.new ≡ record self.old {
          durable = take at self.old.durable;
          state = FileState.Equal;
          writes = count_after self.old.writes;
          cut_off = last_cut at (drop at self.old.durable) self.old.cut_off;
        }) }
        ensures failure { OnErr result (self.new ≡ record self.old {
          state = self.new.state;
          writes = count_after self.old.writes;
          failures = count_after self.old.failures;
        }) }
        ensures behind { OnErr result (self.new.state ≢ FileState.Equal) }
    {
        self.writes = self.writes.saturating_add(1);
        self.catch_up()?;
        if self.shorten(at).is_err() {
            self.state = FileState::Behind;
            self.faults = self.faults.saturating_add(1);
            return Err(Failed);
        }
        self.cut_off = last_cut(at, &self.kept.synced()[at as usize..], self.cut_off);
        self.kept.cut(at);
        Ok(())
    }

    /// Lets the pending bytes go.
    fn halt(&mut self)
        ensures joined { JoinsFront self.old.durable self.old.waiting self.new.durable }
        ensures settled { self.new.waiting ≡ [] }
        ensures calm { self.new.failures ≡ self.old.failures }
        ensures unwritten { self.new.writes ≡ self.old.writes }

        ensures dropped { self.new ≡ record self.old { waiting = [] } }
    {
        self.kept.settle(0);
    }
}
