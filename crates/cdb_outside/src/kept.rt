//! The bytes of a store, as stores keep them in memory.
ghost use Rattle.std.specs.Prelude.{◌≡◌, ◌-◌, ◌≤◌, false, IsTrue, [], ◌++◌, min, length, take, drop};
ghost use Rattle.std.specs.Io.{StartsWith};
ghost use Rattle.cdb_outside.specs.Objects.{Kept};

use crate::fronts::copy_front;
use std::marker::Model;

/// The bytes of a store in memory: synced ones, and pending ones behind them. Who builds a store of its own keeps them so.
#[derive(Drop)]
pub struct KeptBytes {
    bytes: Vec<u8>,
    synced: usize,
}

impl Model for KeptBytes {
    ghost Value = { Kept };

    ghost view = { λ k. record { durable = take k.synced k.bytes.items; waiting = drop k.synced k.bytes.items } };

    ghost invariant = { λ k. k.synced ≤ length k.bytes.items };
}

impl KeptBytes {
    /// These bytes, synced.
    pub fn new(bytes: Vec<u8>) -> Self
        ensures { result ≡ record { durable = bytes.items; waiting = [] } }
    {
        let synced = bytes.len();
        KeptBytes { bytes, synced }
    }

    /// The synced bytes.
    pub fn synced(&self) -> &[u8]
        ensures { result.now ≡ self.now.durable }
    {
        &self.bytes[..self.synced]
    }

    /// The pending bytes.
    pub fn pending(&self) -> &[u8]
        ensures { result.now ≡ self.now.waiting }
    {
        &self.bytes[self.synced..]
    }

    /// Gives as many synced bytes from an offset on as the buffer has room for and stand there.
    pub fn give(&self, at: u64, buf: &mut [u8]) -> usize
        ensures bound { result ≤ length buf.new }
        ensures given { StartsWith (drop at self.now.durable) (take result buf.new) }
        ensures count { result ≡ min (length buf.old) (length self.now.durable - at) }
    {
        let start = (at as usize).min(self.synced);
        copy_front(&self.bytes[start..self.synced], buf)
    }

    /// Adds pending bytes, where memory is found for them.
    pub fn add(&mut self, bytes: &[u8]) -> bool
        ensures added { IsTrue result → self.new ≡ record self.old { waiting = self.old.waiting ++ bytes.now } }
        ensures full { result ≡ false → self.new ≡ self.old }
    {
        self.bytes.extend_from_slice(bytes).is_ok()
    }

    /// Makes the pending bytes synced.
    pub fn join(&mut self)
        ensures { self.new ≡ record { durable = self.old.durable ++ self.old.waiting; waiting = [] } }
    {
        self.synced = self.bytes.len();
    }

    /// Leaves so many synced bytes.
    pub fn cut(&mut self, at: u64)
        requires settled { self.old.waiting ≡ [] }
        requires within { at ≤ length self.old.durable }
        ensures { self.new ≡ record { durable = take at self.old.durable; waiting = [] } }
    {
        let end = at as usize;
        self.bytes.truncate(end);
        self.synced = end;
    }

    /// Makes so many pending bytes synced, all where they are fewer, and lets the others go.
    pub fn settle(&mut self, keeps: u64)
        ensures { self.new ≡ record { durable = self.old.durable ++ take keeps self.old.waiting; waiting = [] } }
    {
        let pending = self.bytes.len() - self.synced;
        let kept = (keeps as usize).min(pending);
        self.synced += kept;
        self.bytes.truncate(self.synced);
    }
}
