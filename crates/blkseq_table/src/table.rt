//! Which entry of a log has which identity.
ghost use Rattle.std.specs.Prelude.{ℕ, ◌≡◌, ◌↔◌, ◌++◌, ◌∷◌, [], Some, IsNone, IfOk, OnOk, OnErr, take};
ghost use Rattle.blkseq_table.specs.Known.{known_at, up_to, StandsAt, IsAbsent, AreApart, AreBelow};
ghost use Rattle.blkseq_table.specs.OfLogs.{known_of, identities_of};

use crate::keys::{NumberedId, key_for, key_of};
use indexmap::{IndexMap, IndexSet};
use phys_log::{CommitId, Entry};
use std::alloc::{AllocError, Global};
use std::marker::Model;

/// The identities of a log's entries, with the positions at which they stand. Contracts see the list of them, by rising
/// positions.
#[derive(Drop)]
pub struct BlkSeq {
    /// The sessions that came. One stays when its last identity is let go.
    sessions: IndexSet<Vec<u8>>,
    map: IndexMap<NumberedId, u64>,
}

impl Model for BlkSeq {
    ghost use Rattle.std.specs.Prelude.{List};
    ghost use Rattle.blkseq_table.specs.Known.{Known};
    ghost use Rattle.blkseq_table.specs.Kept.{knowns_by, IsKept};

    ghost Value = { List Known };

    ghost view = { λ t. knowns_by t.sessions.keys t.map.entries };

    ghost invariant = { λ t. IsKept t.sessions.keys t.map.entries };
}

impl BlkSeq {
    /// No identity. Takes no memory.
    pub fn new(alloc: Global) -> BlkSeq
        ensures { result ≡ [] }
    {
        BlkSeq {
            sessions: IndexSet::new(alloc),
            map: IndexMap::new(alloc),
        }
    }

    /// The identities of the entries of a log, which are apart. The error is want of memory.
    pub fn of_entries(alloc: Global, entries: &[Entry]) -> Result<BlkSeq, AllocError>
        requires { AreApart (identities_of entries.now) }
        ensures { IfOk result (λ table. table ≡ identities_of entries.now) }
    {
        let mut table = BlkSeq::new(alloc);
        let mut rest = entries;
        let mut position = 1u64;
        'entries: while let Some((entry, others)) = rest.split_first() {
            table.insert_of(entry, position)?;
            rest = others;
            position += 1;
        }
        Ok(table)
    }

    /// The position at which an identity stands; `None` where it stands nowhere. Takes no memory.
    pub fn lookup(&self, id: &CommitId) -> Option<u64>
        ensures found { (position : ℕ) → (result ≡ Some position) ↔ StandsAt self.now id.now position }
        ensures none { IsNone result ↔ IsAbsent self.now id.now }
    {
        let key = key_of(&self.sessions, id)?;
        self.map.get(&key).copied()
    }

    /// Puts an identity that stands nowhere behind the others, at a position above theirs. The error is want of memory;
    /// all is as before then.
    pub fn insert(&mut self, id: CommitId, position: u64) -> Result<(), AllocError>
        requires absent { IsAbsent self.old id }
        requires above { AreBelow self.old position }
        ensures last { OnOk result (self.new ≡ self.old ++ known_at id position ∷ []) }
        ensures unchanged { OnErr result (self.new ≡ self.old) }
    {
        self.put(&id, position)
    }

    /// The same of an identity that is lent.
    fn put(&mut self, id: &CommitId, position: u64) -> Result<(), AllocError>
        requires absent { IsAbsent self.old id.now }
        requires above { AreBelow self.old position }
        ensures last { OnOk result (self.new ≡ self.old ++ known_at id.now position ∷ []) }
        ensures unchanged { OnErr result (self.new ≡ self.old) }
    {
        let key = key_for(&mut self.sessions, id)?;
        match self.map.insert(key, position) {
            Ok(_) => Ok(()),
            Err(_) => Err(AllocError),
        }
    }

    /// Puts the identity of an entry, where it has one, behind the others.
    fn insert_of(&mut self, entry: &Entry, position: u64) -> Result<(), AllocError>
        requires apart { AreApart (self.old ++ known_of position entry.now) }
        requires above { AreBelow self.old position }
        ensures last { OnOk result (self.new ≡ self.old ++ known_of position entry.now) }
        ensures unchanged { OnErr result (self.new ≡ self.old) }
    {
        match entry {
            Entry::Setup { .. } => Ok(()),
            Entry::Commit { id, .. } => self.put(id, position),
        }
    }

    /// Lets go the identities that stand above a position. Takes no memory.
    pub fn drop_above(&mut self, position: u64)
        ensures { self.new ≡ up_to position self.old }
    {
        let kept = self.kept_len(position);
        self.map.truncate(kept);
    }

    /// How many identities stand at or below a position. They are the first ones, and the others are looked at alone.
    fn kept_len(&self, position: u64) -> usize
        ensures { take result self.now ≡ up_to position self.now }
    {
        let mut rest = self.map.as_slice();
        'tail: while let Some(((_, last), before)) = rest.split_last() {
            if *last <= position {
                return rest.len();
            }
            rest = before;
        }
        0
    }
}
