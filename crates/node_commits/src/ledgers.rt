//! What a node keeps to answer requests: the identities of its log, and what it told of requests since it leads.
ghost use Rattle.std.specs.Bool.{Decides};
ghost use Rattle.std.specs.Prelude.{◌≡◌, ◌++◌, ◌∷◌, [], true, false, IfOk, IfSome, IsNone, OnOk, OnErr};
ghost use Rattle.blkseq_table.specs.Known.{AreApart};
ghost use Rattle.blkseq_table.specs.OfLogs.{identities_of};
ghost use Rattle.node_commits.specs.Ledgers.{IsTold, IsUntold, settlement};

use crate::copies::copy_decision;
use crate::indexes::index_of;
use blkseq_table::BlkSeq;
use phys_log::{CommitId, Decision, Entry};
use std::alloc::{AllocError, Global};
use std::marker::Model;

/// The identities of a node's log, and what the node told of requests since it leads. By these a request that comes
/// again is found without a walk over either.
#[derive(Drop)]
pub struct Ledger {
    pub(crate) known: BlkSeq,
    /// The requests that something was told of, numbered from 0.
    settled: BlkSeq,
    /// What was told of them, in the order of their numbers.
    decisions: Vec<Decision>,
}

impl Model for Ledger {
    ghost use Rattle.node_commits.specs.Ledgers.{AreNumbered, Book, book};

    ghost Value = { Book };

    ghost view = { λ l. book l.known l.settled l.decisions.items };

    ghost invariant = { λ l. AreNumbered 0 l.settled l.decisions.items };
}

impl Ledger {
    /// That of a node that has an empty log, and told nothing. Takes no memory.
    pub fn new(alloc: Global) -> Ledger
        ensures known { result.known ≡ [] }
        ensures told { result.told ≡ [] }
    {
        Ledger {
            known: BlkSeq::new(alloc),
            settled: BlkSeq::new(alloc),
            decisions: Vec::new(alloc),
        }
    }

    /// The identities are those of another log, with which the node came up, or which it took. `false` where one comes
    /// twice there: no entry is the one that it tells then, and the ledger is as before. The error is want of memory.
    pub fn index(&mut self, alloc: Global, entries: &[Entry]) -> Result<bool, AllocError>
        ensures apart { IfOk result (λ apart. Decides apart (AreApart (identities_of entries.now))) }
        ensures known { IfOk result (λ apart. apart ≡ true → self.new.known ≡ identities_of entries.now) }
        ensures twice { IfOk result (λ apart. apart ≡ false → self.new ≡ self.old) }
        ensures told { self.new.told ≡ self.old.told }
        ensures unchanged { OnErr result (self.new ≡ self.old) }
    {
        match index_of(alloc, entries)? {
            Some(known) => {
                self.known = known;
                Ok(true)
            }
            None => Ok(false),
        }
    }

    /// Nothing was told: the node leads from now on. Takes no memory.
    pub fn forget(&mut self, alloc: Global)
        ensures known { self.new.known ≡ self.old.known }
        ensures told { self.new.told ≡ [] }
    {
        self.settled = BlkSeq::new(alloc);
        self.decisions = Vec::new(alloc);
    }

    /// What was told of a request, or that nothing was.
    pub(crate) fn told_of(
        &self,
        alloc: Global,
        id: &CommitId,
    ) -> Result<Option<Decision>, AllocError>
        ensures some { IfOk result (λ o. IfSome o (λ d. IsTold self.now.told id.now d)) }
        ensures none { IfOk result (λ o. IsNone o → IsUntold self.now.told id.now) }
    {
        let Some(number) = self.settled.lookup(id) else {
            return Ok(None);
        };
        match self.decisions.as_slice().get(number as usize) {
            Some(decision) => {
                let told = copy_decision(alloc, decision)?;
                Ok(Some(told))
            }
            None => unreachable!(),
        }
    }

    /// Keeps what is told of a request of which nothing was.
    pub(crate) fn keep(&mut self, id: CommitId, decision: Decision) -> Result<(), AllocError>
        requires untold { IsUntold self.old.told id }
        ensures told { OnOk result (self.new.told ≡ self.old.told ++ settlement id decision ∷ []) }
        ensures known { self.new.known ≡ self.old.known }
        ensures unchanged { OnErr result (self.new ≡ self.old) }
    {
        self.decisions.reserve(1)?;
        let number = self.decisions.len() as u64;
        self.settled.insert(id, number)?;
        if self.decisions.push(decision).is_err() {
            unreachable!();
        }
        Ok(())
    }
}
