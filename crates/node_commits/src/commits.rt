//! A node answers a request to commit: it decides over its log, and appends an entry or tells what it decided.
ghost use Rattle.std.specs.Prelude.{ℕ, ◌≡◌, ◌<◌, ◌↔◌, ◌++◌, ◌∷◌, [], Some, IsTrue, IfOk, OnOk, OnErr};
ghost use Rattle.blkseq_table.specs.Known.{IsAbsent};
ghost use Rattle.blkseq_table.specs.OfLogs.{id_of, identities_of};
ghost use Rattle.block_processor.specs.Asked.{IsAsked};
ghost use Rattle.block_processor.specs.Decided.{Decides};
ghost use Rattle.cluster_requests.specs.Requests.{Sent};
ghost use Rattle.log_rows.specs.History.{Ground};
ghost use Rattle.node_state.specs.Commits.{MayEnter, MaySettle};
ghost use Rattle.node_state.specs.Stores.{held_of};
ghost use Rattle.node_commits.specs.Asked.{IsOver, IsSentTo, IsToAnswer, LeadsIn, ground_of, log_at};
ghost use Rattle.node_commits.specs.Commits.{AsksAtCommit, DoesCommit, IsAnswered, IsGiven, IsTelling};
ghost use Rattle.node_commits.specs.Ledgers.{IsBookOf, IsUntold};
ghost use Rattle.phys_log.specs.Logs.{Fits};
ghost use Rattle.phys_log.specs.declared.requests.Decision.TheVariants as decision;

use crate::copies::{copy_decision, copy_id};
use crate::ledgers::Ledger;
use crate::steps::CommitStep;
use actor_trace::{Naming, Trace};
use blkseq_table::BlkSeq;
use block_processor::decide;
use cdb_outside::LogStore;
use cluster_core::{Cluster, Plan};
use election_core::NodeVote;
use node_state::{Node, Packet, Step};
use phys_log::{CommitId, CommitRequest, Decision, Entry, copy_entry};
use std::alloc::{AllocError, Global};

/// Whether a node that is up leads in a generation.
fn leads_in(vote: &NodeVote, generation: u64) -> bool
    ensures { IsTrue result ↔ LeadsIn vote.now generation }
{
    vote.up && vote.leading && vote.accepted == generation
}

/// What is decided of a request over the log of a node, whose next entry is of the accepted generation.
fn decided<D: LogStore + Drop, J: Plan, N: Naming>(
    alloc: Global,
    node: &Node<D, J, N>,
    known: &BlkSeq,
    request: CommitRequest,
) -> Result<Decision, AllocError>
    ghost footing: { Ground }
    requires asked { IsAsked footing request node.now.entries }
    requires known { known.now ≡ identities_of node.now.entries }
    ensures { IfOk result (Decides footing request node.now.entries node.now.vote.accepted) }
{
    decide(alloc, request, node.log(), known, node.vote().accepted)
}

impl Ledger {
    /// Answers a request that a session sent to this node in a generation, by the ledger of the node. After want of
    /// memory the node and its ledger are as before.
    pub fn commit<D: LogStore + Drop, J: Plan, N: Naming>(
        &mut self,
        alloc: Global,
        trace: &Trace<Cluster<J>, N>,
        node: &mut Node<D, J, N>,
        request: CommitRequest,
        generation: u64,
    ) -> Result<CommitStep<Vec<Packet<J, N>>>, AllocError>
        ghost sent: { Sent }
        requires room { 0 < node.old.actor.room }
        requires book { IsBookOf self.old (held_of node.old) }
        requires asked { IsSentTo J.setting node.old.actor.seen node.old.vote.node generation sent request }
        requires over { LeadsIn node.old.vote generation →
            IsOver J.setting (log_at J.setting node.old.actor.seen node.old.vote.node) sent request }
        ensures answered { IfOk result (λ s. IsAnswered
            (ground_of J.setting node.old.actor.seen node.old.vote.node sent) request generation s
            self.old self.new (held_of node.old) (held_of node.new)) }
        ensures store { IfOk result (λ s. AsksAtCommit s node.old.over node.new.over) }
        ensures book { IsBookOf self.new (held_of node.new) }
        ensures unchanged { OnErr result ((self.new ≡ self.old) × (node.new ≡ node.old)) }
    {
        let vote = *node.vote();
        if !vote.up {
            return Ok(CommitStep::Down);
        }
        if !leads_in(&vote, generation) {
            return Ok(CommitStep::NotMaster {
                generation: vote.promised,
            });
        }
        match self.told_of(alloc, &request.id)? {
            Some(decision) => Ok(CommitStep::Decided {
                decision,
                packets: Vec::new(alloc),
            }),
            None => self.answer(alloc, trace, node, request),
        }
    }

    /// Answers a request of which nothing was told, by what is decided of it.
    fn answer<D: LogStore + Drop, J: Plan, N: Naming>(
        &mut self,
        alloc: Global,
        trace: &Trace<Cluster<J>, N>,
        node: &mut Node<D, J, N>,
        request: CommitRequest,
    ) -> Result<CommitStep<Vec<Packet<J, N>>>, AllocError>
        ghost sent: { Sent }
        requires { IsToAnswer J.setting (held_of node.old) self.old sent request }
        ensures given { IfOk result (λ s. IsGiven (ground_of J.setting node.old.actor.seen node.old.vote.node sent)
            request s self.old self.new (held_of node.old) (held_of node.new)) }
        ensures store { IfOk result (λ s. AsksAtCommit s node.old.over node.new.over) }
        ensures book { IsBookOf self.new (held_of node.new) }
        ensures unchanged { OnErr result ((self.new ≡ self.old) × (node.new ≡ node.old)) }
    {
        node.knows();
        let id = copy_id(&request.id)?;
        match decided(alloc, node, &self.known, request)? {
            Decision::Commit(entry) => self.answer_by_entry(alloc, trace, node, id, entry),
            decision => self.answer_by_telling(alloc, trace, node, id, decision),
        }
    }

    /// Answers a request by its entry, which is appended and shipped. Its identity is put in before the node is called, and
    /// taken out again where no entry came of it.
    fn answer_by_entry<D: LogStore + Drop, J: Plan, N: Naming>(
        &mut self,
        alloc: Global,
        trace: &Trace<Cluster<J>, N>,
        node: &mut Node<D, J, N>,
        id: CommitId,
        entry: Entry,
    ) -> Result<CommitStep<Vec<Packet<J, N>>>, AllocError>
        requires room { 0 < node.old.actor.room }
        requires book { IsBookOf self.old (held_of node.old) }
        requires may { MayEnter J.setting node.old.actor.seen node.old.vote.node entry }
        requires fits { Fits node.old.entries entry }
        requires its { id_of entry ≡ Some id }
        requires absent { IsAbsent self.old.known id }
        ensures does { IfOk result (λ s. DoesCommit id (decision.Commit entry) s self.old self.new
            (held_of node.old) (held_of node.new)) }
        ensures store { IfOk result (λ s. AsksAtCommit s node.old.over node.new.over) }
        ensures book { IsBookOf self.new (held_of node.new) }
        ensures unchanged { OnErr result ((self.new ≡ self.old) × (node.new ≡ node.old)) }
    {
        let told = copy_entry(alloc, &entry)?;
        let last = node.entries().len() as u64;
        self.known.insert(id, last + 1)?;
        match node.append(alloc, trace, entry) {
            Ok(Step::Sent(packets)) => Ok(CommitStep::Decided {
                decision: Decision::Commit(told),
                packets,
            }),
            Ok(Step::Fault) => {
                drop(told);
                self.known.drop_above(last);
                Ok(CommitStep::Fault)
            }
            // it leads, so it was up
            Ok(Step::Down) => unreachable!(),
            Err(AllocError) => {
                drop(told);
                self.known.drop_above(last);
                Err(AllocError)
            }
        }
    }

    /// Answers a request by what is decided in place of an entry, which is told and kept.
    fn answer_by_telling<D: LogStore + Drop, J: Plan, N: Naming>(
        &mut self,
        alloc: Global,
        trace: &Trace<Cluster<J>, N>,
        node: &mut Node<D, J, N>,
        id: CommitId,
        decision: Decision,
    ) -> Result<CommitStep<Vec<Packet<J, N>>>, AllocError>
        requires room { 0 < node.old.actor.room }
        requires book { IsBookOf self.old (held_of node.old) }
        requires untold { IsUntold self.old.told id }
        requires telling { IsTelling decision }
        requires may { MaySettle J.setting node.old.actor.seen node.old.vote.node id decision }
        ensures does { IfOk result (λ s. DoesCommit id decision s self.old self.new (held_of node.old)
            (held_of node.new)) }
        ensures store { IfOk result (λ s. AsksAtCommit s node.old.over node.new.over) }
        ensures book { IsBookOf self.new (held_of node.new) }
        ensures unchanged { OnErr result ((self.new ≡ self.old) × (node.new ≡ node.old)) }
    {
        let its = copy_id(&id)?;
        let told = copy_decision(alloc, &decision)?;
        self.keep(its, told)?;
        node.settle(trace, &id, &decision);
        Ok(CommitStep::Decided {
            decision,
            packets: Vec::new(alloc),
        })
    }
}
