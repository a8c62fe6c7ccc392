//! Requests to commit, as the nodes see them: what is sent, what is appended, and what is refused.
//!
//! ```text
//! session           leader of g                       next leader
//! Send id g ------> Append id                         one entry, in its generation, and once
//!                   or Settle id: it tells a refusal  appends id no more in g
//!                   or Repeat id k: it stands already at k
//! ```
//!
//! A request is sent to a node in a generation. The node appends it once, or settles it: it tells that it refuses, or
//! where the entry stands already, and appends it no more in that generation. A later leader could still append what was sent to it, so a refusal
//! holds for good only where a log is durable in its generation, and where its identity was sent in no later one:
//! then every later leader adopted a log of this generation or of one since.
//!
//! The entries are those of the log with the rows behind them (`specs/KeptEntries.antt`). So the rows at a position
//! of a log are a look-up, and the laws of consensus, which hold of any type of entries, carry them along.
//!
//! The setup of an empty log is sent by nobody: it is the first entry of a log.
//!
//! The functions here run nothing: each is a law, and its clauses are what is proved.
#![tactic(auto)]

ghost use Rattle.std.specs.Prelude.{ℕ, ◌≡◌, ◌≤◌, ◌∷◌, ◌++◌, [], List, length, take};
ghost use Rattle.core_lists.specs.Lists.{In, Each};
ghost use Rattle.cluster_consensus.specs.Facts.{Claim};
ghost use Rattle.cluster_consensus.specs.Committed.{IsCommitted};
ghost use Rattle.cluster_consensus.specs.Durable.{DurableIn};
ghost use Rattle.cluster_consensus.specs.Histories.{Legal, after};
ghost use Rattle.cluster_masters.specs.Appended.{EachBehind};
ghost use Rattle.cluster_requests.specs.Identities.{HasAt, Lacks};
ghost use Rattle.cluster_requests.specs.KeptEntries.{KeptEntry};
ghost use Rattle.cluster_requests.specs.Requests.{Settled, FieldAct, May, AllMay, field_after};
ghost use Rattle.cluster_requests.specs.Requests.FieldAct.{ToRepeat};
ghost use Rattle.phys_log.specs.declared.entries.CommitId.{CommitId};
ghost use Rattle.cluster_requests.specs.Steps.{steps_of, IsNewIn};

/// A request that its leader settled is in no log of that generation.
pub fn settled_stays_out()
    ensures { (n k : ℕ) (h : List (ℕ × FieldAct)) (z : Settled) (c : Claim KeptEntry) → AllMay n h
        → In z (field_after h).settles → In c ((field_after h).core.nodes k).accepts
        → c.gen ≡ z.gen → Lacks z.id c.log }
{}

/// A request that was settled in a generation in which a log is durable, and that was sent in no later
/// one, is in no log that is accepted from then on: what was told to be refused stays out.
pub fn refused_stays_out()
    ensures { (n k : ℕ) (h : List (ℕ × FieldAct)) (z : Settled) (d : List KeptEntry) (c : Claim KeptEntry) → AllMay n h
        → In z (field_after h).settles
        → Each (λ s. s.id ≡ z.id → s.gen ≤ z.gen) (field_after h).sends
        → DurableIn n (field_after h).core z.gen d
        → In c ((field_after h).core.nodes k).accepts
        → z.gen ≤ c.gen → Lacks z.id c.log }
{}

/// A position of the log over which a refusal was decided is durable where a length that is told durable in its
/// generation reaches it.
pub fn settled_positions_are_durable()
    ensures { (n j p : ℕ) (h : List (ℕ × FieldAct)) (z : Settled) (d : Claim KeptEntry) → AllMay n h
        → In z (field_after h).settles → In d ((field_after h).core.nodes j).durables → d.gen ≡ z.gen
        → p ≤ length z.log → p ≤ length d.log → DurableIn n (field_after h).core z.gen (take p z.log) }
{}

/// A request that comes again is answered by the position at which its entry stands in the leader's log: it is
/// committed there once a length that is told durable in the leader's generation reaches that position.
pub fn repeats_are_committed()
    ensures { (n i j k : ℕ) (h : List (ℕ × FieldAct)) (id : CommitId) (d : Claim KeptEntry) → AllMay n h
        → May n (field_after h) i (ToRepeat id k) → In d ((field_after h).core.nodes j).durables
        → d.gen ≡ ((field_after h).core.nodes i).accepted → k ≤ length d.log
        → (p : HasAt id k ((field_after h).core.nodes i).log)
        × IsCommitted (field_after h).core ((field_after h).core.nodes i).accepted (p.before ++ p.entry ∷ []) }
{}

/// The events of the nodes among the acts are a legal history, which leaves the same nodes: each law of consensus
/// holds beside requests.
pub fn nodes_beside_requests_are_legal()
    ensures core { (h : List (ℕ × FieldAct)) → (field_after h).core ≡ after (steps_of h) }
    ensures legal { (n : ℕ) (h : List (ℕ × FieldAct)) → AllMay n h → Legal n (steps_of h) }
{}

/// Behind an adopted log that is durable in its generation, each entry of a log that is accepted from then on is of
/// the generation that appended it, and no entry before it has its identity.
pub fn appended_identities_are_new()
    ensures { (n k m : ℕ) (h : List (ℕ × FieldAct)) (l c : Claim KeptEntry) → AllMay n h
        → In l ((field_after h).core.nodes m).leads → DurableIn n (field_after h).core l.gen l.log
        → In c ((field_after h).core.nodes k).accepts → l.gen ≤ c.gen
        → EachBehind IsNewIn l.gen c.gen l.log c.log }
{}
