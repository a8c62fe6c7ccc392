//! The nodes of one run as a cluster: what packets that are delivered, elections, falls and starts make of them.
//!
//! A node is what contracts of `node_state` see of it, and nodes are a list of these, the first one's number 1. By their numbers they
//! are a cluster of `quiet_cluster`; beside that each did certain events and no other, its ledger is its own still, and the steps of
//! all come one behind the other.
//!
//! ```text
//! IsCluster    nodes with what is under way; where one is known to lead, it does
//!   | one stands: HasCandidate        a node went down, or came up: IsChanged, HasSeen
//! IsStanding   its votes are under way
//!   | they are delivered: HasPolled
//! IsCluster    it is known to lead
//!   | it sets its log up: HasShippedSetup, HasLog
//! HasElected   nothing is under way
//!   | once more, until one leads: IsChoosing, HasChosen
//! IsQuiet      one leads, and all that are up have its log and know it durable
//! ```
//!
//! Whoever lends the nodes their calls shows of each what its clauses say; the laws of `proofs/` say what that makes of the cluster. The
//! functions here run nothing: each is a law for who lends one node alone a call of its own.
#![tactic(auto)]

ghost use Rattle.std.specs.Prelude.{ℕ, Bool, ◌≡◌, ◌-◌, ◌<◌, ◌≤◌, ◌++◌, [], true, false, Option, Some, List, length, get_or, slice_set};
ghost use Rattle.cluster_events.specs.Settings.{Setting};
ghost use Rattle.cluster_steps.specs.declared.events.Event.{Event};
ghost use Rattle.cluster_steps.specs.declared.events.Woken.{Woken};
ghost use Rattle.node_clusters.specs.Changes.{IsChanged};
ghost use Rattle.node_clusters.specs.Clusters.{HasPlace, IsAlone, IsCluster, IsQuiet};
ghost use Rattle.node_clusters.specs.Events.{AreCalm};
ghost use Rattle.node_clusters.specs.Passes.{PassAll};
ghost use Rattle.node_clusters.specs.Reigns.{KeepsBook, told_at};
ghost use Rattle.node_state.specs.Calls.{Did, Falls};
ghost use Rattle.node_state.specs.Commits.{Enters, Settles};
ghost use Rattle.node_state.specs.Nodes.{IsOwn};
ghost use Rattle.node_state.specs.Packets.{SentPacket};
ghost use Rattle.node_state.specs.Restarts.{Kept, Wakes};
ghost use Rattle.node_state.specs.Stores.{IsCalm, Stored, held_of};
ghost use Rattle.phys_log.specs.declared.entries.CommitId.{CommitId};
ghost use Rattle.phys_log.specs.declared.entries.Entry.{Entry};
ghost use Rattle.phys_log.specs.declared.requests.Decision.{Decision};

/// A node that went down, or came up, while nothing was under way, is one that changed alone.
pub fn one_node_changes()
    ensures falls { (G : Setting) (vs us : List Stored) (q : List SentPacket) (master : Option ℕ) (i : ℕ) (v u : Stored) (fault : Bool)
        → IsCluster G vs q master → q ≡ [] → 0 < i → i ≤ length vs → v ≡ get_or vs (i - 1) v → us ≡ slice_set vs (i - 1) u
        → Falls fault (held_of v) (held_of u) → IsChanged G us master i }
    ensures wakes { (G : Setting) (vs us : List Stored) (q : List SentPacket) (master : Option ℕ) (i : ℕ) (v u : Stored) (how : Woken) (k : Kept)
        → IsCluster G vs q master → q ≡ [] → 0 < i → i ≤ length vs → v ≡ get_or vs (i - 1) v → us ≡ slice_set vs (i - 1) u
        → v.vote.up ≡ false → Wakes how k (held_of v) (held_of u) → IsChanged G us master i }
{}

/// A node that was up did certain events alone, by none of which it came up or fell. Where its numbers stay the cluster stays, with all
/// that is under way, and where its log and what it told stay the ledger of who leads stays.
pub fn one_node_acts()
    ensures passes { (G : Setting) (vs us : List Stored) (i : ℕ) (v u : Stored) (es : List Event) → HasPlace vs i
        → v ≡ get_or vs (i - 1) v → us ≡ slice_set vs (i - 1) u → IsOwn G (held_of v) → IsOwn G (held_of u) → v.vote.up ≡ true
        → Did es (held_of v) (held_of u) → AreCalm es → IsCalm v.over u.over → PassAll vs us }
    ensures stays { (G : Setting) (vs us : List Stored) (q : List SentPacket) (master : Option ℕ) (i : ℕ) (v u : Stored)
        → IsCluster G vs q master → HasPlace vs i → v ≡ get_or vs (i - 1) v → us ≡ slice_set vs (i - 1) u → u.vote ≡ v.vote
        → IsCluster G us q master × (IsQuiet G vs master → IsQuiet G us master) }
    ensures book { (vs us : List Stored) (master : Option ℕ) (i : ℕ) (v u : Stored) → HasPlace vs i → v ≡ get_or vs (i - 1) v
        → us ≡ slice_set vs (i - 1) u → u.entries ≡ v.entries → told_at u ≡ told_at v → KeepsBook vs master us master }
{}

/// A leader that appends an entry, while nothing was under way, leads on, with what it sends under way; and nobody that is up promised
/// above it, where nobody did before. One that tells what it decided in place of an entry leads on, and all stays quiet.
pub fn a_leader_answers()
    ensures appends { (G : Setting) (vs us : List Stored) (q r ps : List SentPacket) (m : ℕ) (v u : Stored) (next : Entry)
        → IsCluster G vs q (Some m) → HasPlace vs m → v ≡ get_or vs (m - 1) v → us ≡ slice_set vs (m - 1) u → IsOwn G (held_of v)
        → IsOwn G (held_of u) → IsCalm v.over u.over → Enters next ps (held_of v) (held_of u) → q ≡ [] → r ≡ q ++ ps
        → PassAll vs us × (IsCluster G us r (Some m) × (IsAlone vs (Some m) → IsAlone us (Some m))) }
    ensures settles { (G : Setting) (vs us : List Stored) (q : List SentPacket) (m : ℕ) (v u : Stored) (id : CommitId) (d : Decision)
        → IsCluster G vs q (Some m) → HasPlace vs m → v ≡ get_or vs (m - 1) v → us ≡ slice_set vs (m - 1) u → IsOwn G (held_of v)
        → IsOwn G (held_of u) → u.over ≡ v.over → Settles id d (held_of v) (held_of u)
        → PassAll vs us × (IsCluster G us q (Some m) × (IsQuiet G vs (Some m) → IsQuiet G us (Some m))) }
{}
