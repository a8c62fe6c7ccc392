//! The laws of a node that is down: what its store may hold is what it may come up with. And how much room calls take.
ghost use Rattle.std.specs.Prelude.{ℕ, ◌≡◌, ◌≤◌, ◌+◌, List, [], ◌∷◌, length, Bool, Vec, true, false};
ghost use Rattle.std.specs.declared.alloc.Global.{Global};
ghost use Rattle.std.specs.declared.snapshot.Snapshot.{Snapshot};
ghost use Rattle.actor_trace.specs.History.{entries_of};
ghost use Rattle.actor_trace.specs.Steps.{Adds, Rests};
ghost use Rattle.cdb_values.specs.Rows.{Rows};
ghost use Rattle.cdb_values.specs.declared.tables.TableDef.{TableDef};
ghost use Rattle.cluster_events.specs.Parts.{field, lines};
ghost use Rattle.cluster_events.specs.Settings.{Setting};
ghost use Rattle.cluster_requests.specs.Requests.{Field};
ghost use Rattle.cluster_steps.specs.Guards.{IsPlan, AreLegalSteps, MayTakeStep};
ghost use Rattle.cluster_steps.specs.Named.{steps, world};
ghost use Rattle.cluster_steps.specs.declared.events.Event.{Event};
ghost use Rattle.cluster_steps.specs.declared.events.Event.TheVariants as event;
ghost use Rattle.cluster_steps.specs.declared.events.Woken.{Woken};
ghost use Rattle.cluster_steps.specs.declared.events.Woken.TheVariants as woken;
ghost use Rattle.core_lists.specs.Lists.{In};
ghost use Rattle.election_core.specs.declared.messages.Message.{Message};
ghost use Rattle.election_core.specs.declared.votes.NodeVote.{NodeVote};
ghost use Rattle.node_state.specs.declared.steps.BeginStep.{BeginStep};
ghost use Rattle.node_state.specs.declared.steps.Step.{Step};
ghost use Rattle.node_state.specs.Calls.{IsBegun, IsDelivered, IsPartly, IsSetUp, IsStood};
ghost use Rattle.node_state.specs.Commits.{IsEntered};
ghost use Rattle.node_state.specs.Nodes.{Follows, Held, IsNode};
ghost use Rattle.node_state.specs.Packets.{SentPacket};
ghost use Rattle.node_reading.specs.Reading.{MayBegin};
ghost use Rattle.node_state.specs.Restarts.{Kept, MayWake, MayWakeAny, kept};
ghost use Rattle.phys_log.specs.declared.entries.Entry.{Entry};
ghost use Rattle.report_laws.specs.Nodes.{is_up};

/// A node that goes down may come up as it was, with any promise that is not less. Where it was to lead, it may come up with its
/// promise accepted; and where it was to take a log, or to append an entry, with what that would have left.
pub fn what_a_store_may_hold_may_come_up()
    ensures as_left { (G : Setting) (v : NodeVote) (log : List Entry) (p : ℕ) (fault : Bool) (seen now : List (ℕ × Event))
        → IsNode G v log seen → v.up ≡ true → v.promised ≤ p → Adds v.node (event.Down fault) seen now
        → MayWake G (field (steps G now)) v.node woken.AsLeft (kept p v.accepted log) }
    ensures while_down { (G : Setting) (v : NodeVote) (log : List Entry) (p : ℕ) (seen : List (ℕ × Event)) → IsNode G v log seen
        → v.up ≡ false → ((world G seen).nodes v.node).was_up ≡ true → v.promised ≤ p
        → MayWake G (field (steps G seen)) v.node woken.AsLeft (kept p v.accepted log) }
    ensures leading { (G : Setting) (v : NodeVote) (log : List Entry) (g : ℕ) (fault : Bool) (seen now : List (ℕ × Event))
        → IsNode G v log seen → v.up ≡ true → MayTakeStep G seen v.node (event.Lead g) → Adds v.node (event.Down fault) seen now
        → AreLegalSteps G now → MayWake G (field (steps G now)) v.node woken.Led (kept v.promised v.promised log) }
    ensures taking { (G : Setting) (v u : NodeVote) (log taken : List Entry) (g n : ℕ) (fault : Bool) (seen now : List (ℕ × Event))
        → IsNode G v log seen → v.up ≡ true → Follows G v.node (event.Take g n) u taken seen
        → Adds v.node (event.Down fault) seen now → AreLegalSteps G now
        → MayWake G (field (steps G now)) v.node woken.Took (kept u.promised u.accepted taken) }
    ensures appending { (G : Setting) (v u : NodeVote) (log longer : List Entry) (next : Snapshot Entry) (fault : Bool)
        (seen now : List (ℕ × Event)) → IsNode G v log seen → v.up ≡ true → Follows G v.node (event.Append next) u longer seen
        → Adds v.node (event.Down fault) seen now → AreLegalSteps G now
        → MayWake G (field (steps G now)) v.node woken.Appended (kept u.promised u.accepted longer) }
{}

/// What each call of a node's log leaves of a store that fails there, the node may come up with: the log as it was, the same with
/// the promise of the event that was under way, and the log as that event would have left it. It stays so, whatever others do.
pub fn what_a_call_may_leave_may_come_up()
    ensures stopping { (G : Setting) (v : NodeVote) (log : List Entry) (fault : Bool) (seen now : List (ℕ × Event))
        → IsNode G v log seen → v.up ≡ true → Adds v.node (event.Down fault) seen now
        → MayWakeAny G (field (steps G now)) v.node (kept v.promised v.accepted log ∷ []) }
    ensures promising { (G : Setting) (v : NodeVote) (log : List Entry) (g : ℕ) (fault : Bool) (seen now : List (ℕ × Event))
        → IsNode G v log seen → v.up ≡ true → v.promised ≤ g → Adds v.node (event.Down fault) seen now
        → MayWakeAny G (field (steps G now)) v.node (kept v.promised v.accepted log ∷ kept g v.accepted log ∷ []) }
    ensures leading { (G : Setting) (v : NodeVote) (log : List Entry) (g : ℕ) (fault : Bool) (seen now : List (ℕ × Event))
        → IsNode G v log seen → v.up ≡ true → MayTakeStep G seen v.node (event.Lead g) → Adds v.node (event.Down fault) seen now
        → AreLegalSteps G now → MayWakeAny G (field (steps G now)) v.node
        (kept v.promised v.accepted log ∷ kept v.promised v.promised log ∷ []) }
    ensures taking { (G : Setting) (v u : NodeVote) (log taken : List Entry) (g n : ℕ) (fault : Bool) (seen now : List (ℕ × Event))
        → IsNode G v log seen → v.up ≡ true → v.promised ≤ g → Follows G v.node (event.Take g n) u taken seen
        → u.promised ≡ g → u.accepted ≡ g → Adds v.node (event.Down fault) seen now → AreLegalSteps G now
        → MayWakeAny G (field (steps G now)) v.node
        (kept v.promised v.accepted log ∷ kept g v.accepted log ∷ kept g g taken ∷ []) }
    ensures growing { (G : Setting) (v u : NodeVote) (log longer : List Entry) (g n : ℕ) (fault : Bool)
        (seen now : List (ℕ × Event)) → IsNode G v log seen → v.up ≡ true → Follows G v.node (event.Take g n) u longer seen
        → u.promised ≡ v.promised → u.accepted ≡ v.accepted → Adds v.node (event.Down fault) seen now
        → AreLegalSteps G now
        → MayWakeAny G (field (steps G now)) v.node
        (kept v.promised v.accepted log ∷ kept v.promised v.accepted longer ∷ []) }
    ensures appending { (G : Setting) (v u : NodeVote) (log longer : List Entry) (next : Snapshot Entry) (fault : Bool)
        (seen now : List (ℕ × Event)) → IsNode G v log seen → v.up ≡ true → Follows G v.node (event.Append next) u longer seen
        → u.promised ≡ v.promised → u.accepted ≡ v.accepted → Adds v.node (event.Down fault) seen now
        → AreLegalSteps G now
        → MayWakeAny G (field (steps G now)) v.node
        (kept v.promised v.accepted log ∷ kept v.promised v.accepted longer ∷ []) }
    ensures stays { (G : Setting) (i : ℕ) (old new : List (ℕ × Event)) (ks : List Kept) → IsPlan G → Rests i old new
        → AreLegalSteps G new → MayWakeAny G (field (steps G old)) i ks → MayWakeAny G (field (steps G new)) i ks }
{}

/// What a node may come up with it may come up with, whatever others do.
pub fn what_may_come_up_stays()
    ensures { (G : Setting) (i : ℕ) (old new : List (ℕ × Event)) (how : Woken) (k : Kept) → IsPlan G → Rests i old new → AreLegalSteps G new
        → MayWake G (field (steps G old)) i how k → MayWake G (field (steps G new)) i how k }
{}

/// A node that was never up may come up with what its store stood for when it was read, once the operator admitted that. Who
/// did nothing was never up, and no line tells that it is down.
pub fn what_was_read_may_come_up()
    ensures wakes { (G : Setting) (f : Field) (i : ℕ) (rows : Snapshot Rows) (k : Kept) → 1 ≤ i → i ≤ G.nodes
        → (f.core.nodes i).up ≡ false → (f.core.nodes i).was_up ≡ false
        → In (record { node = i; promised = k.promised; accepted = k.accepted }) f.core.admits
        → MayBegin k.promised k.accepted k.entries rows.value → MayWake G f i (woken.First rows) k }
    ensures never_up { (G : Setting) (i : ℕ) (seen : List (ℕ × Event)) → entries_of i seen ≡ []
        → (((world G seen).nodes i).up ≡ false) × (((world G seen).nodes i).was_up ≡ false) }
    ensures untold { (G : Setting) (i : ℕ) (seen : List (ℕ × Event)) → entries_of i seen ≡ []
        → is_up i (lines G (steps G seen)) ≡ true }
{}

/// Each event of a node takes room for one, and no call takes more.
pub fn what_calls_take_of_room()
    ensures stood { (g : ℕ) (s : Step (Vec SentPacket Global)) (old new : Held) → IsStood g s old new
        → old.actor.room ≤ new.actor.room + 1 }
    ensures delivered { (p : SentPacket) (s : Step (Vec SentPacket Global)) (old new : Held) → IsDelivered p s old new
        → old.actor.room ≤ new.actor.room + (length p.entries + 1) }
    ensures short { (m : Message) (es : List Entry) (old new : Held) → IsPartly m es old new
        → old.actor.room ≤ new.actor.room + length es }
    ensures begun { (ask : ℕ) (s : BeginStep (Vec SentPacket Global)) (old new : Held) → IsBegun ask s old new
        → old.actor.room ≤ new.actor.room + 1 }
    ensures set_up { (tables : List TableDef) (s : Step (Vec SentPacket Global)) (old new : Held) → IsSetUp tables s old new
        → old.actor.room ≤ new.actor.room + 1 }
    ensures entered { (next : Entry) (s : Step (Vec SentPacket Global)) (old new : Held) → IsEntered next s old new
        → old.actor.room ≤ new.actor.room + 1 }
{}
