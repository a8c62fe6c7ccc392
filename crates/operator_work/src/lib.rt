//! What the operator may do next, in every history of a run, and where it is then.
//!
//! | It is at | May do | Where | And then |
//! |---|---|---|---|
//! | a stop or a start, not ordered | `Order` | | it is ordered |
//! | a stop or a start, ordered | `Obeyed` | the node is down, or up, or just fell | it is at the next line |
//! | a barrier | `Barrier` | all sessions did their lines before it | it is at the next line |
//!
//! By an order the node may be stopped that is up since, or started that is down since, and that stays so until the
//! node itself does something.
//!
//! The functions here run nothing: each is a law, and its clauses are what is proved.
#![tactic(auto)]

ghost use Rattle.std.specs.Prelude.{ℕ, ◌≡◌, ◌≤◌, ◌∷◌, ◌++◌, [], Bool, List, true, false};
ghost use Rattle.std.specs.declared.snapshot.Snapshot.{Snapshot};
ghost use Rattle.actor_trace.specs.History.{entries_of};
ghost use Rattle.actor_trace.specs.Steps.{Adds, Rests};
ghost use Rattle.cluster_events.specs.Guards.{AllBeyond};
ghost use Rattle.cluster_events.specs.Operator.{IsHeededAt, IsOfNode, IsStartOrdered, IsStopOrdered, operators_from};
ghost use Rattle.cluster_events.specs.Parts.{lines};
ghost use Rattle.cluster_events.specs.Settings.{Setting, lines_to_do};
ghost use Rattle.cluster_steps.specs.Guards.{AreLegalSteps, IsPlan, MayTakeStep};
ghost use Rattle.cluster_steps.specs.Named.{steps};
ghost use Rattle.cluster_steps.specs.declared.events.Event.{Event};
ghost use Rattle.cluster_steps.specs.declared.events.Event.TheVariants as event;
ghost use Rattle.cluster_steps.specs.declared.events.Woken.{Woken};
ghost use Rattle.operator_work.specs.Duties.{IsAt};
ghost use Rattle.phys_log.specs.declared.entries.Entry.{Entry};
ghost use Rattle.report_laws.specs.Nodes.{is_up};
ghost use Rattle.script_form.specs.declared.scripts.Act.{Act};
ghost use Rattle.script_form.specs.declared.scripts.Act.TheVariants as act;

/// At first all its lines are left. It stays where it is while it does nothing, whatever others do.
pub fn the_operator_stays()
    ensures first { (G : Setting) → IsPlan G → IsAt G [] (operators_from 0 (lines_to_do G)) false }
    ensures rests { (G : Setting) (old new : List (ℕ × Event)) (left : List (ℕ × Act)) (ordered : Bool) → AreLegalSteps G new
        → Rests 0 old new → IsAt G old left ordered → IsAt G new left ordered }
{}

/// A stop or a start is ordered, and then the node may be stopped or started, until it does something itself.
pub fn the_operator_orders()
    ensures may { (G : Setting) (h : List (ℕ × Event)) (line : ℕ) (a : Act) (rest : List (ℕ × Act)) → IsAt G h ((line, a) ∷ rest) false
        → IsOfNode a → MayTakeStep G h 0 event.Order }
    ensures then { (G : Setting) (old new : List (ℕ × Event)) (left : List (ℕ × Act)) → AreLegalSteps G new
        → Adds 0 event.Order old new → IsAt G old left false → IsAt G new left true }
    ensures stop { (G : Setting) (old new : List (ℕ × Event)) (line node : ℕ) (rest : List (ℕ × Act)) → AreLegalSteps G new → 1 ≤ node
        → Adds 0 event.Order old new → IsAt G old ((line, act.Stop node) ∷ rest) false
        → IsStopOrdered (lines_to_do G) (steps G new) node }
    ensures start { (G : Setting) (old new : List (ℕ × Event)) (line node : ℕ) (rest : List (ℕ × Act)) → AreLegalSteps G new → 1 ≤ node
        → Adds 0 event.Order old new → IsAt G old ((line, act.Start node) ∷ rest) false
        → IsStartOrdered (lines_to_do G) (steps G new) node }
    ensures stays { (G : Setting) (later h : List (ℕ × Event)) (node : ℕ) → entries_of node (later ++ h) ≡ entries_of node h
        → (IsStopOrdered (lines_to_do G) (steps G h) node → IsStopOrdered (lines_to_do G) (steps G (later ++ h)) node)
        × (IsStartOrdered (lines_to_do G) (steps G h) node → IsStartOrdered (lines_to_do G) (steps G (later ++ h)) node) }
{}

/// It sees that an ordered line is heeded, and is at the next one then.
pub fn the_operator_is_obeyed()
    ensures may { (G : Setting) (later before : List (ℕ × Event)) (line : ℕ) (a : Act) (rest : List (ℕ × Act))
        → IsAt G (later ++ before) ((line, a) ∷ rest) true → IsAt G before ((line, a) ∷ rest) true
        → IsOfNode a → IsHeededAt G (lines_to_do G) (steps G before) a → MayTakeStep G (later ++ before) 0 event.Obeyed }
    ensures then { (G : Setting) (old new : List (ℕ × Event)) (line : ℕ) (a : Act) (rest : List (ℕ × Act)) → AreLegalSteps G new
        → Adds 0 event.Obeyed old new → IsAt G old ((line, a) ∷ rest) true → IsAt G new rest false }
{}

/// The lines have a node down behind its fall, and up behind its rise, until it does something; and a fall by a fault heeds a start
/// that was ordered before it.
pub fn nodes_heed_orders()
    ensures stays { (G : Setting) (later h : List (ℕ × Event)) (node : ℕ) → entries_of node (later ++ h) ≡ entries_of node h
        → is_up node (lines G (steps G (later ++ h))) ≡ is_up node (lines G (steps G h)) }
    ensures down { (G : Setting) (old new : List (ℕ × Event)) (node : ℕ) (fault : Bool) → Adds node (event.Down fault) old new
        → is_up node (lines G (steps G new)) ≡ false }
    ensures up { (G : Setting) (old new : List (ℕ × Event)) (node : ℕ) (how : Woken) (promised accepted : ℕ)
        (entries : Snapshot (List Entry)) → Adds node (event.Up how promised accepted entries) old new
        → is_up node (lines G (steps G new)) ≡ true }
    ensures fell { (G : Setting) (h : List (ℕ × Event)) (node : ℕ) (left : List (ℕ × Act)) → IsAt G h left true
        → IsHeededAt G (lines_to_do G) (steps G ((node, event.Down true) ∷ h)) (act.Start node) }
{}

/// It tells a barrier, once each session that has lines left has the barriers so far and the next one behind it.
pub fn the_operator_tells_barriers()
    ensures may { (G : Setting) (h : List (ℕ × Event)) (line : ℕ) (rest : List (ℕ × Act)) → IsAt G h ((line, act.Barrier) ∷ rest) false
        → AllBeyond G (steps G h) → MayTakeStep G h 0 event.Barrier }
    ensures then { (G : Setting) (old new : List (ℕ × Event)) (line : ℕ) (rest : List (ℕ × Act)) → AreLegalSteps G new
        → Adds 0 event.Barrier old new → IsAt G old ((line, act.Barrier) ∷ rest) false → IsAt G new rest false }
{}
