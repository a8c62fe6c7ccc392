//! What a node may do that hears of an order.
ghost use Rattle.std.specs.Prelude.{ℕ, ◌≡◌, ◌≤◌, ◌∷◌, List, Option, Some, false};
ghost use Rattle.actor_trace.specs.Actors.{Knows};
ghost use Rattle.actor_trace.specs.History.{entries_of};
ghost use Rattle.actor_trace.specs.Lists.{Begins};
ghost use Rattle.cluster_events.specs.Operator.{IsStartOrdered, IsStopOrdered};
ghost use Rattle.cluster_events.specs.Settings.{Setting, lines_to_do};
ghost use Rattle.cluster_steps.specs.Named.{steps};
ghost use Rattle.cluster_steps.specs.declared.events.Event.{Event};
ghost use Rattle.cluster_steps.specs.declared.events.Event.TheVariants as event;
ghost use Rattle.operator_steps.specs.Turns.{DoesInTurn};
ghost use Rattle.operator_work.specs.Duties.{IsAt};
ghost use Rattle.script_form.specs.declared.scripts.Act.{Act};
ghost use Rattle.script_form.specs.declared.scripts.Act.TheVariants as act;

/// Who knows of the turn in which a node's stop or start was ordered knows that as ordered, where the node did nothing
/// since the note before that turn.
pub fn nodes_hear_of_orders()
    ensures stop { (G : Setting) (told seen : List (ℕ × Event)) (next : Option (List (ℕ × Event)))
        (old new : Knows Event) (line node : ℕ) (rest : List (ℕ × Act)) → DoesInTurn G event.Order (Some told) old new next
        → IsAt G old.seen ((line, act.Stop node) ∷ rest) false → 1 ≤ node → Begins new.seen seen
        → entries_of node seen ≡ entries_of node told → IsStopOrdered (lines_to_do G) (steps G seen) node }
    ensures start { (G : Setting) (told seen : List (ℕ × Event)) (next : Option (List (ℕ × Event)))
        (old new : Knows Event) (line node : ℕ) (rest : List (ℕ × Act)) → DoesInTurn G event.Order (Some told) old new next
        → IsAt G old.seen ((line, act.Start node) ∷ rest) false → 1 ≤ node → Begins new.seen seen
        → entries_of node seen ≡ entries_of node told → IsStartOrdered (lines_to_do G) (steps G seen) node }
{}
