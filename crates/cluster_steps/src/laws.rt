//! The laws of named events.
ghost use Rattle.std.specs.Prelude.{ℕ, ◌≡◌, List, ◌++◌, length};
ghost use Rattle.actor_trace.specs.History.{IsLegal, entries_of};
ghost use Rattle.cluster_consensus.specs.Events.{NodeEvent};
ghost use Rattle.cluster_consensus.specs.Histories.{Legal, after};
ghost use Rattle.cluster_events.specs.ByScript.{AllHeed};
ghost use Rattle.cluster_events.specs.Guards.{IsLegalHistory};
ghost use Rattle.cluster_events.specs.Parts.{part};
ghost use Rattle.cluster_events.specs.Settings.{Setting, lines_to_do};
ghost use Rattle.cluster_requests.specs.KeptEntries.{KeptEntry};
ghost use Rattle.cluster_steps.specs.Guards.{MayTakeStep, IsExact};
ghost use Rattle.cluster_steps.specs.Named.{named, steps, world};
ghost use Rattle.cluster_steps.specs.declared.events.Event.{Event};
ghost use Rattle.cluster_steps.specs.declared.events.Event.TheVariants as event;
ghost use Rattle.election_core.specs.More.{TellsMore};

/// The whole history that a history of named events is has as many events. It is legal and by the script where each of
/// its events might be done; and its nodes are those after a legal history of consensus.
pub fn named_histories_are_legal()
    ensures size { (G : Setting) (h : List (ℕ × Event)) → length (steps G h) ≡ length h }
    ensures legal { (G : Setting) (h : List (ℕ × Event)) → IsLegal (λ g i e. MayTakeStep G g i e) h → IsLegalHistory G (steps G h) }
    ensures by_script { (G : Setting) (h : List (ℕ × Event)) → IsLegal (λ g i e. MayTakeStep G g i e) h → AllHeed G (lines_to_do G) (steps G h) }
    ensures core { (G : Setting) (h : List (ℕ × Event)) → IsLegal (λ g i e. MayTakeStep G g i e) h
        → (c : List (ℕ × NodeEvent KeptEntry)) × Legal G.nodes c × (world G h ≡ after c) }
{}

/// What was told stays told.
pub fn what_was_told_stays_told()
    ensures { (G : Setting) (later h : List (ℕ × Event)) → TellsMore (world G h) (world G (later ++ h)) }
{}

/// Who does nothing stays as it is: a node, and where a session or the operator is.
pub fn who_does_nothing_stays()
    ensures node { (G : Setting) (i : ℕ) (later h : List (ℕ × Event)) → entries_of i (later ++ h) ≡ entries_of i h
        → (world G (later ++ h)).nodes i ≡ (world G h).nodes i }
    ensures part { (G : Setting) (i : ℕ) (later h : List (ℕ × Event)) → entries_of i (later ++ h) ≡ entries_of i h
        → part G i (steps G (later ++ h)) ≡ part G i (steps G h) }
{}

/// A name means the same while its actor does nothing; only an ask, which is called by its ticket, is another one then.
pub fn names_stay()
    ensures { (G : Setting) (later h : List (ℕ × Event)) (i : ℕ) (e : Event) → IsLegal (λ g j f. MayTakeStep G g j f) (later ++ h)
        → entries_of i (later ++ h) ≡ entries_of i h → (e ≡ event.Ask → ⊥) → IsExact G (steps G h) i e
        → (named G (steps G (later ++ h)) i e ≡ named G (steps G h) i e) × IsExact G (steps G (later ++ h)) i e }
{}

/// What an actor may do it may do while it does nothing, whatever others do.
pub fn what_may_be_done_stays()
    ensures { (G : Setting) (later h : List (ℕ × Event)) (i : ℕ) (e : Event) → IsLegal (λ g j f. MayTakeStep G g j f) (later ++ h)
        → entries_of i (later ++ h) ≡ entries_of i h → MayTakeStep G h i e → MayTakeStep G (later ++ h) i e }
{}
