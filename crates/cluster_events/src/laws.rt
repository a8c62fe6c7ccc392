//! The laws of every legal history.
ghost use Rattle.std.specs.Prelude.{ℕ, ◌≡◌, ◌==◌, List, [], ◌++◌, false};
ghost use Rattle.core_lists.specs.Lists.{Each};
ghost use Rattle.cluster_events.specs.Guards.{AreNamedApart, IsLegalHistory, MayDo};
ghost use Rattle.cluster_events.specs.LinePlaces.{HasPlaceAmongNodes};
ghost use Rattle.cluster_events.specs.ByScript.{AllHeed, IsByScript};
ghost use Rattle.cluster_events.specs.Charged.{AreCharged};
ghost use Rattle.cluster_events.specs.Operator.{HavePlaces, duty, operators_from, acts_of};
ghost use Rattle.cluster_events.specs.Parts.{ActorEvent, part, lines, acts};
ghost use Rattle.cluster_events.specs.Parts.ActorEvent.{Ask};
ghost use Rattle.cluster_events.specs.Premises.{Steady};
ghost use Rattle.cluster_events.specs.Settings.{Setting, lines_to_do};
ghost use Rattle.cluster_requests.specs.Requests.{AllMay};
ghost use Rattle.report_laws.specs.Told.{told};
ghost use Rattle.script_form.specs.declared.scripts.BodyLine.{BodyLine};
ghost use Rattle.session_language.specs.Each.{EachAfter};

/// A session's lines in the report are those that it knows.
pub fn a_session_knows_its_lines()
    ensures { (G : Setting) (h : List (ℕ × ActorEvent)) (s : ℕ) → AreNamedApart G
        → told (G.names s) (lines G h) ≡ (part G s h).told }
{}

/// What the nodes do and what is asked of them in a legal history may happen, by the laws of requests.
pub fn acts_of_a_history_may_happen()
    ensures { (G : Setting) (h : List (ℕ × ActorEvent)) → IsLegalHistory G h → AllMay G.nodes (acts h) }
{}

/// Each line of a report has its place behind the lines before it: losses and missing majorities have their causes,
/// down lines are counted, and a node that goes down by a stop was up, one that comes up was down.
pub fn lines_have_their_places()
    ensures { (G : Setting) (h : List (ℕ × ActorEvent)) → G.nodes ≡ G.script.nodes → IsLegalHistory G h
        → EachAfter (HasPlaceAmongNodes G.script) [] (lines G h) }
{}

/// Each line of a node that a stop or a start made is charged to a line of the script of its own: to a stop or a
/// start of that node, or to an arm whose session was at the armed line then.
pub fn nodes_lines_are_charged()
    ensures { (G : Setting) (h : List (ℕ × ActorEvent)) → AreNamedApart G → AllHeed G (lines_to_do G) h
        → AreCharged G (lines_to_do G) (lines G h) }
{}

/// Where the operator did all its lines, they have places in the report, in their order.
pub fn the_operators_lines_have_places()
    ensures { (G : Setting) (h : List (ℕ × ActorEvent)) → AllHeed G (lines_to_do G) h → (duty (lines_to_do G) h).left
        ≡ []
        → HavePlaces (acts_of (operators_from 0 (lines_to_do G))) [] (lines G h) }
{}

/// What an actor may do it may do after any events of the others; only an ask may take another ticket.
pub fn what_is_enabled_stays_enabled()
    ensures stays { (G : Setting) (h more : List (ℕ × ActorEvent)) (i : ℕ) (e : ActorEvent) → AreNamedApart G → Steady G
        → IsLegalHistory G (more ++ h) → Each (λ x. (i == x.0) ≡ false) more → ((t : ℕ) → e ≡ Ask t → ⊥)
        → MayDo G h i e → MayDo G (more ++ h) i e }
    ensures asks { (G : Setting) (h more : List (ℕ × ActorEvent)) (i t : ℕ) → Each (λ x. (i == x.0) ≡ false) more
        → MayDo G h i (Ask t) → (u : ℕ) × MayDo G (more ++ h) i (Ask u) }
    ensures by_script { (G : Setting) (body : List BodyLine) (h more : List (ℕ × ActorEvent)) (i : ℕ) (e : ActorEvent) → AreNamedApart G
        → Steady G → IsLegalHistory G (more ++ h) → Each (λ x. (i == x.0) ≡ false) more → MayDo G h i e
        → IsByScript G body h i e → ((t : ℕ) → e ≡ Ask t → ⊥) → IsByScript G body (more ++ h) i e }
    ensures asks_by_script { (G : Setting) (body : List BodyLine) (h more : List (ℕ × ActorEvent)) (i t u : ℕ)
        → Steady G
        → IsLegalHistory G (more ++ h) → Each (λ x. (i == x.0) ≡ false) more
        → IsByScript G body h i (Ask t) → IsByScript G body (more ++ h) i (Ask u) }
{}
