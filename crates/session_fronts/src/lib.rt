//! What a session knows of the log, and why it may rely on it wherever it reads.
//!
//! A session knows the entries up to a position: where its transaction began, or where its commit stands. It names them by the
//! generation that shipped them and their number, and each history in which they are known says which entries these are:
//!
//! ```text
//! asked for a begin      the leader of 3 answers: two entries are durable       known: { begin 2, gen 3 }
//!                        2 of 3 nodes confirm 3, by bits                        it may begin at 2
//! node 2 has 5 entries, and knows 3 of them as durable                          its first 2 entries are those
//! node 3 has 2 entries, and knows 1 of them as durable                          it can't tell yet
//! committed at 6         its entry is the sixth, by the leader of 4             known: { begin 6, gen 4 }
//! ```
//!
//! The functions here run nothing: each is a law, and its clauses are what is proved.
#![tactic(auto)]

ghost use Rattle.std.specs.Prelude.{ℕ, ◌≡◌, ◌≤◌, ◌<◌, ◌*◌, ◌++◌, ◌∷◌, [], List, Some, length, map, take};
ghost use Rattle.actor_trace.specs.History.{IsLegal, entries_of};
ghost use Rattle.cdb_values.specs.declared.tables.TableDef.{TableDef};
ghost use Rattle.cluster_begins.specs.Begins.{CanBegin};
ghost use Rattle.cluster_consensus.specs.Durable.{DurableIn};
ghost use Rattle.cluster_events.specs.Guards.{IsKept};
ghost use Rattle.cluster_events.specs.Parts.{Opened, field};
ghost use Rattle.cluster_events.specs.Settings.{Setting};
ghost use Rattle.cluster_requests.specs.KeptEntries.{KeptEntry, plain};
ghost use Rattle.cluster_steps.specs.Guards.{ArePages, MayTakeStep};
ghost use Rattle.cluster_steps.specs.Named.{steps, world};
ghost use Rattle.cluster_steps.specs.declared.events.Event.{Event};
ghost use Rattle.cluster_steps.specs.declared.events.Event.TheVariants as event;
ghost use Rattle.core_lists.specs.Lists.{In};
ghost use Rattle.core_lists.specs.Majorities.{count};
ghost use Rattle.election_core.specs.Counts.{has_bit, with_bit};
ghost use Rattle.log_replay.specs.Answers.{schema_of};
ghost use Rattle.phys_log.specs.declared.entries.CommitId.{CommitId};
ghost use Rattle.session_fronts.specs.Fronts.{front_of, IsAnswered, IsKnown};
ghost use Rattle.session_fronts.specs.Rounds.{AreConfirmed, EndsWith, IsConfirmed, IsProbed};

/// What is known has as many entries as its position says. It is what each node has there that knows so many as durable, and what
/// each durable log has there that is so long.
pub fn fronts_are_the_same()
    ensures size { (G : Setting) (h : List (ℕ × Event)) (o : Opened) → IsKnown G (world G h) o → length (front_of G (world G h) o) ≡ o.begin }
    ensures at_nodes { (G : Setting) (h : List (ℕ × Event)) (o : Opened) (k : ℕ) → IsLegal (λ g i e. MayTakeStep G g i e) h
        → IsKnown G (world G h) o → o.begin ≤ ((world G h).nodes k).durable
        → take o.begin ((world G h).nodes k).log ≡ front_of G (world G h) o }
    ensures durable { (G : Setting) (h : List (ℕ × Event)) (o : Opened) (g : ℕ) (d : List KeptEntry) → IsLegal (λ g i e. MayTakeStep G g i e) h
        → IsKnown G (world G h) o → DurableIn G.nodes (world G h) g d → o.begin ≤ length d
        → take o.begin d ≡ front_of G (world G h) o }
    ensures longer { (G : Setting) (h : List (ℕ × Event)) (o p : Opened) → IsLegal (λ g i e. MayTakeStep G g i e) h
        → IsKnown G (world G h) o → IsKnown G (world G h) p → o.begin ≤ p.begin
        → take o.begin (front_of G (world G h) p) ≡ front_of G (world G h) o }
{}

/// What is known stays known, and is the same ever after.
pub fn what_is_known_stays()
    ensures { (G : Setting) (later h : List (ℕ × Event)) (o : Opened) → IsLegal (λ g i e. MayTakeStep G g i e) (later ++ h)
        → IsKnown G (world G h) o
        → (front_of G (world G (later ++ h)) o ≡ front_of G (world G h) o) × IsKnown G (world G (later ++ h)) o }
{}

/// A begin that a leader answered is known. Its pages stand for its rows, and its tables are those of each durable log. It is at no
/// lower position than what was known when it was asked for.
pub fn begins_are_known()
    ensures known { (G : Setting) (h : List (ℕ × Event)) (o : Opened) → IsLegal (λ g i e. MayTakeStep G g i e) h
        → IsAnswered (world G h) o → IsKnown G (world G h) o }
    ensures pages { (G : Setting) (h : List (ℕ × Event)) (o : Opened) → IsLegal (λ g i e. MayTakeStep G g i e) h
        → IsAnswered (world G h) o → ArePages (front_of G (world G h) o) }
    ensures tables { (G : Setting) (h : List (ℕ × Event)) (o : Opened) (g : ℕ) (d : List KeptEntry) (tables : List TableDef)
        → IsLegal (λ g i e. MayTakeStep G g i e) h → IsKnown G (world G h) o → 1 ≤ o.begin
        → DurableIn G.nodes (world G h) g d → schema_of (map plain d) ≡ Some tables
        → schema_of (map plain (front_of G (world G h) o)) ≡ Some tables }
    ensures no_lower { (G : Setting) (s b g : ℕ) (later before : List (ℕ × Event)) (o : Opened)
        → IsLegal (λ g i e. MayTakeStep G g i e) (later ++ (s, event.Ask) ∷ before) → IsKnown G (world G before) o
        → CanBegin G.nodes (world G (later ++ (s, event.Ask) ∷ before)) (length before) b g → o.begin ≤ b }
{}

/// A commit that may be told is known: its entry ends what is known then.
pub fn commits_are_known()
    ensures { (G : Setting) (h : List (ℕ × Event)) (id : CommitId) (position : ℕ) (k : IsKept (field (steps G h)) id position)
        → IsLegal (λ g i e. MayTakeStep G g i e) h
        → IsKnown G (world G h) (record { begin = position; gen = k.gen })
        × (front_of G (world G h) (record { begin = position; gen = k.gen }) ≡ k.before ++ k.entry ∷ []) }
{}

/// The round of a begin. An ask is called by its place in the history. Whose last step was a probe told it, by its numbers, and
/// whose last step was a confirmation told that; both stay told. Where the bits of confirmations are more than half of the nodes,
/// the begin may be told.
pub fn counted_begins_can_begin()
    ensures asked { (G : Setting) (h : List (ℕ × Event)) (s : ℕ) → In (length h) (world G ((s, event.Ask) ∷ h)).asks }
    ensures probed { (G : Setting) (h : List (ℕ × Event)) (k ask : ℕ) → EndsWith (event.Probe ask) (entries_of k h)
        → IsProbed (world G h) ask ((world G h).nodes k).durable ((world G h).nodes k).accepted k }
    ensures confirmed { (G : Setting) (h : List (ℕ × Event)) (k ask generation : ℕ)
        → EndsWith (event.Confirm ask generation) (entries_of k h) → IsConfirmed (world G h) ask generation k }
    ensures probed_stays { (G : Setting) (later h : List (ℕ × Event)) (ask position generation leader : ℕ)
        → IsProbed (world G h) ask position generation leader → IsProbed (world G (later ++ h)) ask position generation leader }
    ensures confirmed_stays { (G : Setting) (later h : List (ℕ × Event)) (ask generation leader bits : ℕ)
        → AreConfirmed (world G h) ask generation leader bits → AreConfirmed (world G (later ++ h)) ask generation leader bits }
    ensures none { (G : Setting) (h : List (ℕ × Event)) (ask generation leader : ℕ) → AreConfirmed (world G h) ask generation leader 0 }
    ensures leader { (G : Setting) (h : List (ℕ × Event)) (ask generation leader bits : ℕ)
        → AreConfirmed (world G h) ask generation leader bits
        → AreConfirmed (world G h) ask generation leader (with_bit bits leader) }
    ensures more { (G : Setting) (h : List (ℕ × Event)) (ask generation leader bits k : ℕ)
        → AreConfirmed (world G h) ask generation leader bits → IsConfirmed (world G h) ask generation k
        → AreConfirmed (world G h) ask generation leader (with_bit bits k) }
    ensures begins { (G : Setting) (h : List (ℕ × Event)) (ask position generation leader bits : ℕ)
        → IsProbed (world G h) ask position generation leader → AreConfirmed (world G h) ask generation leader bits
        → G.nodes < 2 * count G.nodes (λ k. has_bit bits k)
        → CanBegin G.nodes (world G h) ask position generation
        × IsAnswered (world G h) (record { begin = position; gen = generation }) }
{}
