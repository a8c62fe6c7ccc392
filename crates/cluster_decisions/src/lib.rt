//! What the block processor decides is what the guards of appends and refusals ask.
//!
//! ```text
//! block processor   decides over the log as it is stored, with the rows at a position of it as its ground
//! cluster_events    asks over the log with the rows behind each entry
//!
//! Commit entry      the entry may be appended, kept with the rows behind it: what it makes of those before it
//! Conflict          the first entry that touches what was used, told as the laws of reports tell it
//! Duplicate         the first key that is broken, by its name
//! ```
//!
//! The functions here run nothing: each is a law, and its clauses are what is proved.
#![tactic(auto)]

ghost use Rattle.std.specs.Prelude.{ℕ, ◌≡◌, ◌≤◌, List, length, map, Some, take, true, ◌++◌, ◌∷◌, []};
ghost use Rattle.actor_trace.specs.History.{IsLegal};
ghost use Rattle.block_processor.specs.Asked.{IsAsked};
ghost use Rattle.block_processor.specs.Decided.{Decides};
ghost use Rattle.cdb_values.specs.Good.{AllFit, KeyName};
ghost use Rattle.cdb_values.specs.Rows.{apply_all};
ghost use Rattle.cdb_values.specs.declared.items.Item.{Item};
ghost use Rattle.cdb_values.specs.declared.replies.Reply.{Reply};
ghost use Rattle.cdb_values.specs.declared.replies.Reply.TheVariants as reply;
ghost use Rattle.cluster_decisions.specs.Requested.{
  stored_entries,
  IsRequestOf,
  IsOfSent,
  FitsRows,
  AreMadeBehind,
  ground_at,
};
ghost use Rattle.cluster_events.specs.Guards.{IsRightlyAppended, IsRightRefusal, Refuses};
ghost use Rattle.cluster_events.specs.Parts.{field};
ghost use Rattle.cluster_events.specs.Settings.{Setting, basis, log_view};
ghost use Rattle.cluster_requests.specs.KeptEntries.{KeptEntry, plain, state_of};
ghost use Rattle.cluster_requests.specs.Requests.{Sent, Field, May, MayAppend};
ghost use Rattle.cluster_steps.specs.Guards.{MayTakeStep, PagesStand, IsOfSchema};
ghost use Rattle.cluster_requests.specs.Requests.FieldAct.{ToRepeat};
ghost use Rattle.cluster_steps.specs.Named.{kept_over, refusal_line, steps, world};
ghost use Rattle.cluster_steps.specs.declared.events.Event.{Event};
ghost use Rattle.core_lists.specs.Lists.{Each, In};
ghost use Rattle.log_replay.specs.Answers.{schema_of};
ghost use Rattle.log_rows.specs.History.{Ground, rows_over, rows_after, tables_of};
ghost use Rattle.phys_log.specs.declared.entries.Entry.{Entry};
ghost use Rattle.phys_log.specs.declared.requests.CommitRequest.{CommitRequest};
ghost use Rattle.phys_log.specs.declared.requests.Decision.{Decision};
ghost use Rattle.phys_log.specs.declared.requests.Decision.TheVariants as decision;
ghost use Rattle.range_validate.specs.Used.{item_of};
ghost use Rattle.report_laws.specs.Outcome.{IsConflict, conflict_line};
ghost use Rattle.session_language.specs.Touched.{Used};
ghost use Rattle.table_edits.specs.Broken.{named};

/// An entry that is decided of a request that was sent to a leader in its generation, and is not settled, may be
/// appended, kept with the rows behind it. These are what the entry makes of the rows before it.
pub fn decided_entries_may_be_appended()
    ensures appends { (G : Setting) (log : List KeptEntry) (footing : Ground) (sent : Sent) (request : CommitRequest)
        → IsRequestOf G log footing sent request → (f : Field) (i generation : ℕ) (next : Entry)
        → (f.core.nodes i).log ≡ log → generation ≡ (f.core.nodes i).accepted
        → In sent f.sends → sent.to ≡ i → sent.gen ≡ (f.core.nodes i).accepted
        → Each (λ t. sent.id ≡ t → ⊥) (f.settled i) → AllFit G.tables (apply_all (state_of log) sent.ops).tables
        → Decides footing request (stored_entries log) generation (decision.Commit next)
        → (e : KeptEntry) × (plain e ≡ next) × MayAppend f i e × IsRightlyAppended G f i log e }
    ensures made { (G : Setting) (log : List KeptEntry) (footing : Ground) (sent : Sent) (request : CommitRequest)
        (generation : ℕ) (next : Entry) → IsRequestOf G log footing sent request
        → Decides footing request (stored_entries log) generation (decision.Commit next)
        → apply_all (state_of log) sent.ops ≡ rows_after (state_of log) next }
{}

/// So may the event that names it: what it appends is that entry, and the pages of the log with it stand.
pub fn decided_entries_are_named()
    ensures { (G : Setting) (log : List KeptEntry) (footing : Ground) (sent : Sent) (request : CommitRequest)
        → IsRequestOf G log footing sent request → (f : Field) (i generation : ℕ) (next : Entry)
        → (f.core.nodes i).log ≡ log → generation ≡ (f.core.nodes i).accepted
        → In sent f.sends → sent.to ≡ i → sent.gen ≡ (f.core.nodes i).accepted
        → Each (λ t. sent.id ≡ t → ⊥) (f.settled i) → AllFit G.tables (apply_all (state_of log) sent.ops).tables
        → schema_of (stored_entries log) ≡ Some (tables_of (stored_entries log))
        → Decides footing request (stored_entries log) generation (decision.Commit next)
        → (plain (kept_over log next) ≡ next) × MayAppend f i (kept_over log next) × IsRightlyAppended G f i log (kept_over log next)
        × PagesStand (log ++ kept_over log next ∷ []) × IsOfSchema G.tables (kept_over log next) }
{}

/// A request that was sent to a node which leads in its generation is one that can be decided over the node's log, with the
/// rows at its begin as the ground, where it is what its session computed over these rows; and it is the one that was sent
/// over that ground, where the log has the script's tables.
pub fn requests_are_asked()
    ensures asked { (G : Setting) (h : List (ℕ × Event)) (i : ℕ) (sent : Sent) (request : CommitRequest)
        → IsLegal (λ g j e. MayTakeStep G g j e) h → ((world G h).nodes i).leading ≡ true
        → In sent (field (steps G h)).sends → sent.gen ≡ ((world G h).nodes i).accepted
        → request.ops ≡ sent.ops → request.begin ≡ sent.begin
        → FitsRows (tables_of (stored_entries ((world G h).nodes i).log))
        (state_of (take sent.begin ((world G h).nodes i).log)) request
        → IsAsked (ground_at (state_of (take sent.begin ((world G h).nodes i).log)) sent.begin) request
        (stored_entries ((world G h).nodes i).log) }
    ensures of_log { (G : Setting) (h : List (ℕ × Event)) (i : ℕ) (sent : Sent) (request : CommitRequest)
        → IsLegal (λ g j e. MayTakeStep G g j e) h → ((world G h).nodes i).leading ≡ true
        → In sent (field (steps G h)).sends → sent.gen ≡ ((world G h).nodes i).accepted
        → tables_of (stored_entries ((world G h).nodes i).log) ≡ G.tables → IsOfSent G sent request
        → IsRequestOf G ((world G h).nodes i).log
        (ground_at (state_of (take sent.begin ((world G h).nodes i).log)) sent.begin) sent request }
{}

/// A refusal that is decided is right as it is told: a duplicate by the name of its key, and a conflict, where what was
/// used has a name.
pub fn decided_refusals_are_right()
    ensures duplicates { (G : Setting) (log : List KeptEntry) (footing : Ground) (sent : Sent) (request : CommitRequest)
        → IsRequestOf G log footing sent request → (generation position table key : ℕ)
        → Decides footing request (stored_entries log) generation (decision.Duplicate position table key)
        → (n : KeyName) × (named G.tables (Some (record { table = table; key = key })) ≡ Some n)
        × IsRightRefusal G log sent (reply.Duplicate position n.table n.key) }
    ensures conflicts { (G : Setting) (log : List KeptEntry) (footing : Ground) (sent : Sent) (request : CommitRequest)
        → IsRequestOf G log footing sent request → (generation position : ℕ) (item : Item)
        → Decides footing request (stored_entries log) generation (decision.Conflict position item)
        → (u : Used) × (item_of u ≡ item) × ((told : Reply) → conflict_line G.tables position u ≡ Some told
        → IsConflict (basis G) (log_view G log) sent.begin position sent.used sent.ops told) }
{}

/// So may the event that names it: what it tells of a refusal, where that has a line, and of an entry that is there already.
pub fn decided_answers_are_named()
    ensures refusals { (G : Setting) (log : List KeptEntry) (footing : Ground) (sent : Sent) (request : CommitRequest)
        → IsRequestOf G log footing sent request → (f : Field) (i generation : ℕ) (d : Decision) (told : Reply)
        → In sent f.sends → sent.to ≡ i → sent.gen ≡ (f.core.nodes i).accepted
        → Decides footing request (stored_entries log) generation d → refusal_line G.tables d ≡ Some told
        → Refuses G f i log sent.id told }
    ensures repeats { (G : Setting) (log : List KeptEntry) (footing : Ground) (sent : Sent) (request : CommitRequest)
        → IsRequestOf G log footing sent request → (f : Field) (i generation position : ℕ)
        → (f.core.nodes i).log ≡ log → (f.core.nodes i).up ≡ true → (f.core.nodes i).leading ≡ true
        → In sent f.sends → sent.to ≡ i → sent.gen ≡ (f.core.nodes i).accepted
        → Decides footing request (stored_entries log) generation (decision.Repeat position)
        → May G.nodes f i (ToRepeat sent.id position) }
{}

/// Over the ground at a begin, with the rows there, the rows of a log are those that it keeps, where each entry behind
/// the begin is kept with what it makes.
pub fn rows_over_a_begin_are_kept()
    ensures { (log : List KeptEntry) (begin : ℕ) → begin ≤ length log → AreMadeBehind begin log
        → rows_over (ground_at (state_of (take begin log)) begin) (stored_entries log) ≡ state_of log }
{}
