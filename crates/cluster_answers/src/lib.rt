//! What sessions are told in every legal history of a cluster, and what the entries of its logs are.
//!
//! ```text
//! begin      asked --------- answered: not below any position that was told before the ask, nor below the base
//! replies    those of the transaction run alone on the rows at its begin position of a durable log
//! outcome    committed k: its entry stands at k; a refusal: the first entry that touches what it used, or the key
//!            that its rows would break
//! entry      of a store of an earlier run; or the setup; or what is decided of a request over the entries before it
//! ```
//!
//! Each of these was so over some durable log when it was told. The log that is reported begins with all of them, and
//! two logs with a common front show the same up to its end: so it is so in the report.
//!
//! The functions here run nothing: each is a law, and its clauses are what is proved.
#![tactic(auto)]

ghost use Rattle.std.specs.Prelude.{ℕ, ◌∷◌, ◌++◌, [], List, length};
ghost use Rattle.cdb_values.specs.Rows.{Rows};
ghost use Rattle.cluster_answers.specs.Entries.{Rule};
ghost use Rattle.node_reports.specs.Told.{IsToldAlong};
ghost use Rattle.cluster_consensus.specs.Facts.{Claim};
ghost use Rattle.cluster_events.specs.Guards.{AreNamedApart, IsLegalHistory, IsDone, Rising};
ghost use Rattle.cluster_events.specs.Parts.{ActorEvent, field, lines};
ghost use Rattle.cluster_events.specs.Settings.{Setting, basis, basis_from, log_view, work_of};
ghost use Rattle.cluster_masters.specs.FirstMaster.{IsFirstMaster};
ghost use Rattle.cluster_masters.specs.Reported.{IsReported};
ghost use Rattle.cluster_requests.specs.KeptEntries.{KeptEntry};
ghost use Rattle.core_lists.specs.Fronts.{Front};
ghost use Rattle.core_lists.specs.Lists.{In};
ghost use Rattle.report_laws.specs.Lawful.{IsFreshLine};
ghost use Rattle.report_laws.specs.Told.{told, Along};
ghost use Rattle.session_language.specs.Each.{EachAfter};

/// Each line that tells a begin is fresh: its position is at least 1, at least what the first master adopted, and at
/// least each position that a line told before its session's last line, or before a barrier.
pub fn begin_lines_are_fresh()
    ensures { (G : Setting) → AreNamedApart G → (h : List (ℕ × ActorEvent)) (m : ℕ) (a : Claim KeptEntry) (rows : Rows)
        → IsLegalHistory G h → IsFirstMaster G.nodes (field h).core m a
        → EachAfter (IsFreshLine (basis_from G (length a.log) rows).origin) [] (lines G h) }
{}

/// Each entry of each log that a node has or accepted is of a store of an earlier run, or is the setup over the empty
/// log, or what is decided of a request of a session over the entries before it.
pub fn entries_keep_the_rule()
    ensures held { (G : Setting) (h : List (ℕ × ActorEvent)) (k : ℕ) (xs : List KeptEntry) (e : KeptEntry)
        → IsLegalHistory G h
        → Front (xs ++ e ∷ []) ((field h).core.nodes k).log → Rule G h xs e }
    ensures accepted { (G : Setting) (h : List (ℕ × ActorEvent)) (k : ℕ) (c : Claim KeptEntry) (xs : List KeptEntry)
        (e : KeptEntry) → IsLegalHistory G h → In c ((field h).core.nodes k).accepts → Front (xs ++ e ∷ []) c.log
        → Rule G h xs e }
{}

/// A session that did all its lines was told its work, item by item, over the log that is reported: each
/// transaction its begin, the replies on the rows there, and an outcome that is right; or a front of these, and why
/// it is cut short.
pub fn sessions_are_told_rightly()
    ensures { (G : Setting) → AreNamedApart G → (h : List (ℕ × ActorEvent)) (r s : ℕ) → Rising 0 (work_of G s)
        → IsLegalHistory G h
        → IsReported G.nodes (field h).core r → IsDone G h s
        → Along (IsToldAlong (basis G) (log_view G ((field h).core.nodes r).log) (G.names s)) (work_of G s)
        (told (G.names s) (lines G h)) }
{}
