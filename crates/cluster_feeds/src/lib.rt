//! What the operator of a cluster prints: barriers and feeds.
//!
//! ```text
//! ask ------- answered by a ping and a majority of pongs      fed D: not below any position that was told before the
//!                                                             operator's line before, as a begin is fresh
//! ask ------- few nodes are up at some place since            fed D: the last D again
//! ```
//!
//! The operator asks at a line `feed`, and at the end where a table is watched. It reads its own lines alone: barriers and
//! feeds. What was told before one of them stood before its ask, so a feed that is answered covers it.
//!
//! The functions here run nothing: each is a law, and its clauses are what is proved.
#![tactic(auto)]

ghost use Rattle.std.specs.Prelude.{ℕ, ◌≡◌, ◌++◌, [], List, length};
ghost use Rattle.cdb_values.specs.Rows.{Rows};
ghost use Rattle.cluster_consensus.specs.Facts.{Claim};
ghost use Rattle.cluster_events.specs.ByScript.{AllHeed};
ghost use Rattle.cluster_events.specs.Guards.{AreNamedApart, IsLegalHistory};
ghost use Rattle.cluster_events.specs.Operator.{duty, operators_from};
ghost use Rattle.cluster_events.specs.Parts.{ActorEvent, lines, field};
ghost use Rattle.cluster_events.specs.Settings.{Setting, basis_from, lines_to_do};
ghost use Rattle.cluster_feeds.specs.Fed.{IsFedLine};
ghost use Rattle.cluster_feeds.specs.Printed.{printed, to_print};
ghost use Rattle.cluster_masters.specs.FirstMaster.{IsFirstMaster, HasNoMaster};
ghost use Rattle.cluster_masters.specs.Reported.{IsReported};
ghost use Rattle.cluster_requests.specs.KeptEntries.{KeptEntry};
ghost use Rattle.report_laws.specs.View.{View};
ghost use Rattle.session_language.specs.Each.{EachAfter};

/// Barriers and feeds are printed in their order, each once: those that a report has, and those that are left to the
/// operator, are those of the script, with the feed at its end where a table is watched.
pub fn barriers_and_feeds_are_printed()
    ensures { (G : Setting) (h : List (ℕ × ActorEvent)) → AllHeed G (lines_to_do G) h
        → printed (lines G h) ++ to_print (duty (lines_to_do G) h).left ≡ to_print (operators_from 0 (lines_to_do G)) }
{}

/// Each line that tells of a feed is right behind the lines before it. With a first master, whose log is the base: it is
/// answered at a position from the base on and within the reported log, and fresh; or it repeats the last position, where
/// few nodes are up at a place since the operator's line before. Without one, it repeats.
pub fn feed_lines_are_right()
    ensures answered { (G : Setting) (h : List (ℕ × ActorEvent)) (r m : ℕ) (a : Claim KeptEntry) (rows : Rows)
        (view : View)
        → AreNamedApart G → G.nodes ≡ G.script.nodes → IsLegalHistory G h → IsReported G.nodes (field h).core r
        → IsFirstMaster G.nodes (field h).core m a → view.last ≡ length ((field h).core.nodes r).log
        → EachAfter (IsFedLine (basis_from G (length a.log) rows) view) [] (lines G h) }
    ensures repeats { (G : Setting) (h : List (ℕ × ActorEvent)) (base : ℕ) (rows : Rows) (view : View)
        → G.nodes ≡ G.script.nodes → IsLegalHistory G h → HasNoMaster G.nodes (field h).core
        → EachAfter (IsFedLine (basis_from G base rows) view) [] (lines G h) }
{}
