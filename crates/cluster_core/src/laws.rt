//! The laws of every history that a run of the machine makes.
ghost use Rattle.std.specs.Prelude.{ℕ, ◌≡◌, ◌≤◌, ◌<◌, ◌⊎◌, List, [], ◌++◌, length, map, take};
ghost use Rattle.actor_trace.specs.History.{IsLegal};
ghost use Rattle.cluster_consensus.specs.Durable.{DurableIn};
ghost use Rattle.cluster_consensus.specs.Facts.{Claim};
ghost use Rattle.cluster_core.specs.Kept.{ground_of};
ghost use Rattle.cluster_events.specs.ByScript.{AllHeed};
ghost use Rattle.cluster_events.specs.Guards.{IsLegalHistory};
ghost use Rattle.cluster_events.specs.Settings.{Setting, lines_to_do};
ghost use Rattle.cluster_requests.specs.KeptEntries.{KeptEntry, plain};
ghost use Rattle.cluster_steps.specs.Guards.{MayTakeStep, PagesStand};
ghost use Rattle.cluster_steps.specs.Named.{steps, world};
ghost use Rattle.cluster_steps.specs.declared.events.Event.{Event};
ghost use Rattle.core_lists.specs.Fronts.{Front};
ghost use Rattle.core_lists.specs.Lists.{In};
ghost use Rattle.log_rows.specs.History.{StandsOver, tables_of};

/// The history of a run is a legal history of the cluster, and it is by the script: so each law of `cluster_events`,
/// `cluster_answers`, `cluster_reports` and `cluster_feeds` holds of it.
pub fn a_runs_history_is_legal()
    ensures legal { (G : Setting) (h : List (ℕ × Event)) → IsLegal (λ g i e. MayTakeStep G g i e) h → IsLegalHistory G (steps G h) }
    ensures by_script { (G : Setting) (h : List (ℕ × Event)) → IsLegal (λ g i e. MayTakeStep G g i e) h → AllHeed G (lines_to_do G) (steps G h) }
{}

/// Of two logs that are durable, each in some generation, one begins with the other.
pub fn durable_logs_agree()
    ensures { (G : Setting) (h : List (ℕ × Event)) (c b : ℕ) (d e : List KeptEntry)
        → IsLegal (λ g i e. MayTakeStep G g i e) h
        → DurableIn G.nodes (world G h) c d → DurableIn G.nodes (world G h) b e → Front d e ⊎ Front e d }
{}

/// What a node knows as durable is durable, stands in its log, and never leaves it.
pub fn known_positions_stay()
    ensures durable { (G : Setting) (h : List (ℕ × Event)) (k : ℕ) → IsLegal (λ g i e. MayTakeStep G g i e) h → 0 < ((world G h).nodes k).durable
        → (g : ℕ) × DurableIn G.nodes (world G h) g (take ((world G h).nodes k).durable ((world G h).nodes k).log) }
    ensures within { (G : Setting) (h : List (ℕ × Event)) (k : ℕ) → IsLegal (λ g i e. MayTakeStep G g i e) h
        → ((world G h).nodes k).durable ≤ length ((world G h).nodes k).log }
    ensures stays { (G : Setting) (h later : List (ℕ × Event)) (k : ℕ)
        → IsLegal (λ g i e. MayTakeStep G g i e) (later ++ h)
        → Front (take ((world G h).nodes k).durable ((world G h).nodes k).log) ((world G (later ++ h)).nodes k).log }
{}

/// A log that is accepted above a generation begins with each log that is durable in it.
pub fn later_generations_keep_durable_logs()
    ensures { (G : Setting) (h : List (ℕ × Event)) (g k : ℕ) (d : List KeptEntry) (c : Claim KeptEntry) → IsLegal (λ g i e. MayTakeStep G g i e) h
        → DurableIn G.nodes (world G h) g d → In c ((world G h).nodes k).accepts → g < c.gen → Front d c.log }
{}

/// The pages of each log of a node that is not empty stand for the rows that it keeps. Let a leader's adopted log be
/// durable in its generation, as the first master's is. Then the pages of each log that is accepted from then on stand
/// at each position from that log on, for the rows that its entries make over the rows there.
pub fn pages_stand()
    ensures held { (G : Setting) (h : List (ℕ × Event)) (k : ℕ) → IsLegal (λ g i e. MayTakeStep G g i e) h → PagesStand ((world G h).nodes k).log }
    ensures from_the_base { (G : Setting) (h : List (ℕ × Event)) (m k : ℕ) (a c : Claim KeptEntry) → IsLegal (λ g i e. MayTakeStep G g i e) h
        → In a ((world G h).nodes m).leads → DurableIn G.nodes (world G h) a.gen a.log
        → In c ((world G h).nodes k).accepts → a.gen ≤ c.gen
        → StandsOver (ground_of a.log) (tables_of (map plain c.log)) (map plain c.log) }
{}

/// Where a leader's adopted log is durable in its generation, and is empty or has the script's tables, each log that is
/// accepted from then on is empty or has them.
pub fn tables_are_the_scripts()
    ensures { (G : Setting) (h : List (ℕ × Event)) (m k : ℕ) (a c : Claim KeptEntry) → IsLegal (λ g i e. MayTakeStep G g i e) h
        → In a ((world G h).nodes m).leads → DurableIn G.nodes (world G h) a.gen a.log
        → (a.log ≡ []) ⊎ (tables_of (map plain a.log) ≡ G.tables)
        → In c ((world G h).nodes k).accepts → a.gen ≤ c.gen
        → (c.log ≡ []) ⊎ (tables_of (map plain c.log) ≡ G.tables) }
{}
