//! The laws of reported node and first master.
ghost use Rattle.std.specs.Prelude.{◌≡◌, ◌⊎◌, ◌<◌, ◌≤◌, ℕ, List, length};
ghost use Rattle.actor_trace.specs.History.{IsLegal};
ghost use Rattle.cluster_consensus.specs.Facts.{Claim};
ghost use Rattle.cluster_events.specs.Settings.{Setting};
ghost use Rattle.cluster_masters.specs.FirstMaster.{HasNoMaster, IsFirstMaster};
ghost use Rattle.cluster_masters.specs.Reported.{IsReported};
ghost use Rattle.cluster_requests.specs.KeptEntries.{KeptEntry};
ghost use Rattle.cluster_steps.specs.Guards.{MayTakeStep};
ghost use Rattle.cluster_steps.specs.Named.{world};
ghost use Rattle.cluster_steps.specs.declared.events.Event.{Event};
ghost use Rattle.history_base.specs.Tail.{AreNoted, tail};

/// The reported node is one of the nodes, and none has a greater pair of accepted generation and length.
pub fn the_reported_node_is_told()
    ensures { (G : Setting) (lengths : List (List ℕ)) (h : List (ℕ × Event)) → 0 < G.nodes → AreNoted G.nodes lengths h
        → IsLegal (λ g i e. MayTakeStep G g i e) h
        → (0 < (tail G.nodes lengths h).reported) × ((tail G.nodes lengths h).reported ≤ G.nodes)
        × IsReported G.nodes (world G h) (tail G.nodes lengths h).reported }
{}

/// The base is the length of what the first master adopted; and where there is none, that of the reported log.
pub fn the_first_master_is_told()
    ensures { (G : Setting) (lengths : List (List ℕ)) (h : List (ℕ × Event)) → 0 < G.nodes → AreNoted G.nodes lengths h
        → IsLegal (λ g i e. MayTakeStep G g i e) h
        → ((m : ℕ) × (a : Claim KeptEntry) × IsFirstMaster G.nodes (world G h) m a × ((tail G.nodes lengths h).base ≡ length a.log))
        ⊎ (HasNoMaster G.nodes (world G h)
        × ((tail G.nodes lengths h).base ≡ length ((world G h).nodes (tail G.nodes lengths h).reported).log)) }
{}
