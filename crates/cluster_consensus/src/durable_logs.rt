//! What is durable stays, and all durable logs are fronts of one log.
ghost use Rattle.std.specs.Prelude.{ℕ, ◌≡◌, ◌<◌, ◌≤◌, ◌⊎◌, ◌++◌, List, length, take};
ghost use Rattle.core_lists.specs.Fronts.{Front};
ghost use Rattle.core_lists.specs.Lists.{In, Has};
ghost use Rattle.cluster_consensus.specs.Facts.{Claim};
ghost use Rattle.cluster_consensus.specs.Events.{NodeEvent};
ghost use Rattle.cluster_consensus.specs.Histories.{Legal, after};
ghost use Rattle.cluster_consensus.specs.Durable.{DurableIn, DurableAt};
ghost use Rattle.cluster_consensus.specs.Committed.{IsCommitted};

/// Of two durable logs one is a front of the other.
pub fn durable_logs_agree<E>()
    ensures { (n : ℕ) (h : List (ℕ × NodeEvent E)) (d e : List E) → Legal n h → DurableAt n h d → DurableAt n h e
        → Front d e ⊎ Front e d }
{}

/// A log that is durable in a generation is durable in it after whatever happens later.
pub fn durable_logs_stay_durable<E>()
    ensures { (n g : ℕ) (h later : List (ℕ × NodeEvent E)) (d : List E) → Legal n (later ++ h)
        → DurableIn n (after h) g d
        → DurableIn n (after (later ++ h)) g d }
{}

/// Where a log is durable in generation `g`, each log that is accepted above `g` begins with it. A leader
/// above `g` adopted what itself had accepted in `g` or later.
pub fn later_generations_keep_durable_logs<E>()
    ensures kept { (n g k : ℕ) (h : List (ℕ × NodeEvent E)) (d : List E) (c : Claim E) → Legal n h
        → DurableIn n (after h) g d
        → In c ((after h).nodes k).accepts → g < c.gen → Front d c.log }
    ensures adopted { (n g m : ℕ) (h : List (ℕ × NodeEvent E)) (d : List E) (l : Claim E) → Legal n h
        → DurableIn n (after h) g d
        → In l ((after h).nodes m).leads → g < l.gen
        → Has (λ c. (g ≤ c.gen) × (c.gen < l.gen) × (c.log ≡ l.log)) ((after h).nodes m).accepts }
{}

/// What a node knows as durable is durable, is in its log, and never leaves its log.
pub fn known_positions_stay<E>()
    ensures durable { (n i : ℕ) (h : List (ℕ × NodeEvent E)) → Legal n h → 0 < ((after h).nodes i).durable
        → DurableAt n h (take ((after h).nodes i).durable ((after h).nodes i).log) }
    ensures within { (n i : ℕ) (h : List (ℕ × NodeEvent E)) → Legal n h
        → ((after h).nodes i).durable ≤ length ((after h).nodes i).log }
    ensures stays { (n i : ℕ) (h later : List (ℕ × NodeEvent E)) → Legal n (later ++ h)
        → Front (take ((after h).nodes i).durable ((after h).nodes i).log) ((after (later ++ h)).nodes i).log }
{}

/// A front of what was shipped in a generation, which a length told durable in that same generation
/// reaches, is durable in it.
pub fn committed_positions_are_durable<E>()
    ensures { (n g : ℕ) (h : List (ℕ × NodeEvent E)) (f : List E) → Legal n h → IsCommitted (after h) g f
        → DurableIn n (after h) g f }
{}
