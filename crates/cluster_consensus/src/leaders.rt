//! A generation has one leader, and all its logs are fronts of that leader's.
ghost use Rattle.std.specs.Prelude.{ℕ, ◌≡◌, ◌<◌, ◌≤◌, ◌⊎◌, Some, List, length};
ghost use Rattle.core_lists.specs.Fronts.{Front};
ghost use Rattle.core_lists.specs.Lists.{In, Has};
ghost use Rattle.cluster_consensus.specs.Facts.{Claim, Admit};
ghost use Rattle.cluster_consensus.specs.Events.{NodeEvent};
ghost use Rattle.cluster_consensus.specs.Histories.{Legal, after};
ghost use Rattle.cluster_consensus.specs.Shipped.{find_log};

/// No node accepts above what it promised.
pub fn promise_covers_acceptance<E>()
    ensures { (n i : ℕ) (h : List (ℕ × NodeEvent E)) → Legal n h
        → ((after h).nodes i).accepted ≤ ((after h).nodes i).promised }
{}

/// Who leads one generation is one node, and it adopted one log.
pub fn one_leader_a_generation<E>()
    ensures { (n m k : ℕ) (h : List (ℕ × NodeEvent E)) (a b : Claim E) → Legal n h → In a ((after h).nodes m).leads
        → In b ((after h).nodes k).leads → a.gen ≡ b.gen → (m ≡ k) × (a.log ≡ b.log) }
{}

/// A generation that is led is above every acceptance of a store of an earlier run.
pub fn led_above_admitted<E>()
    ensures { (n m : ℕ) (h : List (ℕ × NodeEvent E)) (l : Claim E) (a : Admit) → Legal n h
        → In l ((after h).nodes m).leads
        → In a (after h).admits → a.accepted < l.gen }
{}

/// A log that is accepted in a generation begins with what that generation's leader adopted, and is a
/// front of what this leader accepted in it. Of two such logs one is a front of the other.
pub fn logs_follow_their_leader<E>()
    ensures follow { (n k : ℕ) (h : List (ℕ × NodeEvent E)) (c : Claim E) → Legal n h
        → In c ((after h).nodes k).accepts
        → (m : ℕ) × Has (λ l. (l.gen ≡ c.gen) × Front l.log c.log) ((after h).nodes m).leads
        × Has (λ d. (d.gen ≡ c.gen) × Front c.log d.log) ((after h).nodes m).accepts }
    ensures agree { (n j k : ℕ) (h : List (ℕ × NodeEvent E)) (c d : Claim E) → Legal n h
        → In c ((after h).nodes j).accepts
        → In d ((after h).nodes k).accepts → c.gen ≡ d.gen → Front c.log d.log ⊎ Front d.log c.log }
{}

/// A generation and a length tell a log: the front of that length of what was shipped in that generation
/// is found by looking through the ships of the nodes 1 to `n`.
pub fn a_length_tells_the_log<E>()
    ensures { (n g m : ℕ) (h : List (ℕ × NodeEvent E)) (s : Claim E) (l : List E) → Legal n h → 0 < m → m ≤ n
        → In s ((after h).nodes m).ships → s.gen ≡ g → Front l s.log
        → find_log (after h) g (length l) n ≡ Some l }
{}
