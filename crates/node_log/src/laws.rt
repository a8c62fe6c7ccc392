ghost use Rattle.std.specs.Prelude.{ℕ, List};
ghost use Rattle.std.specs.List.{AllByRecursion};
ghost use Rattle.node_log.specs.Logged.{Logged, Stand, StandForOne};
ghost use Rattle.node_log.specs.Same.{IsNode, IsOfNode, IsSameLog, IsOneOf};

/// The law that a store tells one log: where its bytes stand for the log that a node had, and for the one that was
/// found when it was opened, the two are the same; and where they stand for one of some logs, it is one of these that
/// is found.
pub fn stores_tell_one_log()
    ensures same { (node cluster : ℕ) (bytes : List ℕ) (had found : Logged) → IsNode node cluster →
        IsOfNode node cluster had → IsOfNode node cluster found →
        ∥ Stand bytes had ∥₁ → ∥ Stand bytes found ∥₁ → IsSameLog had found }
    ensures among { (node cluster : ℕ) (bytes : List ℕ) (logs : List Logged) (found : Logged) → IsNode node cluster →
        AllByRecursion (IsOfNode node cluster) logs → IsOfNode node cluster found →
        ∥ StandForOne bytes logs ∥₁ → ∥ Stand bytes found ∥₁ → ∥ IsOneOf found logs ∥₁ }
{}
