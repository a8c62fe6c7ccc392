//! Lists and majorities, for the laws on clusters.
//!
//! ```text
//! Front xs ys        ys begins with xs:  [a b] is a front of [a b c]
//! In x xs            x stands in xs
//! Each P xs          P holds of each element        Has P xs    P holds of one, which is named
//! count n q          how many of the numbers from 1 to n the test q takes
//! Majority n P       P holds of more than half of the numbers from 1 to n
//! ```
//!
//! Nodes have the numbers from 1, so of three nodes two are a majority, and of four it takes three. Two
//! majorities share a node: whatever two of them say, one node has said both. All agreement in a cluster
//! rests on that one fact.
//!
//! The definitions stand in `specs/`, and the lemmas that other crates cite in `proofs/`. The functions
//! here run nothing: each is a law, and its clause is what is proved.
#![tactic(auto)]

ghost use Rattle.std.specs.Prelude.{ℕ, ◌≡◌, ◌*◌, ◌<◌, ◌≤◌, ◌⊎◌, Bool, true, List, length};
ghost use Rattle.core_lists.specs.Fronts.{Front};
ghost use Rattle.core_lists.specs.Majorities.{count};

/// Two tests, each of which takes more than half of the numbers from 1 to `n`, both take one of them.
pub fn majorities_share_a_node()
    ensures { (n : ℕ) (p q : ℕ → Bool) → n < 2 * count n p → n < 2 * count n q
        → (k : ℕ) × (0 < k) × (k ≤ n) × (p k ≡ true) × (q k ≡ true) }
{}

/// Of two fronts of one log one is a front of the other.
pub fn fronts_of_one_log_agree<E>()
    ensures { (xs ys zs : List E) → Front xs zs → Front ys zs → Front xs ys ⊎ Front ys xs }
{}

/// A front of a front is a front, is no longer, and is the whole where it is no shorter.
pub fn fronts_are_ordered<E>()
    ensures front { (xs ys zs : List E) → Front xs ys → Front ys zs → Front xs zs }
    ensures length { (xs ys : List E) → Front xs ys → length xs ≤ length ys }
    ensures whole { (xs ys : List E) → Front xs ys → length ys ≤ length xs → xs ≡ ys }
{}
