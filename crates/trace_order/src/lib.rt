//! The order of a history that one loop made.
//!
//! A loop that lends its actors their steps one after the other knows what it did, and in which order: a step's
//! ticket is above the last one's, where its actor met a note of that first. What it does not see is whether anybody
//! else did something in between. At the close it is known that nobody did:
//!
//! ```text
//! the loop did       0: a e    2: b f    5: a g
//! each actor's own   a: (0, e) (5, g)    b: (2, f)          just these, by the close
//! so the history is  a e, b f, a g                          and the tickets are 0, 1, 2
//! ```
//!
//! A loop shows that turn by turn: whoever has a turn knows what the last one knew, so all that it does there has
//! tickets behind those before.
//!
//! The functions here run nothing: each is a law, and its clauses are what is proved.
#![tactic(auto)]

ghost use Rattle.std.specs.Prelude.{ℕ, ◌≡◌, ◌==◌, ◌<◌, List, [], length, false};
ghost use Rattle.actor_trace.specs.Actors.{Knows, IsHistory};
ghost use Rattle.actor_trace.specs.History.{entries_of};
ghost use Rattle.actor_trace.specs.Lists.{Begins, In};
ghost use Rattle.trace_order.specs.Done.{Done, AreAll, events};
ghost use Rattle.trace_order.specs.Turns.{IsSoFar};

use actor_trace::Machine;

/// The history of all actors is what one loop did, in its order, where its tickets rise and each actor's steps are
/// those that the loop had it do.
pub fn the_history_is_what_was_done<M: Machine>()
    ensures { (n : ℕ) (actors : List (Knows M.Event)) (log : List (ℕ × M.Event)) (done : List (Done M.Event))
        → length actors ≡ n → IsHistory M.enabled n actors log → AreAll n actors done → events done ≡ log }
{}

/// What was done so far: at first nothing; then, turn by turn, the steps of an actor that knew what the last one knew,
/// where the others did none; and in the end these are all.
pub fn turns_are_in_their_order<M: Machine>()
    ensures first { (n : ℕ) → IsSoFar {E = M.Event} n 0 (λ k. []) [] }
    ensures turn { (n k : ℕ) (last old new : List (ℕ × M.Event)) (made next : ℕ → List (ℕ × M.Event)) (done : List (Done M.Event))
        → k < n → IsSoFar n (length last) made done → Begins last old → Begins old new
        → made k ≡ entries_of k old → next k ≡ entries_of k new → ((j : ℕ) → (j == k) ≡ false → next j ≡ made j)
        → (more : List (Done M.Event)) × IsSoFar n (length new) next more }
    ensures all { (n size : ℕ) (made : ℕ → List (ℕ × M.Event)) (done : List (Done M.Event)) (actors : List (Knows M.Event))
        → IsSoFar n size made done → ((x : Knows M.Event) → In x actors → x.made ≡ made x.number) → AreAll n actors done }
{}
