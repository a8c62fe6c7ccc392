/// A machine: what its actors may do, after which history.
///
/// A history is a list of events, each with the number of its actor, the newest first.
pub trait Machine {
    ghost use Rattle.std.specs.Prelude.{ℕ, ◌≡◌, ◌++◌, List};
    ghost use Rattle.actor_trace.specs.History.{IsLegal, entries_of};

    /// What an actor does in one step.
    type Event: Drop;

    /// After which history an actor may do an event.
    ghost enabled: { List (ℕ × Self.Event) → ℕ → Self.Event → Type 0 };

    /// Nothing happens here: a law stands below a trait's last function.
    fn has_a_law(&self) {}

    /// What is enabled stays enabled while its actor does nothing.
    ghost known: { (later h : List (ℕ × Self.Event)) (i : ℕ) (e : Self.Event)
        → IsLegal enabled (later ++ h) → entries_of i (later ++ h) ≡ entries_of i h
        → enabled h i e → enabled (later ++ h) i e };
}
