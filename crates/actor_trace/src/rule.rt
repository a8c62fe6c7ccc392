use crate::machine::Machine;
use crate::view::View;
use atomic_table::{Join, Play, Split, TableRule};
use std::marker::{Brand, PhantomData};

/// The rule of a trace.
pub struct OneHistory<M: Machine> {
    of: PhantomData<M>,
}

impl<M: Machine> TableRule<(), View<M::Event>, u32> for OneHistory<M> {
    ghost use Rattle.actor_trace.specs.Rules.{Kept};
    ghost use Rattle.actor_trace.specs.Views.{all_of};

    ghost holds = { λ n s. Kept M.enabled n s.words s.views };

    ghost first = { λ n. all_of n };
}

/// A look at the history as it is.
pub struct Look<M: Machine> {
    of: PhantomData<M>,
}

impl<M: Machine> Play<(), View<M::Event>> for Look<M> {
    ghost use Rattle.std.specs.Prelude.{◌≡◌};
    ghost use Rattle.actor_trace.specs.Plays.{Looks};

    ghost then = { λ s v found w. (w.1 ≡ v.1) × Looks M.enabled v.0 found w.0 };
}

/// What a step adds. Each call picks it.
pub trait Telling<E> {
    ghost use Rattle.std.specs.Prelude.{ℕ, List};

    ghost by: { ℕ };

    ghost events: { List E };
}

impl<E> Telling<E> for Brand {
    ghost use Rattle.std.specs.Prelude.{[]};

    ghost by = { 0 };

    ghost events = { [] };
}

/// A step that adds an event.
pub struct Tell<M: Machine, T: Telling<M::Event>> {
    of: PhantomData<(M, T)>,
}

impl<M: Machine, T: Telling<M::Event>> Play<(), View<M::Event>> for Tell<M, T> {
    ghost use Rattle.std.specs.Prelude.{◌≡◌, [], ◌∷◌};
    ghost use Rattle.actor_trace.specs.Plays.{Told};

    ghost then = { λ s v found w. (w.1 ≡ v.1) × ((e : M.Event) → T.events ≡ e ∷ [] → Told M.enabled T.by e v.0 found w.0) };
}

/// An actor's seat.
pub struct Deal;

impl<E> Split<View<E>> for Deal {
    ghost use Rattle.std.specs.Prelude.{[]};
    ghost use Rattle.actor_trace.specs.Views.{a_view, others, front};

    ghost left = { λ v. a_view (others v.made) v.seen v.heard };

    ghost right = { λ v. a_view (front v.made) [] [] };
}

/// A note of what a seat saw.
pub struct Jot;

impl<E> Split<View<E>> for Jot {
    ghost use Rattle.std.specs.Prelude.{[]};
    ghost use Rattle.actor_trace.specs.Views.{a_view};

    ghost left = { λ v. v };

    ghost right = { λ v. a_view [] v.seen [] };
}

/// A note that is heard.
pub struct Hear;

impl<E> Join<View<E>> for Hear {
    ghost use Rattle.std.specs.Prelude.{[], ◌∷◌};
    ghost use Rattle.actor_trace.specs.Views.{a_view};

    ghost both = { λ v w. a_view v.made v.seen (w.seen ∷ v.heard) };

    ghost spent = { a_view [] [] [] };
}

/// An actor that gives up its seat.
pub struct Gather;

impl<E> Join<View<E>> for Gather {
    ghost use Rattle.std.specs.Prelude.{[], ◌∷◌, ◌++◌};
    ghost use Rattle.actor_trace.specs.Views.{a_view};

    ghost both = { λ v w. a_view (v.made ++ w.made) v.seen (v.heard ++ w.seen ∷ []) };

    ghost spent = { a_view [] [] [] };
}

/// A new seat that knows nothing.
pub struct Enter;

impl<E> Play<(), View<E>> for Enter {
    ghost use Rattle.std.specs.Prelude.{◌≡◌, []};
    ghost use Rattle.actor_trace.specs.Views.{a_view};

    ghost then = { λ s v found w. w.0 ≡ a_view [] [] [] };
}
