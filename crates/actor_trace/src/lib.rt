//! A trace that threads share: one legal history of a machine, made by many threads with one atomic step for each event.
//!
//! A *machine* says what its *actors* may do: after which histories an actor may do an event. Each actor stands in one
//! place, a thread or a lock, and knows a beginning of the one history. What it knows grows by its own steps and by notes:
//!
//! ```text
//!             history, by ticket     0      1      2      3      4 ..
//!                                  a: e   b: f   a: g   c: h   b: i
//!
//! a does e, g     knows  |----- 0 .. 2 -----|                          its last step, and all before it
//! a notes         knows  |------------- 0 .. 3 -------------|         a note is all that was done when it was made
//! b meets the note, then does i     knows 0 .. 4                       so it knows all that a knew
//! ```
//!
//! 1. [`OpenedTrace::new`] makes an empty history. A function that is generic over [`Naming`] and called at `Brand` picks the
//!    run's name, and calls [`OpenedTrace::named`]: the [`Trace`], and an [`Actor`] for each number from 0 on. The name stands in
//!    the types, so an actor that comes out of a lock is known to be of that trace.
//! 2. [`Actor::reserve`] takes the memory, then [`Actor::step`] does an event. It is one `fetch_add` on the trace's word, waits
//!    for nobody, and the number that it finds is the event's ticket. The caller shows that the event is enabled after the
//!    history that its actor *knows*. That it is enabled after the whole history follows by the machine's one law: what is
//!    enabled stays enabled while its actor does nothing.
//! 3. [`Actor::note`] gives a [`Note`], a beginning of the history that may go to another thread, and [`Actor::meet`] takes one.
//!    [`Actor::look`] and [`Note::length`] answer how many events were done so far: a place in the history, below which nothing
//!    can happen any more.
//! 4. [`Trace::close`] takes all actors, in any order, and answers the [`History`]: legal, with each actor's steps at their
//!    tickets, and no others. [`Trace::has_all`] tests that they are all: no two have the same number, so it counts them.
//!    [`Trace::abandon`] says that there is that history, without memory.
//!
//! A machine of adders, of which one has the turn and gives it on with each step. `turn` is who may add next:
//!
//! ```text
//! turn []            = 0                     enabled h i (Add next) = turn h ≡ i
//! turn ((i, Add next) ∷ h) = next
//!
//! ticket    0              1              2
//!       0: Add 2       2: Add 1       1: Add 0        legal; a second step of 0 before the last one is not
//! ```
//!
//! Its law: who has the turn has it until it adds, since nobody else may add. So an adder that met a note in which it has
//! the turn, and did not add since, may add, however old the note is. `actor_trace_tests` has this machine as `Ledger`, with
//! a counter: its turns pass between threads as values that carry such a note.
//!
//! The rule that every atomic step keeps (`specs/Rules.antt`): there is one legal history, as long as the word says; each
//! seat's view is true of it (`specs/Views.antt`); no actor's number stands in two views; no actor made more than 2^31 steps.
#![tactic(auto)]

mod actor;
mod close;
mod history;
mod machine;
mod merge;
mod naming;
mod note;
mod open;
mod rule;
mod trace;
mod view;

pub use actor::Actor;
pub use history::{Closed, History};
pub use machine::Machine;
pub use naming::Naming;
pub use note::Note;
pub use open::OpenedTrace;
pub use trace::Trace;
pub use view::View;
