//! The operator's steps.
ghost use Rattle.std.specs.Prelude.{ℕ, ◌≡◌, ◌<◌, ◌∷◌, List, None, IfSome, OnOk, OnErr, false, true};
ghost use Rattle.actor_trace.specs.Lists.{Begins};
ghost use Rattle.actor_trace.specs.Steps.{Rests};
ghost use Rattle.cluster_steps.specs.Guards.{AreLegalSteps, MayTakeStep};
ghost use Rattle.cluster_steps.specs.declared.events.Event.TheVariants as event;
ghost use Rattle.operator_steps.specs.Due.{IsToObey, IsToOrder, IsToTell};
ghost use Rattle.operator_steps.specs.Turns.{DidNext, DoesInTurn, IsReady};
ghost use Rattle.operator_work.specs.Duties.{IsAt};
ghost use Rattle.script_form.specs.declared.scripts.Act.{Act};
ghost use Rattle.script_form.specs.declared.scripts.Act.TheVariants as act;

use actor_trace::{Actor, Naming, Note, Trace};
use cluster_core::{Cluster, Plan};
use cluster_steps::Event;
use std::alloc::AllocError;
use std::mem::replace;

/// The operator knows what the last note knows, which is used up, and all that was done so far.
fn catch_up<J: Plan, N: Naming>(
    trace: &Trace<Cluster<J>, N>,
    operator: &mut Actor<Cluster<J>, N>,
    last: &mut Option<Note<Cluster<J>, N>>,
)
    ensures number { operator.new.number ≡ operator.old.number }
    ensures made { operator.new.made ≡ operator.old.made }
    ensures room { operator.new.room ≡ operator.old.room }
    ensures more { Rests operator.old.number operator.old.seen operator.new.seen }
    ensures legal { AreLegalSteps J.setting operator.new.seen }
    ensures heard { IfSome last.old (λ note. Begins note operator.new.seen) }
    ensures none { last.new ≡ None }
{
    match last.take() {
        Some(note) => operator.meet(trace, note),
        None => {
            operator.look(trace);
        }
    }
}

/// The operator has room for a step, and knows what the last note knows.
fn get_ready<J: Plan, N: Naming>(
    trace: &Trace<Cluster<J>, N>,
    operator: &mut Actor<Cluster<J>, N>,
    last: &mut Option<Note<Cluster<J>, N>>,
) -> Result<(), AllocError>
    requires number { operator.old.number ≡ 0 }
    ensures number { operator.new.number ≡ 0 }
    ensures room { OnOk result (0 < operator.new.room) }
    ensures ready { OnOk result (IsReady J.setting last.old operator.old operator.new) }
    ensures none { OnOk result (last.new ≡ None) }
    ensures kept { OnErr result ((operator.new.seen ≡ operator.old.seen) × (operator.new.made ≡ operator.old.made)) }
    ensures unmet { OnErr result (last.new ≡ last.old) }
{
    operator.reserve(1)?;
    catch_up(trace, operator, last);
    operator.knows();
    Ok(())
}

/// The operator does what it may do, and a note tells what it knows then.
fn do_next<J: Plan, N: Naming>(
    trace: &Trace<Cluster<J>, N>,
    operator: &mut Actor<Cluster<J>, N>,
    last: &mut Option<Note<Cluster<J>, N>>,
    doing: Event,
)
    requires room { 0 < operator.old.room }
    requires number { operator.old.number ≡ 0 }
    requires may { MayTakeStep J.setting operator.old.seen 0 doing }
    requires none { last.old ≡ None }
    ensures number { operator.new.number ≡ 0 }
    ensures did { DidNext J.setting doing operator.old operator.new last.new }
{
    operator.step(trace, doing);
    let note = operator.note(trace);
    operator.knows();
    // There was no note, so none is let go.
    match replace(last, Some(note)) {
        Some(_other) => unreachable!(),
        None => {}
    }
}

/// Orders the stop or the start that is next.
pub fn order<J: Plan, N: Naming>(
    trace: &Trace<Cluster<J>, N>,
    operator: &mut Actor<Cluster<J>, N>,
    last: &mut Option<Note<Cluster<J>, N>>,
) -> Result<(), AllocError>
    requires number { operator.old.number ≡ 0 }
    requires due { IsToOrder J.setting operator.old.seen }
    ensures number { operator.new.number ≡ 0 }
    ensures does { OnOk result (DoesInTurn J.setting event.Order last.old operator.old operator.new last.new) }
    ensures at { OnOk result ((left : List (ℕ × Act)) → IsAt J.setting operator.old.seen left false
        → IsAt J.setting operator.new.seen left true) }
    ensures kept { OnErr result ((operator.new.seen ≡ operator.old.seen) × (operator.new.made ≡ operator.old.made)) }
    ensures unmet { OnErr result (last.new ≡ last.old) }
{
    get_ready(trace, operator, last)?;
    do_next(trace, operator, last, Event::Order);
    Ok(())
}

/// Sees that a stop or a start that is ordered was heeded, as it knows already.
pub fn obeyed<J: Plan, N: Naming>(
    trace: &Trace<Cluster<J>, N>,
    operator: &mut Actor<Cluster<J>, N>,
    last: &mut Option<Note<Cluster<J>, N>>,
) -> Result<(), AllocError>
    requires number { operator.old.number ≡ 0 }
    requires due { IsToObey J.setting operator.old.seen }
    ensures number { operator.new.number ≡ 0 }
    ensures does { OnOk result (DoesInTurn J.setting event.Obeyed last.old operator.old operator.new last.new) }
    ensures at { OnOk result ((line : ℕ) (next : Act) (rest : List (ℕ × Act))
        → IsAt J.setting operator.old.seen ((line, next) ∷ rest) true → IsAt J.setting operator.new.seen rest false) }
    ensures kept { OnErr result ((operator.new.seen ≡ operator.old.seen) × (operator.new.made ≡ operator.old.made)) }
    ensures unmet { OnErr result (last.new ≡ last.old) }
{
    get_ready(trace, operator, last)?;
    do_next(trace, operator, last, Event::Obeyed);
    Ok(())
}

/// Tells the barrier that is next, where each session that has lines left has it behind it, as it knows already.
pub fn tell_barrier<J: Plan, N: Naming>(
    trace: &Trace<Cluster<J>, N>,
    operator: &mut Actor<Cluster<J>, N>,
    last: &mut Option<Note<Cluster<J>, N>>,
) -> Result<(), AllocError>
    requires number { operator.old.number ≡ 0 }
    requires due { IsToTell J.setting operator.old.seen }
    ensures number { operator.new.number ≡ 0 }
    ensures does { OnOk result (DoesInTurn J.setting event.Barrier last.old operator.old operator.new last.new) }
    ensures at { OnOk result ((line : ℕ) (rest : List (ℕ × Act))
        → IsAt J.setting operator.old.seen ((line, act.Barrier) ∷ rest) false
        → IsAt J.setting operator.new.seen rest false) }
    ensures kept { OnErr result ((operator.new.seen ≡ operator.old.seen) × (operator.new.made ≡ operator.old.made)) }
    ensures unmet { OnErr result (last.new ≡ last.old) }
{
    get_ready(trace, operator, last)?;
    do_next(trace, operator, last, Event::Barrier);
    Ok(())
}
