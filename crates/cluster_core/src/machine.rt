use actor_trace::Machine;
use cluster_steps::Event;
use std::marker::{Brand, PhantomData};

/// What one run is of: its nodes, its script, its language, its tables, and what its actors are called.
///
/// A function that is generic over it is called at `Brand`, and that call picks the setting.
pub trait Plan {
    ghost use Rattle.cluster_events.specs.Settings.{Setting};

    /// What its history is judged by.
    ghost setting: { Setting };
}

impl Plan for Brand {
    ghost use Rattle.cluster_core.specs.Blank.{blank};

    ghost setting = { blank };
}

/// The cluster of a run. Actor 0 is the operator, the nodes come behind it, and behind them the sessions.
pub struct Cluster<J: Plan> {
    of: PhantomData<J>,
}

impl<J: Plan> Machine for Cluster<J> {
    ghost use Rattle.cluster_steps.specs.Guards.{MayTakeStep};
    ghost use Rattle.cluster_core.specs.Known.{known};

    type Event = Event;

    ghost enabled = { λ h i e. MayTakeStep J.setting h i e };

    ghost known = { λ later h i e legal own may. known J.setting later h i e legal own may };
}
