//! A node goes down in its turn, or comes up.
ghost use Rattle.std.specs.Prelude.{◌⊎◌, OnOk};
ghost use Rattle.cluster_steps.specs.Named.{world};
ghost use Rattle.core_lists.specs.Lists.{In};
ghost use Rattle.node_openings.specs.declared.found.StoreFound.TheVariants as store;
ghost use Rattle.node_starts.specs.Admits.{admission};
ghost use Rattle.node_starts.specs.News.{IsNew, IsToStart};
ghost use Rattle.node_starts.specs.Starts.{CanStart, ComesUp, GoesDown, KeepsStore};
ghost use Rattle.node_starts.specs.Turns.{Informs, Learns, TurnOver, TurnSafe};

use actor_trace::{Actor, Naming, Trace};
use cdb_outside::LogStore;
use cluster_core::{Cluster, Plan};
use node_openings::ReadLog;
use node_state::{Node, Started};
use std::alloc::{AllocError, Global};

/// The node knows all that was done so far.
#[tactic(auto, using(crate::proofs::StepLaws::informs))]
pub(crate) fn inform<D: LogStore + Drop, J: Plan, N: Naming>(
    trace: &Trace<Cluster<J>, N>,
    operator: &mut Actor<Cluster<J>, N>,
    node: &mut Node<D, J, N>,
)
    ensures { Informs J.setting operator.old node.old operator.new node.new }
{
    operator.knows();
    let note = operator.note(trace);
    node.hear(trace, note);
    node.knows();
}

/// The operator knows what the node did, and all before it.
#[tactic(auto, using(crate::proofs::StepLaws::met))]
pub(crate) fn learn<D: LogStore + Drop, J: Plan, N: Naming>(
    trace: &Trace<Cluster<J>, N>,
    operator: &mut Actor<Cluster<J>, N>,
    node: &mut Node<D, J, N>,
)
    ensures { Learns J.setting operator.old node.old operator.new node.new }
{
    let note = node.note(trace);
    operator.meet(trace, note);
    node.knows();
    operator.knows();
}

/// A node whose store failed while it was read goes down by that fault.
#[tactic(auto, using(crate::proofs::TurnLaws::room_left, crate::proofs::TurnLaws::down_still, crate::proofs::TurnLaws::reserved_safe, crate::proofs::TurnLaws::down_safe, crate::proofs::TurnLaws::down_over))]
pub(crate) fn go_down<D: LogStore + Drop, J: Plan, N: Naming>(
    trace: &Trace<Cluster<J>, N>,
    operator: &mut Actor<Cluster<J>, N>,
    node: &mut Node<D, J, N>,
) -> Result<(), AllocError>
    requires can { CanStart J.setting store.Failed operator.old node.old }
    ensures safe { TurnSafe J.setting store.Failed operator.old node.old operator.new node.new }
    ensures over { OnOk result (TurnOver J.setting store.Failed operator.old node.old operator.new node.new) }
{
    node.reserve(1)?;
    inform(trace, operator, node);
    node.fail_unread(trace);
    learn(trace, operator, node);
    Ok(())
}

/// A node comes up for the first time, with what was read of its store, once that is admitted; or goes down, where the store fails.
#[tactic(auto, using(crate::proofs::StepLaws::may_be_first, crate::proofs::StepLaws::told_first, crate::proofs::StepLaws::came_up, crate::proofs::StepLaws::went_down, crate::proofs::StepLaws::kept_unopened))]
pub(crate) fn come_up<D: LogStore + Drop, J: Plan, N: Naming>(
    alloc: Global,
    trace: &Trace<Cluster<J>, N>,
    node: &mut Node<D, J, N>,
    log: ReadLog,
) -> Result<(), AllocError>
    requires new { IsNew node.old.vote.node node.old }
    requires ready { IsToStart log node.old.over }
    requires admitted { In (admission node.old.vote.node log.promised log.accepted)
        (world J.setting node.old.actor.seen).admits }
    ensures up { OnOk result (ComesUp log node.old node.new ⊎ GoesDown node.old node.new) }
    ensures kept { KeepsStore node.old.over node.new.over }
{
    let ReadLog { tables, rows, .. } = log;
    drop(tables);
    node.knows();
    match node.start_first(alloc, trace, rows) {
        Ok(Started::Up) => Ok(()),
        Ok(Started::Fault) => Ok(()),
        Err(_) => Err(AllocError),
    }
}
