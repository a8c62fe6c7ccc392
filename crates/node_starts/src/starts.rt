//! All nodes start.
ghost use Rattle.std.specs.Prelude.{◌≡◌, ◌+◌, ◌≤◌, [], length, OnOk};
ghost use Rattle.cluster_consensus.specs.Enabled.{Fit};
ghost use Rattle.cluster_steps.specs.Guards.{AreLegalSteps, IsPlan};
ghost use Rattle.node_openings.specs.Judged.{admits_of};
ghost use Rattle.node_starts.specs.Admits.{AdmitsBelow, deeds_from};
ghost use Rattle.node_starts.specs.News.{AreNew};
ghost use Rattle.node_starts.specs.Order.{AllGoOn};
ghost use Rattle.node_starts.specs.Starts.{AreKept, AreStarted, CanStart};
ghost use Rattle.node_starts.specs.Turns.{TurnOver, TurnSafe};
ghost use Rattle.node_state.specs.Nodes.{events_of};

use crate::admits::admit;
use crate::nodes::{come_up, go_down, inform, learn};
use actor_trace::{Actor, Naming, Trace};
use cdb_outside::LogStore;
use cluster_core::{Cluster, Plan};
use node_openings::{ReadLog, StoreFound};
use node_state::Node;
use std::alloc::{AllocError, Global};

/// Each node has its turn, in order of their numbers: where its store failed while it was read, it goes down by that; where its log is
/// sound, the operator admits it, and the node comes up with what its store holds, or goes down, where the store fails. Behind it the
/// operator knows all that was done.
#[tactic(auto, using(crate::proofs::AdmitLaws::first_below, crate::proofs::LoopLaws::first_turn, crate::proofs::LoopLaws::never_short, crate::proofs::LoopLaws::can_start, crate::proofs::LoopLaws::has_room, crate::proofs::LoopLaws::turn_done, crate::proofs::LoopLaws::turn_stops, crate::proofs::LoopLaws::all_kept, crate::proofs::LoopLaws::all_so_far, crate::proofs::LoopLaws::all_started, crate::proofs::LoopLaws::all_did, crate::proofs::LoopLaws::all_admitted, crate::proofs::LoopLaws::all_in_order, crate::proofs::LoopLaws::still_operator, crate::proofs::TurnLaws::safe_operator))]
pub fn start_all<D: LogStore + Drop, J: Plan, N: Naming>(
    alloc: Global,
    trace: &Trace<Cluster<J>, N>,
    operator: &mut Actor<Cluster<J>, N>,
    nodes: &mut Vec<Node<D, J, N>>,
    found: Vec<StoreFound>,
) -> Result<(), AllocError>
    requires plan { IsPlan J.setting }
    requires operator { (operator.old.number ≡ 0) × (operator.old.made ≡ []) }
    requires few { length found.items ≤ 7 }
    requires new { AreNew 1 found.items nodes.old.items }
    requires fit { Fit J.setting.nodes (admits_of 1 found.items) }
    ensures started { OnOk result (AreStarted operator.new.seen found.items nodes.old.items nodes.new.items) }
    ensures did { OnOk result (events_of operator.new.made ≡ deeds_from 1 found.items) }
    ensures admits { OnOk result (AdmitsBelow J.setting (admits_of 1 found.items) (length found.items + 1) operator.new) }
    ensures order { OnOk result (AllGoOn operator.old nodes.old.items operator.new nodes.new.items) }
    ensures kept { AreKept nodes.old.items nodes.new.items }
    ensures operator { (operator.new.number ≡ 0) × AreLegalSteps J.setting operator.new.seen }
{
    operator.knows();
    operator.reserve(7)?;
    operator.knows();
    let mut stores = found.into_iter();
    'nodes: for node in nodes.iter_mut() {
        let Some(store) = stores.next() else {
            unreachable!();
        };
        start_as(alloc, trace, operator, node, store)?;
    }
    Ok(())
}

/// One node has its turn.
#[tactic(auto, using(crate::proofs::TurnLaws::never_bad, crate::proofs::TurnLaws::never_unsound))]
fn start_as<D: LogStore + Drop, J: Plan, N: Naming>(
    alloc: Global,
    trace: &Trace<Cluster<J>, N>,
    operator: &mut Actor<Cluster<J>, N>,
    node: &mut Node<D, J, N>,
    store: StoreFound,
) -> Result<(), AllocError>
    requires can { CanStart J.setting store operator.old node.old }
    requires room { 1 ≤ operator.old.room }
    ensures safe { TurnSafe J.setting store operator.old node.old operator.new node.new }
    ensures over { OnOk result (TurnOver J.setting store operator.old node.old operator.new node.new) }
{
    match store {
        StoreFound::Whole(log) => start_with(alloc, trace, operator, node, log),
        StoreFound::Failed => go_down(trace, operator, node),
        StoreFound::Bad { .. } => unreachable!(),
        StoreFound::NotSound => unreachable!(),
    }
}

/// A node whose store was read.
#[tactic(auto, using(crate::proofs::TurnLaws::is_planned, crate::proofs::TurnLaws::is_operator, crate::proofs::TurnLaws::is_unarmed, crate::proofs::TurnLaws::is_other, crate::proofs::TurnLaws::does_fit, crate::proofs::TurnLaws::knows_admission, crate::proofs::TurnLaws::still_new, crate::proofs::TurnLaws::still_ready, crate::proofs::TurnLaws::whole_unopened, crate::proofs::TurnLaws::whole_safe, crate::proofs::TurnLaws::whole_over))]
fn start_with<D: LogStore + Drop, J: Plan, N: Naming>(
    alloc: Global,
    trace: &Trace<Cluster<J>, N>,
    operator: &mut Actor<Cluster<J>, N>,
    node: &mut Node<D, J, N>,
    log: ReadLog,
) -> Result<(), AllocError>
    requires can { CanStart J.setting (StoreFound.Whole log) operator.old node.old }
    requires room { 1 ≤ operator.old.room }
    ensures safe { TurnSafe J.setting (StoreFound.Whole log) operator.old node.old operator.new node.new }
    ensures over { OnOk result (TurnOver J.setting (StoreFound.Whole log) operator.old node.old operator.new node.new) }
{
    operator.knows();
    admit(trace, operator, number_of(node), log.promised, log.accepted);
    inform(trace, operator, node);
    come_up(alloc, trace, node, log)?;
    learn(trace, operator, node);
    Ok(())
}

/// A node's number.
fn number_of<D: LogStore + Drop, J: Plan, N: Naming>(node: &Node<D, J, N>) -> u8
    ensures { result ≡ node.now.vote.node }
{
    node.vote().node
}
