//! The nodes of a run are made.
ghost use Rattle.std.specs.Prelude.{ℕ, ◌≡◌, ◌≤◌, List, length, IfOk, IfErr};
ghost use Rattle.cdb_values.specs.declared.tables.TableDef.{TableDef};
ghost use Rattle.cluster_steps.specs.Guards.{IsPlan};
ghost use Rattle.kept_log.specs.Kept.{OverStore};
ghost use Rattle.node_openings.specs.Found.{AreFound, AreUnopened};
ghost use Rattle.node_openings.specs.Told.{MayPlayOf};
ghost use Rattle.node_openings.specs.declared.found.StoreFound.{StoreFound};
ghost use Rattle.node_starts.specs.News.{AreIdle, AreMadeOf, AreNew};
ghost use Rattle.node_state.specs.Stores.{Stored};
ghost use Rattle.actor_trace.specs.Actors.{Knows};
ghost use Rattle.cluster_steps.specs.declared.events.Event.{Event};

use actor_trace::{Actor, Naming};
use cdb_outside::LogStore;
use cluster_core::{Cluster, Plan};
use kept_log::KeptLog;
use node_state::Node;
use std::alloc::Global;

/// Logs and actors of which no nodes were made, for want of memory.
#[derive(Drop)]
pub struct Unmade<D: LogStore, J: Plan, N: Naming> {
    pub logs: Vec<KeptLog<D>>,
    pub actors: Vec<Actor<Cluster<J>, N>>,
}

/// The nodes of a run, from number 1 on, over logs that were not opened, by actors that did nothing yet.
#[tactic(auto, using(crate::proofs::MakeLaws::first_made, crate::proofs::MakeLaws::made_more_of, crate::proofs::MakeLaws::log_fits, crate::proofs::MakeLaws::actor_fits, crate::proofs::MakeLaws::run_fits, crate::proofs::MakeLaws::never_alone, crate::proofs::MakeLaws::all_made))]
pub fn new_nodes<D: LogStore + Drop, J: Plan, N: Naming>(
    alloc: Global,
    logs: Vec<KeptLog<D>>,
    actors: Vec<Actor<Cluster<J>, N>>,
) -> Result<Vec<Node<D, J, N>>, Unmade<D, J, N>>
    requires plan { IsPlan J.setting }
    requires few { length logs.items ≤ 7 }
    requires run { length logs.items ≡ J.setting.nodes }
    requires each { length actors.items ≡ length logs.items }
    requires logs { AreUnopened 1 logs.items }
    requires actors { AreIdle 1 actors.items }
    ensures nodes { IfOk result (λ nodes. AreMadeOf J.setting.nodes 1 logs.items actors.items nodes.items) }
    ensures back { IfErr result (λ u. (u.logs.items ≡ logs.items) × (u.actors.items ≡ actors.items)) }
{
    let Ok(mut nodes) = Vec::with_capacity(alloc, logs.len()) else {
        return Err(Unmade { logs, actors });
    };
    let count = count_of(logs.as_slice());
    let mut node: u8 = 1;
    let mut others = actors.into_iter();
    'logs: for log in logs {
        let Some(actor) = others.next() else {
            unreachable!();
        };
        nodes.push_reserved(Node::new(node, count, log, actor));
        node += 1;
    }
    Ok(nodes)
}

/// How many logs there are.
fn count_of<D: LogStore>(logs: &[KeptLog<D>]) -> u8
    requires few { length logs.now ≤ 7 }
    ensures { result ≡ length logs.now }
{
    logs.len() as u8
}

/// Nodes over logs whose stores were read did nothing yet, and may come up with what was read, where a script is played over them.
#[tactic(auto, using(crate::proofs::MakeLaws::made_are_new))]
pub fn nodes_over_read_stores_are_new()
    ensures { (nodes : ℕ) (given : List TableDef) (found : List StoreFound) (old logs : List OverStore) (actors : List (Knows Event)) (made : List Stored)
        → AreFound found old logs → MayPlayOf given found → AreMadeOf nodes 1 logs actors made → AreNew 1 found made }
{}
