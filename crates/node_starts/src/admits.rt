//! The operator admits the store of a node.
ghost use Rattle.std.specs.Prelude.{◌≡◌, ◌≢◌, ◌<◌, ◌∷◌, None};
ghost use Rattle.cluster_consensus.specs.Enabled.{Fit};
ghost use Rattle.cluster_events.specs.Arms.{last_fired};
ghost use Rattle.cluster_steps.specs.Guards.{IsPlan};
ghost use Rattle.cluster_steps.specs.Named.{steps, world};
ghost use Rattle.core_lists.specs.Lists.{Each};
ghost use Rattle.node_starts.specs.Admits.{AdmitsOne, admission};

use actor_trace::{Actor, Naming, Trace};
use cluster_core::{Cluster, Plan};
use cluster_steps::Event;

/// The operator admits what the store of a node promised and accepted, by one step: that node was not admitted, and its store fits
/// those that were. Takes no memory.
#[tactic(auto, using(crate::proofs::AdmitLaws::may_admit, crate::proofs::AdmitLaws::admits_one))]
pub fn admit<J: Plan, N: Naming>(
    trace: &Trace<Cluster<J>, N>,
    operator: &mut Actor<Cluster<J>, N>,
    node: u8,
    promised: u64,
    accepted: u64,
)
    requires plan { IsPlan J.setting }
    requires operator { operator.old.number ≡ 0 }
    requires unarmed { last_fired 0 (steps J.setting operator.old.seen) ≡ None }
    requires other { Each (λ b. b.node ≢ node) (world J.setting operator.old.seen).admits }
    requires fit { Fit J.setting.nodes (admission node promised accepted ∷ (world J.setting operator.old.seen).admits) }
    requires room { 0 < operator.old.room }
    ensures { AdmitsOne J.setting node promised accepted operator.old operator.new }
{
    operator.step(
        trace,
        Event::Admit {
            node,
            promised,
            accepted,
        },
    );
}
