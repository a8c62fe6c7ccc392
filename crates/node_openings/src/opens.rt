//! All stores are opened.
ghost use Rattle.std.specs.Prelude.{◌≤◌, length, IfOk, IfErr};
ghost use Rattle.cluster_consensus.specs.Enabled.{Fit};
ghost use Rattle.node_openings.specs.Judged.{admits_of};
ghost use Rattle.node_openings.specs.Found.{AreFound, AreStill, AreUnopened};
ghost use Rattle.node_openings.specs.Told.{IsWhyNotOpened, MayPlayOf};

use crate::found::{StoreFound, WhyNotOpened};
use crate::judges::judge;
use crate::readings::read_all;
use cdb_outside::LogStore;
use cdb_values::Schema;
use kept_log::KeptLog;
use std::alloc::Global;

/// Reads the stores of all nodes, in order, and tells what they were found to be, where a script with these tables is played over
/// them; else why it is not. The logs are stopped still, and their stores stand for what they stood for.
#[tactic(auto, using(crate::proofs::ReadLemmas::stopped_of, crate::proofs::ReadLemmas::unopened_still, crate::proofs::ToldLemmas::no_memory, crate::proofs::ToldLemmas::why_told, crate::proofs::ToldLemmas::few_as))]
pub fn open_logs<D: LogStore + Drop>(
    alloc: Global,
    logs: &mut Vec<KeptLog<D>>,
    given: &Schema,
) -> Result<Vec<StoreFound>, WhyNotOpened>
    requires few { length logs.old.items ≤ 7 }
    requires unopened { AreUnopened 1 logs.old.items }
    ensures still { AreStill logs.old.items logs.new.items }
    ensures unopened { AreUnopened 1 logs.new.items }
    ensures found { IfOk result (λ found. AreFound found.items logs.old.items logs.new.items) }
    ensures may { IfOk result (λ found. MayPlayOf given.now found.items) }
    ensures fit { IfOk result (λ found. Fit (length found.items) (admits_of 1 found.items)) }
    ensures why { IfErr result (λ w. IsWhyNotOpened given.now logs.old.items logs.new.items w) }
{
    let Ok(found) = read_all(alloc, logs) else {
        return Err(WhyNotOpened::NoMemory);
    };
    match judge(alloc, found.as_slice(), given) {
        Ok(()) => Ok(found),
        Err(why) => Err(why),
    }
}
