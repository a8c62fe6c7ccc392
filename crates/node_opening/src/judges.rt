//! Whether a log may be taken up.
ghost use Rattle.std.specs.Prelude.{OnOk, IfErr, MatchOption};
ghost use Rattle.node_opening.specs.Goods.{IsGood};
ghost use Rattle.node_opening.specs.Tables.{AreMatched, IsDifference};
ghost use Rattle.node_opening.specs.Why.{IsJudged};

use crate::tables::difference;
use crate::up::WhyNotUp;
use cdb_values::Schema;
use log_replay::PagedLog;
use sound_log::sound_state;
use std::alloc::Global;

/// Whether a log is sound, where this generation is the accepted one, and then whether it has the given tables.
pub(crate) fn judge(
    alloc: Global,
    accepted: u64,
    log: &PagedLog,
    schema: &Schema,
) -> Result<(), WhyNotUp>
    ensures good { OnOk result (IsGood accepted log.now schema.now) }
    ensures why { IfErr result (λ w. IsJudged w accepted log.now schema.now) }
{
    match sound_state(alloc, accepted, log) {
        Ok(Some(_)) => {}
        Ok(None) => return Err(WhyNotUp::Unsound),
        Err(_) => return Err(WhyNotUp::NoMemory),
    }
    let Some(logged) = log.schema() else {
        return Ok(());
    };
    match compare(schema, logged) {
        Some(table) => Err(WhyNotUp::Differs { table }),
        None => Ok(()),
    }
}

/// The place where the given tables differ from those of a log, where some are given.
fn compare(given: &Schema, logged: &Schema) -> Option<u64>
    ensures { MatchOption result (AreMatched given.now logged.now) (IsDifference given.now logged.now) }
{
    difference(given.tables(), logged.tables())
}
