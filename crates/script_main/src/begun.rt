//! A log behind which a run begins.
ghost use Rattle.script_main.specs.Known.{IsKnown};

use cdb_outside::LogStore;
use node_log::NodeLog;

/// The log of a node that is up, and how many entries it had when it was opened. The pages of these stand for some rows.
#[derive(Drop)]
pub(crate) struct Begun<D: LogStore> {
    pub(crate) base: u64,
    pub(crate) log: NodeLog<D>,
    ghost known: { IsKnown base log },
}
