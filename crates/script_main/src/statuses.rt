ghost use Rattle.std.specs.Prelude.{◌≡◌};
ghost use Rattle.script_main.specs.Exit.{exit_of};

use cdb_outside::{Consumer, LogStore, Sink, Source, Status};

/// The outside world of a run.
#[derive(Drop)]
pub struct Outside<S: Source, K: Sink, D: LogStore + Send> {
    /// Where the script comes from.
    pub source: S,
    /// Where the report goes to.
    pub sink: K,
    /// One log store for each node, and perhaps more.
    pub stores: Vec<D>,
    /// One consumer for each feed place, and spares.
    pub consumers: Vec<Box<dyn Consumer>>,
}

/// The status with which the process ends, from 0 to 9.
pub fn exit_status(status: Status) -> u8
    ensures { result ≡ exit_of status }
{
    match status {
        Status::Done => 0,
        Status::Usage => 2,
        Status::Refused { .. } => 3,
        Status::ReadFault => 4,
        Status::WriteFault => 5,
        Status::StoreRefused { .. } => 6,
        Status::NoMemory => 7,
        Status::Unsound { .. } => 9,
    }
}
