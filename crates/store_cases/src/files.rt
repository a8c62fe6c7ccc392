//! The store of a case in a file.
ghost use Rattle.std.specs.Prelude.{◌≡◌, [], false};

use crate::opened::{CLUSTER, NODE, fault_told};
use cdb_outside::LogStore;
use file_store::FileStore;
use node_log::NodeLog;
use std::alloc::{AllocError, Global};
use std::{fs, io};

/// The file, where the program runs.
const PATH: &str = "node2.log";

/// What a node over these bytes in a file comes to that is opened and stands, and how many bytes the file has then.
pub(crate) fn file_told(rt: &HostRuntime, bytes: &[u8]) -> io::Result<String> {
    fs::write(rt, PATH, bytes)?;
    let path = String::from_str(rt.alloc(), PATH)?;
    let told = stood(rt.alloc(), FileStore::new(rt, path))?;
    let size = fs::read(rt, PATH)?.len();
    fs::remove_file(rt, PATH)?;
    Ok(format!(in rt.alloc(); "file\n  {told}, size {size}\n")?)
}

/// Opens a log and stands.
fn stood<D: LogStore + Drop>(alloc: Global, store: D) -> Result<String, AllocError>
    requires { D.pending store ≡ [] }
{
    match NodeLog::open(alloc, store, NODE, CLUSTER) {
        Ok(log) => stood_in(alloc, log),
        Err(unopened) => fault_told(alloc, unopened.why),
    }
}

/// Stands with a log that was opened.
fn stood_in<D: LogStore + Drop>(alloc: Global, log: NodeLog<D>) -> Result<String, AllocError>
    requires { log.failed ≡ false }
{
    let promised = log.promised();
    let accepted = log.accepted();
    let length = log.log().entries().len();
    match next_generation(alloc, log) {
        Some(generation) => {
            format!(in alloc; "open {promised} {accepted} {length}, stand {generation}")
        }
        None => format!(in alloc; "open {promised} {accepted} {length}, fault"),
    }
}

/// The generation in which a log stands, which is let go then.
fn next_generation<D: LogStore + Drop>(alloc: Global, mut log: NodeLog<D>) -> Option<u64>
    requires { log.failed ≡ false }
{
    log.stand(alloc).ok()
}
