//! What is said on standard error. Where it cannot be said the run goes on: its report and its status are the answer.
use crate::NODES;
use cdb_outside::Status;
use cdb_values::Bytes;
use file_store::FileStore;
use status_words::status_words;
use std::io::Write;

/// What is said where there is no memory for a sentence.
const NO_MEMORY: &[u8] =
    b"cdb: there was not enough memory; docs/keeping_a_store.md#after-status-7\n";

/// Says what a status means, in words. Of a report that was written nothing is said.
pub(crate) fn remark_status(rt: &HostRuntime, status: Status) {
    if status == Status::Done {
        return;
    }
    match status_words(rt.alloc(), status) {
        Ok(text) => say(rt, text.as_bytes()),
        Err(_) => say(rt, NO_MEMORY),
    }
}

/// Writes a sentence to standard error.
fn say(rt: &HostRuntime, text: &[u8]) {
    let _ = rt.stderr().write_all(text);
}

/// Says of the stores of a folder, once the run is over, which failed and what was cut off them. Of a store that it did
/// not use no call failed, so nothing is said of it, also where its file cannot be read.
pub(crate) fn remark_stores(rt: &HostRuntime, folder: &str, stores: &[FileStore<'_, HostRuntime>]) {
    for node in 1..=NODES {
        if let Some(store) = stores.get(node - 1) {
            remark_failure(rt, folder, node, store);
            remark_cut(rt, folder, node, store);
        }
    }
}

/// Says that calls of the store of a node failed, where that is so: since its file could not be read, or by the disk.
fn remark_failure(rt: &HostRuntime, folder: &str, node: usize, store: &FileStore<'_, HostRuntime>) {
    if store.failures() == 0 {
        return;
    }
    if store.is_unread() {
        let _ = eprintln!(rt;
            "cdb: the file {folder}/node{node}.log could not be read; docs/keeping_a_store.md#a-store-that-fails"
        );
        return;
    }
    let _ = eprintln!(rt;
        "cdb: a call of the store {folder}/node{node}.log failed; docs/keeping_a_store.md#a-store-that-fails"
    );
}

/// Says what was cut off the store of a node, where something was.
fn remark_cut(rt: &HostRuntime, folder: &str, node: usize, store: &FileStore<'_, HostRuntime>) {
    if let Some(cut) = store.cut_off() {
        let at = cut.at;
        let count = cut.count;
        let _ = eprint!(rt;
            "cdb: {count} bytes of {folder}/node{node}.log from byte {at} on were cut off, and stand at the end of "
        );
        let _ = eprintln!(rt;
            "{folder}/node{node}.log.cut; docs/keeping_a_store.md#what-was-cut-off"
        );
    }
}
