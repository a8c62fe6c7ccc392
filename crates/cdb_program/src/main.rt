//! The command `cdb`: its words, standard input and standard output, and the status of the run. What a person
//! wants to know besides is said on standard error, in lines that begin with `cdb: `.
#![tactic(auto)]

ghost use Rattle.std.specs.Prelude.{◌≡◌, [], IfOk, OnOk};
ghost use Rattle.std.specs.List.{AllByRecursion};

mod remarks;

use cdb_outside::{LogStore, MemStore, ReadSource, WriteSink};
use file_store::FileStore;
use remarks::{remark_status, remark_stores};
use script_main::{Outside, Status, exit_status, run, store_folder};
use std::alloc::AllocError;
use std::process::ExitCode;
use std::{env, io};

/// How many nodes a script may have; each has a store.
pub(crate) const NODES: usize = 7;

fn main(rt: HostRuntime) -> ExitCode {
    let status = match played(&rt) {
        Ok(status) => status,
        Err(_) => Status::NoMemory,
    };
    remark_status(&rt, status);
    ExitCode::from(exit_status(status))
}

/// Runs the command over the stores that its words tell.
fn played(rt: &HostRuntime) -> Result<Status, AllocError> {
    let words = words(rt)?;
    match store_folder(words.as_slice()) {
        Some(folder) => run_over_files(rt, words.as_slice(), folder),
        None => run_over_memory(rt, words.as_slice()),
    }
}

/// Runs the command over stores in memory.
fn run_over_memory(rt: &HostRuntime, words: &[String]) -> Result<Status, AllocError> {
    let ran = run_over(rt, words, empty_stores(rt)?);
    Ok(ran.status)
}

/// Runs the command over the files of a folder, and says of those that it used which failed, and what was cut off them.
fn run_over_files(rt: &HostRuntime, words: &[String], folder: &str) -> Result<Status, AllocError> {
    let stores = file_stores(rt, folder)?;
    let ran = run_over(rt, words, stores);
    remark_stores(rt, folder, ran.stores.as_slice());
    Ok(ran.status)
}

/// How a run ended, and its stores.
#[derive(Drop)]
struct Ran<D: LogStore> {
    status: Status,
    stores: Vec<D>,
}

/// Runs the command over the words, standard input, standard output and these stores.
fn run_over<D: LogStore + Send + Drop>(rt: &HostRuntime, words: &[String], stores: Vec<D>) -> Ran<D>
    requires settled { AllByRecursion (λ d. D.pending d ≡ []) stores.items }
{
    let alloc = rt.alloc();
    let mut outside = Outside {
        source: ReadSource::new(rt.stdin()),
        sink: WriteSink::new(rt.stdout()),
        stores,
        consumers: Vec::new(alloc),
    };
    let status = run(alloc, words, &mut outside);
    let Outside { stores, .. } = outside;
    Ran { status, stores }
}

/// The words behind the command's name. Where one of them is no text there are none, since either is a
/// faulty command line.
fn words(rt: &HostRuntime) -> Result<Vec<String>, AllocError> {
    let mut words = Vec::new(rt.alloc());
    match env::args(rt) {
        Ok(all) => {
            for word in all.skip(1) {
                words.push(word)?;
            }
            Ok(words)
        }
        Err(error) => match error.kind() {
            io::ErrorKind::OutOfMemory => Err(AllocError),
            _ => Ok(words),
        },
    }
}

/// A store in memory for each node.
fn empty_stores(rt: &HostRuntime) -> Result<Vec<MemStore>, AllocError>
    ensures { IfOk result (λ stores. AllByRecursion (λ s. s.waiting ≡ []) stores.items) }
{
    let alloc = rt.alloc();
    let mut stores = Vec::new(alloc);
    'nodes: for _ in 0..NODES {
        add(
            &mut stores,
            MemStore::new(Vec::new(alloc), Vec::new(alloc), None, 0),
        )?;
    }
    Ok(stores)
}

/// A store in a file of this folder for each node.
fn file_stores<'a>(
    rt: &'a HostRuntime,
    folder: &str,
) -> Result<Vec<FileStore<'a, HostRuntime>>, AllocError>
    ensures { IfOk result (λ stores. AllByRecursion (λ s. s.waiting ≡ []) stores.items) }
{
    let alloc = rt.alloc();
    let mut stores = Vec::new(alloc);
    'nodes: for node in 1..=NODES {
        let path = format!(in alloc; "{folder}/node{node}.log")?;
        add(&mut stores, FileStore::new(rt, path))?;
    }
    Ok(stores)
}

/// Adds a store in which nothing is pending.
#[tactic(auto, using(crate::proofs::StoreLemmas::all_more))]
fn add<D: LogStore + Drop>(stores: &mut Vec<D>, store: D) -> Result<(), AllocError>
    requires settled { D.pending store ≡ [] }
    requires before { AllByRecursion (λ d. D.pending d ≡ []) stores.old.items }
    ensures { OnOk result (AllByRecursion (λ d. D.pending d ≡ []) stores.new.items) }
{
    stores.push(store)?;
    Ok(())
}
