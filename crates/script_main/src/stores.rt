//! The stores of a run stand in their places: the first one is taken out for the node, and put back.
ghost use Rattle.std.specs.Prelude.{◌≡◌, ◌<◌, ◌≤◌, ◌∷◌, [], vec_len, vec_capacity, IfOk, Ok};
ghost use Rattle.std.specs.List.{AllByRecursion};
ghost use Rattle.script_form.specs.CanRun.{CanRun};
ghost use Rattle.script_form.specs.Named.{IsNamed};
ghost use Rattle.script_main.specs.Run.{AreCutOff, IsScriptText};
ghost use Rattle.script_main.specs.Stores.{kept_all, IsFirstAlone};

use super::answers::Answer;
use super::opening::{Ended, play_over};
use cdb_outside::LogStore;
use script_form::Script;
use std::alloc::{AllocError, Global};

/// The answer to a script over the first of these stores.
pub(crate) fn play_first<D: LogStore + Drop>(
    alloc: Global,
    script: &Script,
    stores: &mut Vec<D>,
) -> Result<Answer, AllocError>
    requires runs { CanRun script.now }
    requires names { IsNamed script.now }
    requires some { 1 ≤ vec_len stores.old }
    requires settled { AllByRecursion (λ d. D.pending d ≡ []) stores.old.items }
    ensures text { IfOk result (λ a. IsScriptText (Ok script.now)
        (kept_all D.synced D.pending D.faults D.writes stores.old.items)
        (kept_all D.synced D.pending D.faults D.writes stores.new.items) a.status a.text) }
    ensures left { AreCutOff script.now
        (kept_all D.synced D.pending D.faults D.writes stores.old.items)
        (kept_all D.synced D.pending D.faults D.writes stores.new.items) }
    ensures others { IsFirstAlone stores.old.items stores.new.items }
    ensures settled { AllByRecursion (λ d. D.pending d ≡ []) stores.new.items }
{
    let store = stores.remove(0);
    let Ended { store, answer } = play_over(alloc, script, store);
    put_first(stores, store);
    answer
}

/// Puts a store before the others, where there is room for it.
fn put_first<D: LogStore + Drop>(stores: &mut Vec<D>, store: D)
    requires room { vec_len stores.old < vec_capacity stores.old }
    ensures { stores.new.items ≡ store ∷ stores.old.items }
{
    match stores.insert(0, store) {
        Ok(()) => {}
        Err(_) => unreachable!(),
    }
}
