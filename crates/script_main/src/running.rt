//! The top call.
ghost use Rattle.std.specs.Prelude.{◌≡◌, [], vec_len, true, IfOk, IfErr};
ghost use Rattle.std.specs.Io.KnownBytes.{IsAtEnd};
ghost use Rattle.std.specs.List.{AllByRecursion};
ghost use Rattle.cdb_outside.specs.Faults.{Rose};
ghost use Rattle.script_read.specs.ScriptText.{script_of};
ghost use Rattle.script_main.specs.Run.{AnswersSource, AreLeft, Finishes, IsStatusText, LeavesStores, StopsAt, TellsUsage};
ghost use Rattle.script_main.specs.Stores.{kept_all, IsFirstAlone};
ghost use Rattle.script_main.specs.World.{world, CompletesSo, FindsUnsoundSo, RefusesSo, RefusesStoreSo};
ghost use Rattle.script_main.specs.World.{StandsAgainSo, WritesSo};
ghost use Rattle.script_main.specs.Words.{is_play};

use super::answers::{Answer, answer_script};
use super::commands::is_command;
use super::statuses::Outside;
use cdb_outside::{LogStore, Sink, Source, SourceStop, Status, read_up_to, write_whole};
use script_read::{MOST_BYTES, later_bytes_do_not_matter};
use std::alloc::Global;

/// The line that is written where the words are no command.
const USAGE: &[u8] = b"usage: cdb play|run|fill N [--stores DIR]\n";

/// Runs a command over the outside world. The one command is `play`: the script that the source holds is played over the first of
/// the stores, and its report written to the sink. At every return the stores stand in their places, and nothing is pending in
/// them; those behind the first are as they were, and so are the consumers. A first store that stood for a sound log
/// stands for one again.
///
/// A valid script over a first store that stands for a sound log, of the script's tables or without entries, is played
/// to its end, unless a count of the source or of the sink rose or memory ran out.
pub fn run<S: Source, K: Sink, D: LogStore + Send + Drop>(
    alloc: Global,
    words: &[String],
    outside: &mut Outside<S, K, D>,
) -> Status
    requires settled { AllByRecursion (λ d. D.pending d ≡ []) outside.old.stores.items }
    ensures says { WritesSo (is_play words.now) (world S.left K.taken D.synced D.pending D.faults D.writes outside.old)
        (world S.left K.taken D.synced D.pending D.faults D.writes outside.new) result }
    ensures usage { TellsUsage (is_play words.now) result }
    ensures refusal { RefusesSo (is_play words.now) (world S.left K.taken D.synced D.pending D.faults D.writes outside.old)
        (world S.left K.taken D.synced D.pending D.faults D.writes outside.new) result }
    ensures store_refused { RefusesStoreSo (is_play words.now)
        (world S.left K.taken D.synced D.pending D.faults D.writes outside.old)
        (world S.left K.taken D.synced D.pending D.faults D.writes outside.new) result }
    ensures unsound { FindsUnsoundSo (is_play words.now) (world S.left K.taken D.synced D.pending D.faults D.writes outside.old)
        (world S.left K.taken D.synced D.pending D.faults D.writes outside.new) result }
    ensures complete { (Rose (S.faults outside.old.source) (S.faults outside.new.source) → ⊥)
        → (Rose (K.faults outside.old.sink) (K.faults outside.new.sink) → ⊥)
        → CompletesSo (is_play words.now) (world S.left K.taken D.synced D.pending D.faults D.writes outside.old) result }
    ensures again { StandsAgainSo (world S.left K.taken D.synced D.pending D.faults D.writes outside.old)
        (world S.left K.taken D.synced D.pending D.faults D.writes outside.new) }
    ensures read { result ≡ Status.ReadFault → Rose (S.faults outside.old.source) (S.faults outside.new.source) }
    ensures write { result ≡ Status.WriteFault → Rose (K.faults outside.old.sink) (K.faults outside.new.sink) }
    ensures whole { result ≡ Status.Done → IsAtEnd (S.left outside.new.source) }
    ensures unchanged { LeavesStores result → outside.new.stores.items ≡ outside.old.stores.items }
    ensures others { IsFirstAlone outside.old.stores.items outside.new.stores.items }
    ensures settled { AllByRecursion (λ d. D.pending d ≡ []) outside.new.stores.items }
    ensures consumers { outside.new.consumers.items ≡ outside.old.consumers.items }
{
    if !is_command(words) {
        return finish(&mut outside.sink, USAGE, Status::Usage);
    }
    let consumers = outside.consumers.len() as u64;
    match answer_source(alloc, &mut outside.source, &mut outside.stores, consumers) {
        Ok(answer) => finish(&mut outside.sink, answer.text.as_bytes(), answer.status),
        Err(stop) => stop,
    }
}

/// The answer to the script that a source holds, or the status of a run that has nothing to write.
fn answer_source<S: Source, D: LogStore + Drop>(
    alloc: Global,
    source: &mut S,
    stores: &mut Vec<D>,
    consumers: u64,
) -> Result<Answer, Status>
    requires settled { AllByRecursion (λ d. D.pending d ≡ []) stores.old.items }
    ensures answers { IfOk result (λ a. AnswersSource (vec_len stores.old) consumers
        (kept_all D.synced D.pending D.faults D.writes stores.old.items)
        (kept_all D.synced D.pending D.faults D.writes stores.new.items)
        (S.left source.old) (S.left source.new) a.status a.text) }
    ensures stops { IfErr result (λ stop. StopsAt (vec_len stores.old) consumers
        (kept_all D.synced D.pending D.faults D.writes stores.old.items)
        (kept_all D.synced D.pending D.faults D.writes stores.new.items) (S.left source.old) stop) }
    ensures unchanged { IfOk result (λ a. LeavesStores a.status → stores.new.items ≡ stores.old.items) }
    ensures stopped { IfErr result (λ stop. LeavesStores stop → stores.new.items ≡ stores.old.items) }
    ensures others { IsFirstAlone stores.old.items stores.new.items }
    ensures settled { AllByRecursion (λ d. D.pending d ≡ []) stores.new.items }
    ensures fault { result ≡ Err Status.ReadFault → Rose (S.faults source.old) (S.faults source.new) }
{
    later_bytes_do_not_matter();
    match read_up_to(alloc, source, MOST_BYTES) {
        Ok(bytes) => match answer_script(alloc, bytes.as_slice(), stores, consumers) {
            Ok(answer) => Ok(answer),
            Err(_) => Err(Status::NoMemory),
        },
        Err(SourceStop::Fault) => Err(Status::ReadFault),
        Err(SourceStop::NoMemory) => Err(Status::NoMemory),
    }
}

/// Writes the text, and gives the status if that went well.
fn finish<K: Sink>(sink: &mut K, text: &[u8], status: Status) -> Status
    ensures { Finishes status result text.now (K.taken sink.old) (K.taken sink.new)
        (K.faults sink.old) (K.faults sink.new) }
{
    match write_whole(sink, text) {
        Ok(()) => status,
        Err(_) => Status::WriteFault,
    }
}
