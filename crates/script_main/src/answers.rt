//! What a script's bytes are answered: a status and the text that belongs to it.
ghost use Rattle.std.specs.Prelude.{◌≡◌, ◌<◌, [], length, vec_len, IfOk, OnErr};
ghost use Rattle.std.specs.List.{AllByRecursion};
ghost use Rattle.script_read.specs.Answers.{refusal};
ghost use Rattle.script_read.specs.ScriptText.{script_of};
ghost use Rattle.script_main.specs.Run.{AreLeft, IsRefusalText, IsScriptText, LeavesStores};
ghost use Rattle.script_main.specs.Steps.{IsDifferText, IsReportText};
ghost use Rattle.script_main.specs.Stores.{kept_all, IsFirstAlone};
ghost use Rattle.script_main.specs.Texts.{store_text, unsound_text};

use super::stores::play_first;
use cdb_outside::{LogStore, Status};
use cdb_values::Bytes;
use report_text::{Report, print};
use script_form::{Script, TableLine};
use script_read::{
    ScriptStop, read_script, scripts_can_run, scripts_have_names, scripts_have_stores,
};
use std::alloc::{AllocError, Global};

/// A status, and the text that is to be written.
#[derive(Drop)]
pub(crate) struct Answer {
    pub status: Status,
    pub text: Bytes,
}

/// The answer to a script's bytes, for a run over these stores and with that many consumers.
pub(crate) fn answer_script<D: LogStore + Drop>(
    alloc: Global,
    bytes: &[u8],
    stores: &mut Vec<D>,
    consumers: u64,
) -> Result<Answer, AllocError>
    requires settled { AllByRecursion (λ d. D.pending d ≡ []) stores.old.items }
    ensures text { IfOk result (λ a. IsScriptText (script_of (vec_len stores.old) consumers bytes.now)
        (kept_all D.synced D.pending D.faults D.writes stores.old.items)
        (kept_all D.synced D.pending D.faults D.writes stores.new.items) a.status a.text) }
    ensures unchanged { IfOk result (λ a. LeavesStores a.status → stores.new.items ≡ stores.old.items) }
    ensures left { OnErr result (AreLeft (script_of (vec_len stores.old) consumers bytes.now)
        (kept_all D.synced D.pending D.faults D.writes stores.old.items)
        (kept_all D.synced D.pending D.faults D.writes stores.new.items)) }
    ensures others { IsFirstAlone stores.old.items stores.new.items }
    ensures settled { AllByRecursion (λ d. D.pending d ≡ []) stores.new.items }
{
    let count = stores.len() as u64;
    match read_script(alloc, bytes, count, consumers) {
        Ok(script) => {
            scripts_can_run();
            scripts_have_names();
            scripts_have_stores();
            let answer = play_first(alloc, &script, stores);
            drop(script);
            answer
        }
        Err(ScriptStop::Refused { line, why }) => refused(alloc, line, why),
        Err(ScriptStop::NoMemory) => Err(AllocError),
    }
}

/// The answer to a script by the report of its play.
pub(crate) fn reported(alloc: Global, report: &Report) -> Result<Answer, AllocError>
    ensures { IfOk result (λ a. IsReportText report.now a.status a.text) }
{
    let text = print(alloc, report)?;
    Ok(Answer {
        status: Status::Done,
        text,
    })
}

/// The answer to a script one of whose tables differs from that of the log at its place.
pub(crate) fn differs(alloc: Global, tables: &[TableLine], place: u64) -> Result<Answer, AllocError>
    requires within { place < length tables.now }
    ensures { IfOk result (λ a. IsDifferText tables.now place a.status a.text) }
{
    match tables.get(place as usize) {
        Some(table) => refused(alloc, table.line, OTHER_TABLES),
        None => unreachable!(),
    }
}

/// The reason against a table that differs from that of the store's log.
const OTHER_TABLES: u8 = 9;

/// The answer to a script that was refused.
fn refused(alloc: Global, line: u64, why: u8) -> Result<Answer, AllocError>
    ensures { IfOk result (λ a. IsRefusalText (refusal line why) a.status a.text) }
{
    let mut text = Vec::new(alloc);
    let at = line.to_string(alloc)?;
    let reason = why.to_string(alloc)?;
    text.extend_from_slice(b"refused ")?;
    text.extend_from_slice(at.as_bytes())?;
    text.extend_from_slice(b" ")?;
    text.extend_from_slice(reason.as_bytes())?;
    text.extend_from_slice(b"\n")?;
    Ok(Answer {
        status: Status::Refused { line, why },
        text: Bytes::from_vec(text),
    })
}

/// The answer to a store with a bad frame at an offset, or with another's header, at 0.
pub(crate) fn store_refused(alloc: Global, node: u8, at: u64) -> Result<Answer, AllocError>
    ensures status { IfOk result (λ a. a.status ≡ Status.StoreRefused node at) }
    ensures text { IfOk result (λ a. a.text ≡ store_text node at) }
{
    let mut text = Vec::new(alloc);
    let number = node.to_string(alloc)?;
    let offset = at.to_string(alloc)?;
    text.extend_from_slice(b"store ")?;
    text.extend_from_slice(number.as_bytes())?;
    text.extend_from_slice(b" ")?;
    text.extend_from_slice(offset.as_bytes())?;
    text.extend_from_slice(b"\n")?;
    Ok(Answer {
        status: Status::StoreRefused { node, at },
        text: Bytes::from_vec(text),
    })
}

/// The answer to a store whose log is not sound.
pub(crate) fn unsound(alloc: Global, node: u8) -> Result<Answer, AllocError>
    ensures status { IfOk result (λ a. a.status ≡ Status.Unsound node) }
    ensures text { IfOk result (λ a. a.text ≡ unsound_text node) }
{
    let mut text = Vec::new(alloc);
    let number = node.to_string(alloc)?;
    text.extend_from_slice(b"unsound ")?;
    text.extend_from_slice(number.as_bytes())?;
    text.extend_from_slice(b"\n")?;
    Ok(Answer {
        status: Status::Unsound { node },
        text: Bytes::from_vec(text),
    })
}
