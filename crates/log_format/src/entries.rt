//! Entries: a setup or a commit behind its generation.
ghost use Rattle.std.specs.Prelude.{◌≡◌, [], ◌∷◌, ◌++◌, IfOk, OnOk, MatchOption};
ghost use Rattle.frame_code.specs.Codes.{number, name_code, level_code, many, change_code, record_code, entry_code};
ghost use Rattle.frame_code.specs.Spelled.{IsNumber, IsNameBytes, AreMany, IsChange, IsRecord, IsEntry};
ghost use Rattle.frame_code.specs.Tells.{Lacks, Begins};

use crate::parts::Part;
use byte_words::put_u64;
use cdb_values::{Change, Level, List, Name, Schema};
use phys_log::{CommitId, Entry, LogRecord};
use std::alloc::{AllocError, Global};

/// A setup's schema and records.
type SetupParts = (Schema, List<LogRecord>);

/// A commit's began generation, session, transaction, begin, changes and records.
type CommitParts = (u64, (Name, (u64, (u64, (List<Change>, List<LogRecord>)))));

/// The byte of a level.
fn level_byte(level: Level) -> u8
    ensures { result ≡ level_code level }
{
    match level {
        Level::Snapshot => 1,
        Level::Serializable => 2,
    }
}

/// Adds a generation, and the byte that tells a setup or a commit's level.
fn write_tag(out: &mut Vec<u8>, generation: u64, tag: u8) -> Result<(), AllocError>
    ensures { OnOk result (out.new.items ≡ out.old.items ++ (number generation ++ (tag ∷ []))) }
{
    put_u64(out, generation)?;
    out.push(tag)?;
    Ok(())
}

/// Adds a commit's changes and records.
fn write_work(
    alloc: Global,
    out: &mut Vec<u8>,
    changes: &List<Change>,
    records: &List<LogRecord>,
) -> Result<(), AllocError>
    requires changes { AreMany IsChange changes.now }
    requires records { AreMany IsRecord records.now }
    ensures { OnOk result (out.new.items ≡ out.old.items ++ (many change_code changes.now ++ many record_code records.now)) }
{
    changes.write(alloc, out)?;
    records.write(alloc, out)
}

/// Adds what tells a transaction from others, and its begin.
fn write_id(alloc: Global, out: &mut Vec<u8>, id: &CommitId, begin: u64) -> Result<(), AllocError>
    requires { IsNameBytes id.now.session }
    ensures { OnOk result (out.new.items ≡ out.old.items
        ++ (number id.now.began ++ (name_code id.now.session ++ (number id.now.txn ++ number begin)))) }
{
    put_u64(out, id.began)?;
    id.session.write(alloc, out)?;
    put_u64(out, id.txn)?;
    put_u64(out, begin)
}

impl Part for Entry {
    ghost use Rattle.frame_code.specs.Codes.{entry_code};
    ghost use Rattle.frame_code.specs.Spelled.{IsEntry};
    ghost use Rattle.frame_code.proofs.EntryLaws.{entries_tell};

    ghost code = { entry_code };

    ghost Has = { IsEntry };

    ghost tells = { entries_tell };

    fn write(&self, alloc: Global, out: &mut Vec<u8>) -> Result<(), AllocError> {
        match self {
            Entry::Setup {
                generation,
                schema,
                records,
            } => {
                write_tag(out, *generation, 0)?;
                schema.write(alloc, out)?;
                records.write(alloc, out)
            }
            Entry::Commit {
                generation,
                id,
                begin,
                level,
                changes,
                records,
            } => {
                write_tag(out, *generation, level_byte(*level))?;
                write_id(alloc, out, id, *begin)?;
                write_work(alloc, out, changes, records)
            }
        }
    }

    fn read(alloc: Global, bytes: &[u8]) -> Result<Option<(Entry, &[u8])>, AllocError> {
        let Some((head, rest)) = <(u64, u8)>::read(alloc, bytes)? else {
            return Ok(None);
        };
        let (generation, tag) = head;
        match tag {
            0 => read_setup(alloc, generation, rest),
            1 => read_commit(alloc, generation, Level::Snapshot, rest),
            2 => read_commit(alloc, generation, Level::Serializable, rest),
            _ => Ok(None),
        }
    }
}

/// The entry whose bytes are this generation, the tag of a setup and the front of these.
fn read_setup(
    alloc: Global,
    generation: u64,
    rest: &[u8],
) -> Result<Option<(Entry, &[u8])>, AllocError>
    requires { IsNumber generation }
    ensures { IfOk result (λ found. MatchOption found (Lacks entry_code IsEntry (number generation ++ (0 ∷ rest.now)))
        (λ p. Begins entry_code IsEntry p.0 p.1.now (number generation ++ (0 ∷ rest.now)))) }
{
    let Some((parts, behind)) = SetupParts::read(alloc, rest)? else {
        return Ok(None);
    };
    let (schema, records) = parts;
    let found = Entry::Setup {
        generation,
        schema,
        records,
    };
    Ok(Some((found, behind)))
}

/// The entry whose bytes are this generation, the tag of a commit and the front of these.
fn read_commit(
    alloc: Global,
    generation: u64,
    level: Level,
    rest: &[u8],
) -> Result<Option<(Entry, &[u8])>, AllocError>
    requires { IsNumber generation }
    ensures { IfOk result (λ found. MatchOption found
        (Lacks entry_code IsEntry (number generation ++ (level_code level ∷ rest.now)))
        (λ p. Begins entry_code IsEntry p.0 p.1.now (number generation ++ (level_code level ∷ rest.now)))) }
{
    let Some((parts, behind)) = CommitParts::read(alloc, rest)? else {
        return Ok(None);
    };
    let (began, (session, (txn, (begin, (changes, records))))) = parts;
    let id = CommitId {
        began,
        session,
        txn,
    };
    let found = Entry::Commit {
        generation,
        id,
        begin,
        level,
        changes,
        records,
    };
    Ok(Some((found, behind)))
}
