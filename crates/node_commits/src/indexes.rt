//! The identities of a log that was read or taken, of which nothing says that they are apart.
ghost use Rattle.std.specs.Prelude.{◌∷◌, [], IfOk};
ghost use Rattle.blkseq_table.specs.Known.{AreBelow, known_at};
ghost use Rattle.blkseq_table.specs.OfLogs.{known_of};
ghost use Rattle.node_commits.specs.Indexes.{IsIndex, IsPut};

use crate::copies::copy_id;
use blkseq_table::BlkSeq;
use phys_log::{CommitId, Entry};
use std::alloc::{AllocError, Global};

/// The identities of these entries; `None` where one comes twice. The error is want of memory.
pub(crate) fn index_of(alloc: Global, entries: &[Entry]) -> Result<Option<BlkSeq>, AllocError>
    ensures { IfOk result (IsIndex entries.now) }
{
    let mut known = BlkSeq::new(alloc);
    let mut rest = entries;
    let mut position = 1u64;
    'entries: while let Some((entry, others)) = rest.split_first() {
        let is_new = put_of(&mut known, entry, position)?;
        if !is_new {
            return Ok(None);
        }
        rest = others;
        position += 1;
    }
    Ok(Some(known))
}

/// Puts the identity of an entry, where it has one, behind the others; `false` where it is among them.
fn put_of(known: &mut BlkSeq, entry: &Entry, position: u64) -> Result<bool, AllocError>
    requires { AreBelow known.old position }
    ensures { IfOk result (IsPut known.old (known_of position entry.now) known.new) }
{
    match entry {
        Entry::Setup { .. } => Ok(true),
        Entry::Commit { id, .. } => put(known, id, position),
    }
}

/// Puts an identity behind the others; `false` where it is among them.
fn put(known: &mut BlkSeq, id: &CommitId, position: u64) -> Result<bool, AllocError>
    requires { AreBelow known.old position }
    ensures { IfOk result (IsPut known.old (known_at id.now position ∷ []) known.new) }
{
    if known.lookup(id).is_some() {
        return Ok(false);
    }
    let its = copy_id(id)?;
    known.insert(its, position)?;
    Ok(true)
}
