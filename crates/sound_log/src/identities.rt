//! Whether the identities of entries are apart.
ghost use Rattle.std.specs.Prelude.{◌∷◌, [], IfOk};
ghost use Rattle.std.specs.Bool.{Decides};
ghost use Rattle.sound_log.specs.Identities.{ids_of, ids_in, ids_by, AreApart, IsPut};

use indexmap::IndexSet;
use phys_log::{CommitId, Entry};
use std::alloc::{AllocError, Global};

/// What a set has of an identity.
#[derive(Clone, Copy, PartialEq, Eq, Hash)]
pub(crate) struct IdKey<'a> {
    began: u64,
    session: &'a [u8],
    txn: u64,
}

/// Whether no two of these entries have the same identity. Each is looked for in a set of those before it. `Err` is
/// want of memory.
pub(crate) fn are_apart(alloc: Global, entries: &[Entry]) -> Result<bool, AllocError>
    ensures { IfOk result (λ apart. Decides apart (AreApart (ids_in entries.now))) }
{
    let mut known = IndexSet::new(alloc);
    let mut rest = entries;
    'entries: while let Some((entry, others)) = rest.split_first() {
        let new = add_entry(&mut known, entry)?;
        if !new {
            return Ok(false);
        }
        rest = others;
    }
    Ok(true)
}

/// Puts the identity of an entry, where it has one, behind those that are known; `false` where it is among them.
fn add_entry<'a>(known: &mut IndexSet<IdKey<'a>>, entry: &'a Entry) -> Result<bool, AllocError>
    ensures { IfOk result (IsPut (ids_by known.old.keys) (ids_of entry.now) (ids_by known.new.keys)) }
{
    match entry {
        Entry::Setup { .. } => Ok(true),
        Entry::Commit { id, .. } => add_id(known, id),
    }
}

/// Puts an identity behind those that are known; `false` where it is among them.
fn add_id<'a>(known: &mut IndexSet<IdKey<'a>>, id: &'a CommitId) -> Result<bool, AllocError>
    ensures { IfOk result (IsPut (ids_by known.old.keys) (id.now ∷ []) (ids_by known.new.keys)) }
{
    let key = IdKey {
        began: id.began,
        session: id.session.as_bytes(),
        txn: id.txn,
    };
    match known.insert(key) {
        Ok(new) => Ok(new),
        Err(_) => Err(AllocError),
    }
}
