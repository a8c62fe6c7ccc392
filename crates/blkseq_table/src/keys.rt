//! Identities as keys of a map: a session stands there by its number, which is its index among the sessions that came.
ghost use Rattle.std.specs.Prelude.{◌≡◌, IfOk, IfSome, IsNone};
ghost use Rattle.std.specs.List.{IsDistinct};
ghost use Rattle.blkseq_table.specs.Kept.{is_same_name, key_by, IsNoSession, IsKeyOf, KeepsNumbers};

use indexmap::IndexSet;
use phys_log::CommitId;
use std::alloc::AllocError;

/// An identity, by the number of its session.
#[derive(Clone, Copy, PartialEq, Eq, Hash)]
pub(crate) struct NumberedId {
    began: u64,
    session: usize,
    txn: u64,
}

impl NumberedId {
    /// An identity, with this number in the place of its session.
    fn of(id: &CommitId, session: usize) -> NumberedId
        ensures { result ≡ key_by id.now session }
    {
        NumberedId {
            began: id.began,
            session,
            txn: id.txn,
        }
    }
}

/// An identity by the number of its session; `None` where the session has not come. Takes no memory.
pub(crate) fn key_of(sessions: &IndexSet<Vec<u8>>, id: &CommitId) -> Option<NumberedId>
    ensures named { IfSome result (λ key. IsKeyOf sessions.now.keys key id.now) }
    ensures none { IsNone result → IsNoSession sessions.now.keys id.now.session }
{
    let session = sessions.get_index_of(id.session.as_bytes())?;
    Some(NumberedId::of(id, session))
}

/// The same, where a session that has not come gets the next number. The error is want of memory.
pub(crate) fn key_for(
    sessions: &mut IndexSet<Vec<u8>>,
    id: &CommitId,
) -> Result<NumberedId, AllocError>
    requires apart { IsDistinct is_same_name sessions.old.keys }
    ensures named { IfOk result (λ key. IsKeyOf sessions.new.keys key id.now) }
    ensures numbers { KeepsNumbers sessions.old.keys sessions.new.keys }
    ensures apart { IsDistinct is_same_name sessions.new.keys }
{
    match key_of(sessions, id) {
        Some(key) => Ok(key),
        None => add_session(sessions, id),
    }
}

/// Puts the session of an identity behind those that came.
fn add_session(sessions: &mut IndexSet<Vec<u8>>, id: &CommitId) -> Result<NumberedId, AllocError>
    requires apart { IsDistinct is_same_name sessions.old.keys }
    ensures named { IfOk result (λ key. IsKeyOf sessions.new.keys key id.now) }
    ensures numbers { KeepsNumbers sessions.old.keys sessions.new.keys }
    ensures apart { IsDistinct is_same_name sessions.new.keys }
{
    let alloc = *sessions.allocator();
    let name = Vec::from_slice(alloc, id.session.as_bytes())?;
    match sessions.insert_full(name) {
        Ok((session, _)) => Ok(NumberedId::of(id, session)),
        Err(_) => Err(AllocError),
    }
}
