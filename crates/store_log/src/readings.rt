//! What bytes stand for.
ghost use Rattle.std.specs.Prelude.{◌≡◌, ◌≤◌, ◌↔◌, drop, length, IfOk, IsTrue};
ghost use Rattle.store_log.specs.declared.standings.Standing.TheVariants.{Log};
ghost use Rattle.store_log.specs.Firsts.{IsFirst, IsWhose, agrees};
ghost use Rattle.store_log.specs.Held.{at_first, IsUnbegun, StandsFor};
ghost use Rattle.store_log.specs.Steps.{IsReadTo};

use crate::held_logs::HeldLog;
use crate::standings::Standing;
use crate::steps::{Step, take_next};
use frame_code::{Frame, VERSION};
use log_format::{Reading, read_frame};
use log_replay::PagedLog;
use std::alloc::{AllocError, Global};

/// How many bytes a header takes.
pub(crate) const HEADER_SIZE: usize = 27;

/// What these bytes stand for, to a node of a cluster. The error is want of memory.
#[tactic(auto, using(crate::proofs::StepLemmas::header_read, crate::proofs::StepLemmas::header_within, crate::proofs::StepLemmas::unbegun_stands, crate::proofs::StepLemmas::bad_first_stands))]
pub fn standing_of(
    alloc: Global,
    bytes: &[u8],
    node: u8,
    cluster: u128,
) -> Result<Standing, AllocError>
    ensures { IfOk result (λ s. StandsFor node cluster bytes.now s) }
{
    match first_frame(alloc, bytes, node, cluster)? {
        First::Ours => frames_standing(alloc, bytes, node, cluster),
        First::Foreign => Ok(Standing::Foreign),
        First::Unbegun => Ok(Standing::Log {
            promised: 0,
            accepted: 0,
            entries: PagedLog::new(alloc),
        }),
        First::Bad => Ok(Standing::Bad { at: 0 }),
    }
}

/// What stands at the front of a store.
#[derive(Drop)]
pub(crate) enum First {
    /// The header of this node and cluster.
    Ours,
    /// Another header.
    Foreign,
    /// Fewer bytes than a header, which are a front of one.
    Unbegun,
    /// Neither.
    Bad,
}

/// What stands at the front of a store of this node and cluster. The error is want of memory.
#[tactic(auto, using(crate::proofs::FirstLemmas::whole_first, crate::proofs::FirstLemmas::bad_first, crate::proofs::FirstLemmas::short_first))]
pub(crate) fn first_frame(
    alloc: Global,
    bytes: &[u8],
    node: u8,
    cluster: u128,
) -> Result<First, AllocError>
    ensures { IfOk result (λ f. IsFirst f node cluster bytes.now) }
{
    match read_frame(alloc, bytes)? {
        Reading::Whole { frame, .. } => Ok(header_is(&frame, node, cluster)),
        Reading::Short => {
            if is_unbegun(alloc, bytes)? {
                return Ok(First::Unbegun);
            }
            Ok(First::Bad)
        }
        Reading::Bad => Ok(First::Bad),
    }
}

/// Whose header a frame is.
fn header_is(frame: &Frame, node: u8, cluster: u128) -> First
    ensures { IsWhose result frame.now node cluster }
{
    match frame {
        Frame::Header {
            version,
            node: owner,
            cluster: owners,
        } => {
            if *version == VERSION && *owner == node && *owners == cluster {
                return First::Ours;
            }
            First::Foreign
        }
        _ => First::Bad,
    }
}

/// Whether bytes are fewer than a header and a front of one. The error is want of memory.
#[tactic(auto, using(crate::proofs::FirstLemmas::not_unbegun))]
fn is_unbegun(alloc: Global, bytes: &[u8]) -> Result<bool, AllocError>
    ensures { IfOk result (λ b. IsTrue b ↔ IsUnbegun bytes.now) }
{
    if bytes.len() >= HEADER_SIZE {
        return Ok(false);
    }
    let begin: [u8; 9] = [1, 0, 0, 0, 0, 0, 0, 0, 18];
    Ok(agree(bytes, &begin))
}

/// Whether two lists of bytes agree as far as both go.
fn agree(left: &[u8], right: &[u8]) -> bool
    ensures { result ≡ agrees left.now right.now }
{
    let mut first = left;
    let mut second = right;
    'both: while let Some((a, more)) = first.split_first() {
        let Some((b, others)) = second.split_first() else {
            return true;
        };
        if *a != *b {
            return false;
        }
        first = more;
        second = others;
    }
    true
}

/// What bytes that begin with the header of this node and cluster stand for. The error is want of memory.
#[tactic(auto, using(crate::proofs::StepLemmas::size_within, crate::proofs::StepLemmas::left_is_less, crate::proofs::StepLemmas::offset_within, crate::proofs::StepLemmas::read_more, crate::proofs::StepLemmas::log_stands, crate::proofs::StepLemmas::fault_stands))]
fn frames_standing(
    alloc: Global,
    bytes: &[u8],
    node: u8,
    cluster: u128,
) -> Result<Standing, AllocError>
    requires begun { IsReadTo node cluster bytes.now at_first (drop 27 bytes.now) 27 }
    requires size { 27 ≤ length bytes.now }
    ensures { IfOk result (λ s. StandsFor node cluster bytes.now s) }
{
    let (_, behind) = bytes.split_at(HEADER_SIZE);
    let mut rest = behind;
    let mut at = HEADER_SIZE as u64;
    let mut held = HeldLog::new(alloc);
    'frames: loop {
        match take_next(alloc, held, rest)? {
            Step::More(now, size) => {
                let (_, left) = rest.split_at(size as usize);
                held = now;
                rest = left;
                at += size;
            }
            Step::End(now) => return ended(alloc, now),
            Step::Wrong => return Ok(Standing::Bad { at }),
        }
    }
}

/// What is held at the end, with an open adoption dropped. The error is want of memory.
fn ended(alloc: Global, held: HeldLog) -> Result<Standing, AllocError>
    ensures { IfOk result (λ s. s ≡ Log held.promised held.accepted held.entries) }
{
    let (promised, accepted, entries) = held.into_parts(alloc)?;
    Ok(Standing::Log {
        promised,
        accepted,
        entries,
    })
}
