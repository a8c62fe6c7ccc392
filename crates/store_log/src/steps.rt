//! One frame more.
ghost use Rattle.std.specs.Prelude.{IfOk};
ghost use Rattle.store_log.specs.Steps.{IsStep};

use crate::held_logs::{HeldLog, TakeFault};
use log_format::{Reading, read_frame};
use std::alloc::{AllocError, Global};

/// What the bytes behind the frames so far make of what is held.
#[derive(Drop)]
pub(crate) enum Step {
    /// A frame more is held, and takes so many bytes.
    More(HeldLog, u64),
    /// Less than an envelope is left, and what is held stays.
    End(HeldLog),
    /// A frame is bad.
    Wrong,
}

/// Takes the frame at the front of the bytes, where there is one.
#[tactic(auto, using(crate::proofs::StepLemmas::more_is, crate::proofs::StepLemmas::misplaced_is, crate::proofs::StepLemmas::bad_is))]
pub(crate) fn take_next(alloc: Global, held: HeldLog, bytes: &[u8]) -> Result<Step, AllocError>
    ensures { IfOk result (λ s. IsStep s held bytes.now) }
{
    match read_frame(alloc, bytes)? {
        Reading::Short => Ok(Step::End(held)),
        Reading::Bad => Ok(Step::Wrong),
        Reading::Whole { frame, size } => match held.take(alloc, frame) {
            Ok(now) => Ok(Step::More(now, size)),
            Err(TakeFault::Misplaced) => Ok(Step::Wrong),
            Err(TakeFault::NoMemory) => Err(AllocError),
        },
    }
}
