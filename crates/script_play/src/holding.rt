//! Values that are held over a step that may fail.
ghost use Rattle.std.specs.Prelude.{◌≡◌, Ok, Err, MatchResult};

use std::alloc::AllocError;

/// What a step gave, beside a value from before it, which is let go where the step failed.
pub(crate) fn beside<T: Drop, U>(
    value: T,
    step: Result<U, AllocError>,
) -> Result<(T, U), AllocError>
    ensures { MatchResult result (λ both. (both.0 ≡ value) × (step ≡ Ok both.1)) (λ e. step ≡ Err e) }
{
    match step {
        Ok(found) => Ok((value, found)),
        Err(stop) => Err(stop),
    }
}
