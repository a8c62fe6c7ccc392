ghost use Rattle.std.specs.Prelude.{◌≡◌, ◌+◌, ◌*◌, ◌%◌, ◌^◌};

/// What a number is multiplied by before the next one is drawn.
const FACTOR: u64 = 6364136223846793005;

/// What is added then.
const STEP: u64 = 1442695040888963407;

/// The next number of a row of numbers without much order. The high bits are the better ones.
pub fn next_number(x: u64) -> u64
    ensures { result ≡ (x * FACTOR % 2 ^ 64 + STEP) % 2 ^ 64 }
{
    x.wrapping_mul(FACTOR).wrapping_add(STEP)
}
