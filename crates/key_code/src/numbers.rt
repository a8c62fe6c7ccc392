ghost use Rattle.std.specs.Prelude.{◌≡◌};
ghost use Rattle.cdb_values.specs.declared.values.Value.TheVariants.{Int};
ghost use Rattle.key_code.specs.Codes.{lifted, complement, IsInRange};

/// The number of the sign bit.
const SIGN: u64 = 1 << 63;

/// A signed number moved up by 2^63: its sign bit is flipped.
pub(crate) fn lift(x: i64) -> u64
    ensures lifted { result ≡ lifted x }
    ensures range { IsInRange (Int x) }
{
    if x >= 0 {
        x as u64 + SIGN
    } else {
        (x - i64::MIN) as u64
    }
}

/// The signed number that moves up to this one.
pub(crate) fn lower(n: u64) -> i64
    ensures lifts { lifted result ≡ n }
    ensures range { IsInRange (Int result) }
{
    if n >= SIGN {
        (n - SIGN) as i64
    } else {
        n as i64 + i64::MIN
    }
}

/// A signed number in two's complement.
pub(crate) fn complement_of(x: i64) -> u64
    ensures complement { result ≡ complement x }
    ensures range { IsInRange (Int x) }
{
    if x >= 0 {
        x as u64
    } else {
        (x - i64::MIN) as u64 + SIGN
    }
}

/// The signed number of this two's complement.
pub(crate) fn signed(n: u64) -> i64
    ensures complements { complement result ≡ n }
    ensures range { IsInRange (Int result) }
{
    if n < SIGN {
        n as i64
    } else {
        (n - SIGN) as i64 + i64::MIN
    }
}
