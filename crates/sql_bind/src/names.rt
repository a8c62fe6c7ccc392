//! Names that may stand once.
ghost use Rattle.std.specs.Prelude.{◌≡◌, map};
ghost use Rattle.std.specs.List.{list_any};
ghost use Rattle.std.specs.Str.{bytes_eq};
ghost use Rattle.cdb_values.specs.Tables.{has_twice};

/// Whether a name stands twice among these.
#[tactic(auto, using(crate::proofs::ListLemmas::any_seen))]
pub(crate) fn is_twice(names: &[&[u8]]) -> bool
    ensures { result ≡ has_twice (map (λ n. n.now) names.now) }
{
    match names.split_first() {
        None => false,
        Some((name, rest)) => is_among(name, rest) || is_twice(rest),
    }
}

/// Whether a name is among these.
fn is_among(name: &[u8], names: &[&[u8]]) -> bool
    ensures { result ≡ list_any (λ other. bytes_eq other.now name.now) names.now }
{
    names.iter().any(|other| *other == name)
}
