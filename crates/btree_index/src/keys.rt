ghost use Rattle.std.specs.Prelude.{◌≡◌};
ghost use Rattle.btree_index.specs.Keys.{before, same_key};

/// Whether a key comes before another, byte by byte.
#[tactic(auto, unfolding(crate::specs::Keys::before))]
pub fn is_before(a: &[u8], b: &[u8]) -> bool
    ensures { result ≡ before a.now b.now }
{
    a.cmp(b).is_lt()
}

/// Whether two keys are the same.
#[tactic(auto, unfolding(crate::specs::Keys::same_key))]
pub(crate) fn is_same(a: &[u8], b: &[u8]) -> bool
    ensures { result ≡ same_key a.now b.now }
{
    a == b
}
