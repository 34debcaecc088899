//! Whether two regions are one taking, and two lists of bytes the same.

ghost use Rattle.std.specs.Prelude.{◌≡◌};
ghost use Rattle.pool_law.specs.Same.{same_bytes, same_taking};

use pool_law::RegionId;

/// Whether two regions are the same taking.
pub(crate) fn same_taking(a: &RegionId, b: &RegionId) -> bool
    ensures { result ≡ same_taking a.now b.now }
{
    a.place == b.place && (a.class == b.class && (a.taking == b.taking && a.owner == b.owner))
}

/// Whether two lists of bytes are the same, in length and each byte.
#[tactic(auto, using(crate::proofs::BytesLemmas::equal_is_same))]
pub fn same_bytes(a: &[u8], b: &[u8]) -> bool
    ensures { result ≡ same_bytes a.now b.now }
{
    a == b
}
