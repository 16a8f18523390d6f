//! Questions about clauses that are kept as 64 bits.
ghost use Rattle.std.specs.Prelude.{◌≡◌, ◌==◌, ◌&&◌, ◌||◌, not, bit_and};
ghost use Rattle.std.specs.List.{list_all, list_any};
ghost use Rattle.lio_clauses.specs.Bits.{covers};

/// Whether a clause contains one of the kept ones.
pub(crate) fn is_covered(kept: &[u64], clause: u64) -> bool
    ensures { result ≡ covers kept.now clause }
{
    kept.iter().any(|k| *k & clause == *k)
}

/// Whether a clause contains one of the kept ones and isn't that one.
pub(crate) fn contains_other(kept: &[u64], clause: u64) -> bool
    ensures { result ≡ list_any (λ k. not (k == clause) && bit_and k clause == k) kept.now }
{
    kept.iter().any(|k| *k != clause && *k & clause == *k)
}

/// Whether each clause contains one of the left or of the right ones.
pub(crate) fn are_covered(left: &[u64], right: &[u64], clauses: &[u64]) -> bool
    ensures { result ≡ list_all (λ c. covers left.now c || covers right.now c) clauses.now }
{
    clauses
        .iter()
        .all(|c| is_covered(left, *c) || is_covered(right, *c))
}

/// Whether each clause has a member in a set.
pub(crate) fn are_met(clauses: &[u64], who: u64) -> bool
    ensures { result ≡ list_all (λ c. not (bit_and c who == 0)) clauses.now }
{
    clauses.iter().all(|c| *c & who != 0)
}
