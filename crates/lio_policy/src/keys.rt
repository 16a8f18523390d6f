//! Entries by a text of theirs that is not to be there before.
ghost use Rattle.std.specs.Prelude.{◌≡◌, ◌++◌, ◌<◌, ◌^◌, map};
ghost use Rattle.lio_policy_draft.specs.Failing.{Passes};
ghost use Rattle.lio_policy.specs.Rules.{behind, key_fails};

use crate::table::Table;
use lio_policy_draft::{PolicyFault, fault_at};
use std::alloc::Global;

/// A text of each entry, and which texts it may not be.
pub(crate) trait Key<T> {
    ghost use Rattle.std.specs.Prelude.{List, ℕ, Bool};

    ghost key_of: { Self → T → List ℕ };

    ghost is_wrong: { Self → List ℕ → Bool };

    /// The text.
    fn key<'t>(&self, item: &'t T) -> &'t [u8]
        ensures { result.now ≡ key_of self.now item.now };

    /// Whether the text may not be one.
    fn is_bad(&self, key: &[u8]) -> bool
        ensures { result ≡ is_wrong self.now key.now };
}

/// Puts the texts of all entries from the given one on into the table, up to the first that fails.
pub(crate) fn add_keys<T, K: Key<T>>(
    alloc: Global,
    by: &K,
    table: &mut Table,
    items: &[T],
    rule: u32,
    first: u128,
) -> Result<(), PolicyFault>
    requires { first < 2 ^ 67 }
    ensures { Passes rule first
        (behind (key_fails (K.is_wrong by.now)) table.old (map (K.key_of by.now) items.now)) result
        (λ _. table.new ≡ table.old ++ map (K.key_of by.now) items.now) }
{
    for (place, item) in items.iter().enumerate() {
        let key = by.key(item);
        if by.is_bad(key) || table.find(key).is_some() {
            return Err(fault_at(rule, first + place as u128));
        }
        table.add(alloc, key)?;
    }
    Ok(())
}
