//! The entries of a journal in the journal's order.
ghost use Rattle.std.specs.Prelude.{◌≡◌, List, OnOk};
ghost use Rattle.std.specs.List.Sorted.{IsNonDecreasingBy};
ghost use Rattle.lio_values.specs.declared.entry.Entry.{Entry as entry_type};
ghost use Rattle.lio_calculus.specs.Journals.{AreNumberedFrom, HaveSameEntries};

use lio_clauses::NoMemory;
use lio_values::Entry;

/// Puts entries, which stand in any order, in the order of their tickets. Those of a journal become
/// the journal. It is quick where they rise in a few runs.
pub fn put_in_order(entries: &mut Vec<Entry>) -> Result<(), NoMemory>
    ensures same { HaveSameEntries entries.old.items entries.new.items }
    ensures rising { OnOk result
        (IsNonDecreasingBy (λ (entry : entry_type). entry.ticket) entries.new.items) }
    ensures journal { OnOk result ((journal : List entry_type) → AreNumberedFrom 0 journal
        → HaveSameEntries entries.old.items journal → entries.new.items ≡ journal) }
{
    entries.sort_by_key(|entry| entry.ticket)?;
    Ok(())
}
