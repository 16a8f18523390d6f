//! Journals.
#![tactic(auto, using(crate::proofs::RisingLemmas::rising_with))]

ghost use Rattle.std.specs.Prelude.{◌≡◌, ◌++◌, [], ◌∷◌, OnOk, OnErr};
ghost use Rattle.lio_events.specs.Rising.{AreRising, IsLater};

use lio_clauses::NoMemory;
use lio_values::Entry;
use std::alloc::Global;
use std::marker::Model;

/// The entries of a run, in the order of their tickets, which rise.
#[derive(Drop)]
pub struct Journal {
    entries: Vec<Entry>,
}

impl Model for Journal {
    ghost use Rattle.std.specs.Prelude.{List};
    ghost use Rattle.lio_values.specs.declared.entry.Entry.{Entry};
    ghost use Rattle.lio_events.specs.Rising.{AreRising};
    ghost use Rattle.lio_values.specs.contracts.entry.Entry as entry;
    ghost use Rattle.std.specs.Coded.{coded_list};

    ghost Value = { List Entry };

    ghost coded = { coded_list entry.the_row.coded };

    ghost view = { λ journal. journal.entries.items };

    ghost invariant = { λ journal. AreRising journal.entries.items };
}

impl Journal {
    /// No entries.
    pub fn new(alloc: Global) -> Journal
        ensures { result ≡ [] }
    {
        Journal {
            entries: Vec::new(alloc),
        }
    }

    /// The journal of these entries, whose tickets rise.
    pub fn of(entries: Vec<Entry>) -> Journal
        requires { AreRising entries.items }
        ensures { result ≡ entries.items }
    {
        Journal { entries }
    }

    /// Puts an entry last, whose ticket is greater than all that are there. After a refusal the
    /// journal is as before.
    pub fn push(&mut self, entry: Entry) -> Result<(), NoMemory>
        requires { IsLater self.old entry }
        ensures ok { OnOk result (self.new ≡ self.old ++ entry ∷ []) }
        ensures err { OnErr result (self.new ≡ self.old) }
    {
        self.entries.push(entry)?;
        Ok(())
    }

    /// The entries in order.
    pub fn entries(&self) -> &[Entry]
        ensures entries { result.now ≡ self.now }
        ensures rising { AreRising self.now }
    {
        self.entries.as_slice()
    }
}
