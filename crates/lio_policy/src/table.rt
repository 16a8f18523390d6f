//! Texts by their places.
ghost use Rattle.std.specs.Prelude.{◌≡◌, ◌++◌, [], ◌∷◌, None, OnOk};
ghost use Rattle.lio_clauses.specs.Names.{number_of};

use indexmap::IndexSet;
use lio_clauses::NoMemory;
use std::alloc::Global;
use std::marker::Model;

/// Distinct texts, each with its place, from 0.
#[derive(Drop)]
pub(crate) struct Table {
    set: IndexSet<Vec<u8>>,
}

impl Model for Table {
    ghost use Rattle.std.specs.Prelude.{List, ℕ};
    ghost use Rattle.lio_clauses.specs.Names.{bytes_of};

    ghost Value = { List (List ℕ) };

    ghost view = { λ table. bytes_of table.set.keys };
}

impl Table {
    /// No texts.
    pub(crate) fn new(alloc: Global) -> Table
        ensures { result ≡ [] }
    {
        Table {
            set: IndexSet::new(alloc),
        }
    }

    /// The place of a text.
    pub(crate) fn find(&self, text: &[u8]) -> Option<usize>
        ensures { result ≡ number_of self.now text.now }
    {
        self.set.get_index_of(text)
    }

    /// Puts a text that is not there last.
    pub(crate) fn add(&mut self, alloc: Global, text: &[u8]) -> Result<(), NoMemory>
        requires { number_of self.old text.now ≡ None }
        ensures { OnOk result (self.new ≡ self.old ++ text.now ∷ []) }
    {
        let text = Vec::from_slice(alloc, text)?;
        self.set.insert(text)?;
        Ok(())
    }
}
