//! The procedures of a text, by name.
ghost use Rattle.std.specs.Prelude.{◌≡◌, ℕ, List, None, Some, OnOk};

use indexmap::IndexMap;
use lio_clauses::NoMemory;
use std::alloc::Global;

/// Procedures by name, each with the number of its parameters.
#[derive(Drop)]
pub(crate) struct Headers {
    counts: IndexMap<Vec<u8>, usize>,
}

impl Headers {
    ghost use Rattle.lio_syntax.specs.Headers.{count_in};
    ghost use Rattle.lio_syntax.specs.Rules.{or_else, count_if_named};

    /// No procedures.
    pub(crate) fn new(alloc: Global) -> Headers
        ensures { (q : List ℕ) → count_in result q ≡ None }
    {
        Headers {
            counts: IndexMap::new(alloc),
        }
    }

    /// The number of parameters of the procedure with this name.
    pub(crate) fn find(&self, name: &[u8]) -> Option<usize>
        ensures { result ≡ count_in self.now name.now }
    {
        self.counts.get(name).copied()
    }

    /// Adds a procedure, unless there is one with its name.
    pub(crate) fn add(&mut self, alloc: Global, name: &[u8], count: usize) -> Result<(), NoMemory>
        ensures { OnOk result ((q : List ℕ) → count_in self.new q ≡ or_else (count_in self.old q)
            (count_if_named q (Some (record { name = name.now; count = count })))) }
    {
        if self.find(name).is_some() {
            return Ok(());
        }
        let name = Vec::from_slice(alloc, name)?;
        self.counts.insert(name, count)?;
        Ok(())
    }
}
