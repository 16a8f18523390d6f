//! The clauses that a text has, as they are written.
ghost use Rattle.std.specs.Prelude.{◌≡◌, ◌⊎◌, ◌<◌, ◌^◌, ◌++◌, ◌∷◌, [], map, IsTrue, IfOk, IfErr};
ghost use Rattle.std.specs.Prelude.{Ok, Err};
ghost use Rattle.std.specs.List.{All};
ghost use Rattle.lio_clauses.specs.Principals.{principals};
ghost use Rattle.lio_clauses.specs.FormulaText.{narrow};

use crate::faults::TextFault;
use crate::formula::Formula;
use std::alloc::Global;

/// Clauses in the order of a text, with principal n at bit n. A lack of memory is told only once
/// the whole text was read, since a text that is not of the grammar is refused for that.
#[derive(Drop)]
pub(super) struct Clauses {
    masks: Vec<u64>,
    complete: bool,
    ghost fits: { All (λ mask. mask < 2 ^ 64) masks.items },
}

impl Clauses {
    /// No clauses.
    pub(super) fn new(alloc: Global) -> Clauses
        ensures { result.masks.items ≡ [] }
    {
        Clauses {
            masks: Vec::new(alloc),
            complete: true,
        }
    }

    /// Adds a clause, unless memory for it or for an earlier one was refused.
    pub(super) fn push(&mut self, clause: u64)
        ensures complete { IsTrue self.new.complete → IsTrue self.old.complete }
        ensures masks { IsTrue self.new.complete
            → self.new.masks.items ≡ self.old.masks.items ++ clause ∷ [] }
    {
        if self.masks.push(clause).is_err() {
            self.complete = false;
        }
    }

    /// The canonical form of the conjunction of the clauses.
    pub(super) fn canonical(self, alloc: Global) -> Result<Formula, TextFault>
        ensures ok { IfOk result (λ formula. IsTrue self.complete
            × (narrow (map principals self.masks.items) ≡ Ok formula)) }
        ensures fault { IfErr result (λ fault. (fault ≡ TextFault.NoMemory)
            ⊎ (IsTrue self.complete × (narrow (map principals self.masks.items) ≡ Err fault))) }
    {
        if !self.complete {
            return Err(TextFault::NoMemory);
        }
        Ok(Formula::of_clauses(alloc, self.masks.as_slice())?)
    }
}
