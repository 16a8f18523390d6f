//! A value on the heap.
ghost use Rattle.std.specs.Prelude.{◌≡◌, IfOk};

use lio_clauses::NoMemory;
use std::alloc::Global;
use std::marker::Model;

/// A value on the heap, which contracts see as if it stood in place. It keeps the values of a turn
/// small.
#[derive(Debug, Drop)]
pub struct Held<T> {
    value: Box<T>,
}

impl<T> Model for Held<T> {
    ghost Value = { T };

    ghost coded = { T.code };

    ghost view = { λ held. held.value.value };
}

impl<T> Held<T> {
    ghost use Rattle.std.specs.Prelude.{◌≡◌, IfOk};
    ghost use Rattle.std.specs.Borrow.{Lends, sem};
    ghost use Rattle.lio_values.specs.contracts.held.Held.{the_row};

    /// Puts a value on the heap.
    pub fn new(alloc: Global, value: T) -> Result<Held<T>, NoMemory>
    where
        T: Drop,
        ensures { IfOk result (λ held. held ≡ value) }
    {
        let value = Box::new(alloc, value)?;
        Ok(Held { value })
    }

    /// The value.
    pub fn get(&self) -> &T
        ensures { result.now ≡ self.now }
    {
        &self.value
    }

    /// The value, to be changed in place.
    pub fn get_mut(&mut self) -> &mut T
        ensures* writes_back { sem 𝓛 (Lends (the_row T.row) T.row self.entry result (λ w. w)) }
        ensures value { result.now ≡ self.old }
    {
        &mut self.value
    }

    /// Gives the value back.
    pub fn into_inner(self) -> T
        ensures { result ≡ self }
    {
        let Held { value } = self;
        Box::into_inner(value)
    }
}

impl<T: PartialEq> PartialEq for Held<T> {
    ghost eq = { T.eq };

    ghost laws = { T.PartialEq.laws };

    fn eq(&self, other: &Held<T>) -> bool {
        self.get() == other.get()
    }
}

impl<T: Eq> Eq for Held<T> {
    ghost laws = { T.Eq.laws };
}
