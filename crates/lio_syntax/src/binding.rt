//! A name with its value.
ghost use Rattle.std.specs.Prelude.{◌≡◌, IfOk};

use lio_clauses::NoMemory;
use lio_labels::Label;
use lio_values::{Name, Value};
use std::alloc::Global;

/// A name with its value.
#[derive(Drop)]
pub struct Binding {
    pub name: Name,
    pub value: Value,
}

impl Binding {
    ghost use Rattle.lio_syntax.specs.Hiding.{hide_binding};

    /// An equal binding.
    pub fn copy(&self, alloc: Global) -> Result<Binding, NoMemory>
        ensures { IfOk result (λ binding. binding ≡ self.now) }
    {
        let name = self.name.copy(alloc)?;
        let value = self.value.copy(alloc)?;
        Ok(Binding { name, value })
    }

    /// The binding as an observer sees it.
    pub fn erase(&self, alloc: Global, observer: &Label) -> Result<Binding, NoMemory>
        ensures { IfOk result (λ binding. binding ≡ hide_binding observer.now self.now) }
    {
        let name = self.name.copy(alloc)?;
        let value = self.value.erase(alloc, observer)?;
        Ok(Binding { name, value })
    }
}
