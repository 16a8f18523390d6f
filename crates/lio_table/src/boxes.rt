//! Values put into slots and taken out of them.
ghost use Rattle.std.specs.Prelude.{◌≡◌, ◌≤◌, [], IfOk, List, Some, map, vec_capacity};
ghost use Rattle.std.specs.Mem.Slots.{IsFull, slots_items, slots_len};

use atomic_table::Closed;
use lio_clauses::NoMemory;
use lio_values::Held;
use std::alloc::Global;

/// Puts each value on the heap.
pub(crate) fn boxed<T: Drop>(
    alloc: Global,
    values: Vec<T>,
) -> Result<Vec<Option<Held<T>>>, NoMemory>
    ensures { IfOk result (λ slots. slots.items ≡ map Some values.items) }
{
    let mut slots = Vec::with_capacity(alloc, values.len())?;
    for value in values {
        slots.push(Some(Held::new(alloc, value)?))?;
    }
    Ok(slots)
}

/// Takes the values out of the slots of a table that no thread shares any more, and ends it.
pub(crate) fn unboxed<T: Drop>(
    mut closed: Closed<Option<Held<T>>, Global>,
    mut values: Vec<T>,
) -> Vec<T>
    requires none { values.items ≡ [] }
    requires room { slots_len closed.slots ≤ vec_capacity values }
    requires full { IsFull closed.slots }
    requires each { (all : List T) × (slots_items closed.slots ≡ map Some all) }
    ensures { slots_items closed.slots ≡ map Some result.items }
{
    let mut i = 0;
    while i < closed.slot_count() {
        match closed.take(i) {
            Some(value) => values.push_reserved(value.into_inner()),
            None => unreachable!(),
        }
        i += 1;
    }
    closed.free();
    values
}
