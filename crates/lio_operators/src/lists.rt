//! Operators on a list and another value.
#![tactic(auto, using(crate::proofs::ListLemmas::lists))]

ghost use Rattle.std.specs.Prelude.{◌≡◌, ◌+◌, ◌&&◌, ℕ, IsTrue, nat_le, nat_lt, take, drop};
ghost use Rattle.lio_values.specs.Forest.{Forest};
ghost use Rattle.lio_values.specs.Views.{values_of};
ghost use Rattle.lio_operators.specs.Answers.{Answers};
ghost use Rattle.lio_operators.specs.Lists as spec;
ghost use Rattle.lio_operators.specs.Lists.{found, list, list_and, on_last, on_lists, value_at};
ghost use Rattle.lio_operators.specs.Outcomes.{Tells, is_large, list_makes_large};
ghost use Rattle.lio_operators.specs.Texts.{place_at};

use crate::faults::OpFault;
use crate::outcome::Outcome;
use crate::texts::place_in;
use lio_syntax_lines::Two;
use lio_values::{FaultKind, Items, Plain, Trap, Value};
use std::alloc::Global;

/// What an operator on a list and another value gives without memory.
pub(crate) fn small_of_list(op: Two, b: &Plain) -> Outcome
    ensures large { is_large result ≡ list_makes_large op b.now }
    ensures given { (longest : ℕ) (items : Forest)
        → Tells result (list_and longest op items b.now) }
{
    match op {
        Two::Push => Outcome::Large,
        Two::Add => match b {
            Plain::Items(_) => Outcome::Large,
            _ => Outcome::Fault(Trap::BadType),
        },
        Two::At | Two::From | Two::Upto => match b {
            Plain::Whole(_) => Outcome::Large,
            _ => Outcome::Fault(Trap::BadType),
        },
        _ => Outcome::Fault(Trap::BadType),
    }
}

/// Whether a list may be made whose deepest item is so deep, whose items have these sizes together,
/// and that has so many sealed values.
fn may_be_made(deepest: u64, size: u64, seals: u64, longest: u32) -> bool
    ensures { result
        ≡ (nat_lt deepest 8 && (nat_le (size + 1) longest && nat_le seals 4)) }
{
    deepest < 8 && size < u64::from(longest) && seals <= 4
}

/// The list with a value last.
pub(crate) fn pushed(
    alloc: Global,
    items: &Items,
    value: Value,
    longest: u32,
) -> Result<Value, OpFault>
    ensures { Answers (on_last longest Two.Push items.now value) result }
{
    let deepest = items.deepest().max(value.depth());
    let size = items.size().saturating_add(value.size());
    let seals = items.seals().saturating_add(value.seals());
    if !may_be_made(deepest, size, seals, longest) {
        return Err(OpFault::Kind(FaultKind::TooLong));
    }
    let mut list = items.copy(alloc)?;
    list.push(value)?;
    Ok(Value::Bare(Plain::Items(list)))
}

/// The one list and then the other.
fn joined(alloc: Global, a: &Items, b: &Items, longest: u32) -> Result<Value, OpFault>
    ensures { Answers (on_lists longest Two.Add a.now b.now) result }
{
    let deepest = a.deepest().max(b.deepest());
    let size = a.size().saturating_add(b.size());
    let seals = a.seals().saturating_add(b.seals());
    if !may_be_made(deepest, size, seals, longest) {
        return Err(OpFault::Kind(FaultKind::TooLong));
    }
    let mut list = a.copy(alloc)?;
    for value in b.as_slice() {
        list.push(value.copy(alloc)?)?;
    }
    Ok(Value::Bare(Plain::Items(list)))
}

/// The item at a place.
fn item_at(alloc: Global, items: &Items, at: i64) -> Result<Value, OpFault>
    ensures { Answers (found (value_at (values_of items.now) at)) result }
{
    if at < 0 {
        return Err(OpFault::Kind(FaultKind::BadType));
    }
    match items.as_slice().get(at as usize) {
        Some(value) => Ok(value.copy(alloc)?),
        None => Err(OpFault::Kind(FaultKind::BadType)),
    }
}

/// The items from a place on.
fn items_from(alloc: Global, items: &Items, at: i64) -> Result<Value, OpFault>
    ensures { Answers (list (drop (place_at at) (values_of items.now))) result }
{
    let values = items.as_slice();
    let place = place_in(values.len(), at);
    Ok(Value::Bare(Plain::Items(Items::of(alloc, &values[place..])?)))
}

/// The items up to a place.
fn items_upto(alloc: Global, items: &Items, at: i64) -> Result<Value, OpFault>
    ensures { Answers (list (take (place_at at) (values_of items.now))) result }
{
    let values = items.as_slice();
    let place = place_in(values.len(), at);
    Ok(Value::Bare(Plain::Items(Items::of(alloc, &values[..place])?)))
}

/// An operator on a list and a whole.
fn on_list_at(alloc: Global, op: Two, items: &Items, at: i64) -> Result<Value, OpFault>
    ensures { Answers (spec.on_list_at op items.now at) result }
{
    match op {
        Two::At => item_at(alloc, items, at),
        Two::From => items_from(alloc, items, at),
        Two::Upto => items_upto(alloc, items, at),
        _ => Err(OpFault::Kind(FaultKind::BadType)),
    }
}

/// What an operator on a list and another plain value gives.
pub(crate) fn on_list(
    alloc: Global,
    op: Two,
    items: &Items,
    b: &Plain,
    longest: u32,
) -> Result<Value, OpFault>
    requires { IsTrue (list_makes_large op b.now) }
    ensures { Answers (list_and longest op items.now b.now) result }
{
    match op {
        Two::Push => pushed(alloc, items, Value::Bare(b.copy(alloc)?), longest),
        Two::Add => match b {
            Plain::Items(others) => joined(alloc, items, others, longest),
            _ => unreachable!(),
        },
        _ => match b {
            Plain::Whole(at) => on_list_at(alloc, op, items, *at),
            _ => unreachable!(),
        },
    }
}

/// What an operator on a list and a sealed value gives: `push` alone takes one.
pub(crate) fn on_list_and_sealed(
    alloc: Global,
    op: Two,
    items: &Items,
    sealed: &Value,
    longest: u32,
) -> Result<Value, OpFault>
    ensures { Answers (on_last longest op items.now sealed.now) result }
{
    match op {
        Two::Push => pushed(alloc, items, sealed.copy(alloc)?, longest),
        _ => Err(OpFault::Kind(FaultKind::BadType)),
    }
}
