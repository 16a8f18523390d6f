//! Operators on values: a text, a label or a list that they make takes memory.
#![tactic(auto, unfolding(crate::specs::Operators::operate2, crate::specs::Operators::operate1))]

ghost use Rattle.std.specs.Prelude.{IsTrue, Ok, Result};
ghost use Rattle.lio_values.specs.declared.value.Plain.{Plain};
ghost use Rattle.lio_values.specs.declared.fault.FaultKind.{FaultKind};
ghost use Rattle.lio_operators.specs.Answers.{Answers};
ghost use Rattle.lio_operators.specs.Operators as spec;
ghost use Rattle.lio_operators.specs.Operators.{str_of, label_of, on_plain};
ghost use Rattle.lio_operators.specs.Operators.{text_and, label_and, on_bare_and_sealed};
ghost use Rattle.lio_operators.specs.Outcomes.{is_handle, is_printed, label_makes_large};
ghost use Rattle.lio_operators.specs.Outcomes.{makes_large1, makes_large2};
ghost use Rattle.lio_operators.specs.Outcomes.{plain_makes_large, text_makes_large};

use crate::faults::OpFault;
use crate::labels::bound;
use crate::lists::{on_list, on_list_and_sealed};
use crate::outcome::Outcome;
use crate::outcomes::{outcome1, outcome2};
use crate::texts::{joined, made, on_text_at};
use itoa::Buffer;
use lio_labels::Label;
use lio_syntax_lines::{One, Two};
use lio_values::{FaultKind, Plain, Value};
use std::alloc::Global;

/// The text of a whole, a flag or unit.
fn str_of(alloc: Global, plain: &Plain, longest: u32) -> Result<Plain, OpFault>
    requires { IsTrue (is_printed plain.now) }
    ensures { Answers (str_of longest plain.now) result }
{
    match plain {
        Plain::Whole(number) => {
            let mut buffer = Buffer::new();
            made(alloc, buffer.format(*number).as_bytes(), longest)
        }
        Plain::Flag(true) => made(alloc, b"true", longest),
        Plain::Flag(false) => made(alloc, b"false", longest),
        Plain::Unit => made(alloc, b"unit", longest),
        _ => unreachable!(),
    }
}

/// A copy of a label as a value.
fn label(alloc: Global, label: &Label) -> Result<Plain, OpFault>
    ensures { Answers (Ok (Plain.Lab label.now)) result }
{
    Ok(Plain::Lab(label.copy(alloc)?))
}

/// The label of a handle.
fn label_of(alloc: Global, plain: &Plain) -> Result<Plain, OpFault>
    requires { IsTrue (is_handle plain.now) }
    ensures { Answers (label_of plain.now) result }
{
    match plain {
        Plain::RefOf(handle)
        | Plain::VarOf(handle)
        | Plain::ResultOf(handle)
        | Plain::ChanOf(handle) => label(alloc, &handle.label),
        _ => unreachable!(),
    }
}

/// A plain value as a bare one.
fn bare(given: Result<Plain, OpFault>) -> Result<Value, OpFault>
    ensures { (plain : Result Plain FaultKind) → Answers plain given
        → Answers (spec.bare plain) result }
{
    match given {
        Ok(plain) => Ok(Value::Bare(plain)),
        Err(fault) => Err(fault),
    }
}

/// The text or the label that an operator on a plain value makes.
fn large_of_plain(alloc: Global, op: One, a: &Plain, longest: u32) -> Result<Plain, OpFault>
    requires { IsTrue (plain_makes_large op a.now) }
    ensures { Answers (on_plain longest op a.now) result }
{
    match op {
        One::Str => str_of(alloc, a, longest),
        _ => label_of(alloc, a),
    }
}

/// The text or the label that an operator on one value makes.
#[inline(never)]
fn large1(alloc: Global, op: One, a: &Value, longest: u32) -> Result<Value, OpFault>
    requires { IsTrue (makes_large1 op a.now) }
    ensures { Answers (spec.operate1 longest op a.now) result }
{
    match a {
        Value::Bare(plain) => bare(large_of_plain(alloc, op, plain, longest)),
        Value::Sealed(sealed, _) => bare(label(alloc, sealed)),
    }
}

/// What an operator on one value gives. A text that is made has at most `longest` bytes.
pub fn operate1(alloc: Global, op: One, a: &Value, longest: u32) -> Result<Value, OpFault>
    ensures { Answers (spec.operate1 longest op a.now) result }
{
    match outcome1(op, a) {
        Outcome::Value(small) => Ok(Value::Bare(small.plain())),
        Outcome::Fault(trap) => Err(OpFault::Kind(trap.kind())),
        Outcome::Large => large1(alloc, op, a, longest),
    }
}

/// The text that an operator on a text and another value makes.
fn large_of_text(
    alloc: Global,
    op: Two,
    a: &[u8],
    b: &Plain,
    longest: u32,
) -> Result<Plain, OpFault>
    requires { IsTrue (text_makes_large op b.now) }
    ensures { Answers (text_and longest op a.now b.now) result }
{
    match b {
        Plain::Bytes(b) => joined(alloc, a, b.bytes(), longest),
        Plain::Whole(at) => on_text_at(alloc, op, a, *at, longest),
        _ => unreachable!(),
    }
}

/// The label that an operator on a label and another value makes.
fn large_of_label(alloc: Global, op: Two, a: &Label, b: &Plain) -> Result<Plain, OpFault>
    requires { IsTrue (label_makes_large op b.now) }
    ensures { Answers (label_and op a.now b.now) result }
{
    match b {
        Plain::Lab(b) => bound(alloc, op, a, b),
        _ => unreachable!(),
    }
}

/// The text, the label or the list that an operator on two bare values makes, or the item that it
/// gives.
#[inline(never)]
fn large2(alloc: Global, op: Two, a: &Plain, b: &Plain, longest: u32) -> Result<Value, OpFault>
    requires { IsTrue (makes_large2 op a.now b.now) }
    ensures { Answers (spec.operate2 longest op (Value.Bare a.now) (Value.Bare b.now)) result }
{
    match a {
        Plain::Bytes(a) => bare(large_of_text(alloc, op, a.bytes(), b, longest)),
        Plain::Lab(a) => bare(large_of_label(alloc, op, a, b)),
        Plain::Items(a) => on_list(alloc, op, a, b, longest),
        _ => unreachable!(),
    }
}

/// What an operator on two bare values gives. A text that is made has at most `longest` bytes.
pub fn operate_plains(
    alloc: Global,
    op: Two,
    a: &Plain,
    b: &Plain,
    longest: u32,
) -> Result<Value, OpFault>
    ensures { Answers (spec.operate2 longest op (Value.Bare a.now) (Value.Bare b.now)) result }
{
    match outcome2(op, a, b) {
        Outcome::Value(small) => Ok(Value::Bare(small.plain())),
        Outcome::Fault(trap) => Err(OpFault::Kind(trap.kind())),
        Outcome::Large => large2(alloc, op, a, b, longest),
    }
}

/// What an operator on a bare value and a sealed one gives: `push` alone takes a sealed one.
pub fn operate_sealed(
    alloc: Global,
    op: Two,
    a: &Plain,
    b: &Value,
    longest: u32,
) -> Result<Value, OpFault>
    ensures { Answers (on_bare_and_sealed longest op a.now b.now) result }
{
    match a {
        Plain::Items(items) => on_list_and_sealed(alloc, op, items, b, longest),
        _ => Err(OpFault::Kind(FaultKind::BadType)),
    }
}

/// What an operator on two values gives. A text that is made has at most `longest` bytes.
pub fn operate2(
    alloc: Global,
    op: Two,
    a: &Value,
    b: &Value,
    longest: u32,
) -> Result<Value, OpFault>
    ensures { Answers (spec.operate2 longest op a.now b.now) result }
{
    match (a, b) {
        (Value::Bare(a), Value::Bare(b)) => operate_plains(alloc, op, a, b, longest),
        (Value::Bare(a), Value::Sealed(_, _)) => operate_sealed(alloc, op, a, b, longest),
        _ => Err(OpFault::Kind(FaultKind::BadType)),
    }
}
