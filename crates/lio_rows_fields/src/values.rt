//! Values, as the fields of a command write them: the word of a kind, and what belongs to it.
ghost use Rattle.std.specs.Prelude.{All, List, ℕ, ◌≤◌, IfOk, IsTrue};
ghost use Rattle.lio_labels.specs.LabelPrint.{AreNamed};
ghost use Rattle.lio_values.specs.PlainText.{IsPowerNamed, IsPlainNamed};
ghost use Rattle.lio_values.specs.Measures.{is_pure};
ghost use Rattle.lio_rows_fields.specs.Turns.{CanPrintKind, CanPrintFault, CanPrintContent};
ghost use Rattle.lio_rows_fields.specs.Turns.{CanPrintValue};
ghost use Rattle.lio_rows_fields.specs.Within.{IsSingle, IsPureWithin, IsValueWithin};
ghost use Rattle.lio_rows_fields.specs.Within.{list, list_value};

use crate::fault::FieldFault;
use crate::words::Words;
use lio_clauses::{Formula, Names, beside};
use lio_labels::{Label, Priv};
use lio_values::{
    Content, Fault, FaultKind, Handle, Held, Items, List, Plain, Text, Value, Values,
};
use std::alloc::Global;

/// How deep a list is at most.
const DEPTH: u64 = 8;

/// The label of the next field.
pub fn read_label(words: &mut Words, alloc: Global, names: &Names) -> Result<Label, FieldFault>
    ensures { IfOk result (AreNamed names.now) }
{
    Ok(Label::read(alloc, words.next()?, names)?)
}

/// The privilege of the formula in the next field.
pub(crate) fn power(words: &mut Words, alloc: Global, names: &Names) -> Result<Priv, FieldFault>
    ensures { IfOk result (IsPowerNamed names.now) }
{
    let power = Formula::read(alloc, words.next()?, names)?;
    Ok(Priv { power })
}

/// A handle: its number and its label.
fn handle(words: &mut Words, alloc: Global, names: &Names) -> Result<Handle, FieldFault>
    ensures { IfOk result (λ handle. AreNamed names.now handle.label) }
{
    let number = words.number()?;
    let label = read_label(words, alloc, names)?;
    Ok(Handle { number, label })
}

/// A plain value that is a handle.
fn plain_handle(
    word: &str,
    words: &mut Words,
    alloc: Global,
    names: &Names,
) -> Result<Plain, FieldFault>
    ensures named { IfOk result (IsPlainNamed names.now) }
    ensures single { IfOk result IsSingle }
{
    match word {
        "ref" => Ok(Plain::RefOf(handle(words, alloc, names)?)),
        "var" => Ok(Plain::VarOf(handle(words, alloc, names)?)),
        "result" => Ok(Plain::ResultOf(handle(words, alloc, names)?)),
        "chan" => Ok(Plain::ChanOf(handle(words, alloc, names)?)),
        _ => Err(FieldFault::Invalid),
    }
}

/// A plain value that is no list, behind its word.
fn single(word: &str, words: &mut Words, alloc: Global, names: &Names) -> Result<Plain, FieldFault>
    ensures named { IfOk result (IsPlainNamed names.now) }
    ensures single { IfOk result IsSingle }
{
    match word {
        "unit" => Ok(Plain::Unit),
        "true" => Ok(Plain::Flag(true)),
        "false" => Ok(Plain::Flag(false)),
        "whole" => Ok(Plain::Whole(words.whole()?)),
        "text" => Ok(Plain::Bytes(Text::of(alloc, words.next()?)?)),
        "label" => Ok(Plain::Lab(read_label(words, alloc, names)?)),
        "power" => Ok(Plain::Power(power(words, alloc, names)?)),
        word => plain_handle(word, words, alloc, names),
    }
}

/// A list of pure values, of at most this depth: a number, and so many plain values, each behind
/// `bare`.
#[cycle(plain)]
fn pure_items(
    words: &mut Words,
    alloc: Global,
    names: &Names,
    depth: u64,
) -> Result<Items, FieldFault>
    requires some { 1 ≤ depth }
    requires few { depth ≤ 8 }
    ensures { IfOk result (λ items. IsPureWithin names.now depth (list items)) }
{
    let count = words.number()?;
    let mut items = Items::new(alloc);
    for _ in 0..count {
        match words.text()? {
            "bare" => {
                let item = plain_within(words, alloc, names, depth - 1)?;
                items.push(Value::Bare(item))?;
            }
            _ => return Err(FieldFault::Invalid),
        }
    }
    Ok(items)
}

/// A pure value of at most this depth.
#[cycle(plain)]
fn plain_within(
    words: &mut Words,
    alloc: Global,
    names: &Names,
    depth: u64,
) -> Result<Plain, FieldFault>
    requires { depth ≤ 8 }
    ensures { IfOk result (IsPureWithin names.now depth) }
{
    match words.text()? {
        "list" if depth > 0 => Ok(Plain::Items(pure_items(words, alloc, names, depth)?)),
        word => single(word, words, alloc, names),
    }
}

/// A pure value.
fn plain(words: &mut Words, alloc: Global, names: &Names) -> Result<Plain, FieldFault>
    ensures { IfOk result (λ plain. IsPlainNamed names.now plain × IsTrue (is_pure plain)) }
{
    plain_within(words, alloc, names, DEPTH)
}

/// Two labels.
pub(crate) fn two_labels(
    words: &mut Words,
    alloc: Global,
    names: &Names,
) -> Result<(Label, Label), FieldFault>
    ensures first { IfOk result (λ labels. AreNamed names.now labels.0) }
    ensures second { IfOk result (λ labels. AreNamed names.now labels.1) }
{
    let first = read_label(words, alloc, names)?;
    beside(first, read_label(words, alloc, names))
}

/// The kind of a fault without labels.
fn short_kind(word: &str, words: &mut Words) -> Result<FaultKind, FieldFault>
    ensures { IfOk result (λ kind. (names : List (List ℕ)) → CanPrintKind names kind) }
{
    match word {
        "bad_type" => Ok(FaultKind::BadType),
        "overflow" => Ok(FaultKind::Overflow),
        "div_zero" => Ok(FaultKind::DivZero),
        "too_long" => Ok(FaultKind::TooLong),
        "no_turns" => Ok(FaultKind::NoTurns),
        "no_cells" => Ok(FaultKind::NoCells(words.long()?, words.long()?)),
        "child_turns" => Ok(FaultKind::ChildTurns(words.long()?, words.long()?)),
        "depth" => Ok(FaultKind::Depth),
        _ => Err(FieldFault::Invalid),
    }
}

/// The kind of a fault that tells two labels, or none.
fn labels_kind(
    word: &str,
    words: &mut Words,
    alloc: Global,
    names: &Names,
) -> Result<FaultKind, FieldFault>
    ensures { IfOk result (CanPrintKind names.now) }
{
    match word {
        "flow_current" => {
            let (current, target) = two_labels(words, alloc, names)?;
            Ok(FaultKind::FlowCurrent(current, target))
        }
        "flow_clearance" => {
            let (target, clearance) = two_labels(words, alloc, names)?;
            Ok(FaultKind::FlowClearance(target, clearance))
        }
        "flow_raise" => {
            let (raised, clearance) = two_labels(words, alloc, names)?;
            Ok(FaultKind::FlowRaise(raised, clearance))
        }
        "label_wide" => {
            let (left, right) = two_labels(words, alloc, names)?;
            Ok(FaultKind::LabelWide(left, right))
        }
        _ => short_kind(word, words),
    }
}

/// The kind of the fault of a privilege that doesn't reach so far.
fn privilege_kind(words: &mut Words, alloc: Global, names: &Names) -> Result<FaultKind, FieldFault>
    ensures { IfOk result (CanPrintKind names.now) }
{
    let power = power(words, alloc, names)?;
    let (power, (source, target)) = beside(power, two_labels(words, alloc, names))?;
    Ok(FaultKind::FlowPrivilege(power, source, target))
}

/// The kind of a fault.
fn kind(words: &mut Words, alloc: Global, names: &Names) -> Result<FaultKind, FieldFault>
    ensures { IfOk result (CanPrintKind names.now) }
{
    match words.text()? {
        "flow_privilege" => privilege_kind(words, alloc, names),
        "user" => Ok(FaultKind::User(plain(words, alloc, names)?)),
        word => labels_kind(word, words, alloc, names),
    }
}

/// A fault: its kind, and the label at which it was thrown.
pub(crate) fn fault(words: &mut Words, alloc: Global, names: &Names) -> Result<Fault, FieldFault>
    ensures { IfOk result (CanPrintFault names.now) }
{
    let kind = kind(words, alloc, names)?;
    let (kind, at) = beside(kind, read_label(words, alloc, names))?;
    Ok(Fault { kind, at })
}

/// A content.
pub(crate) fn content(
    words: &mut Words,
    alloc: Global,
    names: &Names,
) -> Result<Content, FieldFault>
    ensures { IfOk result (CanPrintContent names.now) }
{
    match words.text()? {
        "kept" => Ok(Content::Kept(plain(words, alloc, names)?)),
        "faulted" => Ok(Content::Faulted(Held::new(alloc, fault(words, alloc, names)?)?)),
        "hidden" => Ok(Content::Hidden),
        _ => Err(FieldFault::Invalid),
    }
}

/// A list of at most this depth: a number, and so many values.
#[cycle(value)]
fn items(words: &mut Words, alloc: Global, names: &Names, depth: u64) -> Result<Items, FieldFault>
    requires some { 1 ≤ depth }
    requires few { depth ≤ 8 }
    ensures { IfOk result (λ items. IsValueWithin names.now depth (list_value items)) }
{
    let count = words.number()?;
    let mut items = Items::new(alloc);
    for _ in 0..count {
        items.push(value_within(words, alloc, names, depth - 1)?)?;
    }
    Ok(items)
}

/// A value behind `bare`, of at most this depth.
#[cycle(value)]
fn bare(words: &mut Words, alloc: Global, names: &Names, depth: u64) -> Result<Value, FieldFault>
    requires { depth ≤ 8 }
    ensures { IfOk result (IsValueWithin names.now depth) }
{
    match words.text()? {
        "list" if depth > 0 => Ok(Value::Bare(Plain::Items(items(words, alloc, names, depth)?))),
        word => Ok(Value::Bare(single(word, words, alloc, names)?)),
    }
}

/// A value of at most this depth.
#[cycle(value)]
fn value_within(
    words: &mut Words,
    alloc: Global,
    names: &Names,
    depth: u64,
) -> Result<Value, FieldFault>
    requires { depth ≤ 8 }
    ensures { IfOk result (IsValueWithin names.now depth) }
{
    match words.text()? {
        "bare" => bare(words, alloc, names, depth),
        "sealed" => {
            let label = read_label(words, alloc, names)?;
            let content = Held::new(alloc, content(words, alloc, names)?)?;
            Ok(Value::Sealed(label, content))
        }
        _ => Err(FieldFault::Invalid),
    }
}

/// A value.
pub fn read_value(words: &mut Words, alloc: Global, names: &Names) -> Result<Value, FieldFault>
    ensures { IfOk result (CanPrintValue names.now) }
{
    value_within(words, alloc, names, DEPTH)
}

/// A number, and so many values.
pub(crate) fn values(words: &mut Words, alloc: Global, names: &Names) -> Result<Values, FieldFault>
    ensures { IfOk result (All (CanPrintValue names.now)) }
{
    let count = words.number()?;
    let mut values = List::new(alloc);
    for _ in 0..count {
        let value = read_value(words, alloc, names)?;
        values.push(value)?;
    }
    Ok(values)
}
