//! Printing values, and the contents and faults in them, as journals have them.

ghost use Rattle.std.specs.Prelude.{◌≡◌, ◌++◌, OnErr, OnOk, IfOk};
ghost use Rattle.lio_clauses.specs.FormulaPrint.{Extends};
ghost use Rattle.lio_labels.specs.LabelPrint.{AreNamed};
ghost use Rattle.lio_values.specs.ForestText.{items_text, AreItemsNamed};
ghost use Rattle.lio_values.specs.PlainText.{plain_text, IsPlainNamed};
ghost use Rattle.lio_values.specs.ValueText.{labels_text, numbers_text, kind_text, fault_text};
ghost use Rattle.lio_values.specs.ValueText.{content_text, value_text};
ghost use Rattle.lio_values.specs.Named.{IsKindNamed, IsFaultNamed, IsContentNamed, IsValueNamed};

use crate::fault::{Fault, FaultKind};
use crate::items::Items;
use crate::print::{
    print_handle, print_label, print_number, print_power, print_quoted, print_whole, restore,
};
use crate::value::{Content, Plain, Value};
use lio_clauses::{Names, NoMemory};
use lio_labels::Label;
use std::alloc::Global;

impl Plain {
    /// Appends its text: `unit`, `true`, `-5`, `"text"`, `<label>`, `power<formula>`,
    /// `ref#3<label>`, `[7, "text"]` and so on.
    pub fn print_to(&self, out: &mut Vec<u8>, names: &Names) -> Result<(), NoMemory>
        requires { IsPlainNamed names.now self.now }
        ensures ok { OnOk result (out.new.items ≡ out.old.items ++ plain_text names.now self.now) }
        ensures err { OnErr result (out.new.items ≡ out.old.items) }
    {
        let len = out.len();
        let printed = append_plain(out, self, names);
        restore(out, len, printed)
    }
}

/// Appends a plain value.
#[cycle(append)]
fn append_plain(out: &mut Vec<u8>, plain: &Plain, names: &Names) -> Result<(), NoMemory>
    requires { IsPlainNamed names.now plain.now }
    ensures ok { OnOk result (out.new.items ≡ out.old.items ++ plain_text names.now plain.now) }
    ensures kept { Extends out.old.items out.new.items }
{
    match plain {
        Plain::Unit => out.extend_from_slice(b"unit")?,
        Plain::Flag(true) => out.extend_from_slice(b"true")?,
        Plain::Flag(false) => out.extend_from_slice(b"false")?,
        Plain::Whole(number) => print_whole(out, *number)?,
        Plain::Bytes(text) => print_quoted(out, text.bytes())?,
        Plain::Lab(label) => print_label(out, label, names)?,
        Plain::Power(privilege) => print_power(out, privilege, names)?,
        Plain::RefOf(handle) => print_handle(out, b"ref#", handle, names)?,
        Plain::VarOf(handle) => print_handle(out, b"var#", handle, names)?,
        Plain::ResultOf(handle) => print_handle(out, b"result#", handle, names)?,
        Plain::ChanOf(handle) => print_handle(out, b"chan#", handle, names)?,
        Plain::Items(items) => {
            out.push(b'[')?;
            append_items(out, items, names)?;
            out.push(b']')?
        }
    }
    Ok(())
}

/// Appends the items of a list, joined by `, `.
#[cycle(append)]
fn append_items(out: &mut Vec<u8>, items: &Items, names: &Names) -> Result<(), NoMemory>
    requires { AreItemsNamed names.now items.now }
    ensures ok { OnOk result (out.new.items ≡ out.old.items ++ items_text names.now items.now) }
    ensures kept { Extends out.old.items out.new.items }
{
    let mut between: &[u8] = b"";
    for value in items.values.as_slice() {
        out.extend_from_slice(between)?;
        append_value(out, value, names)?;
        between = b", ";
    }
    Ok(())
}

/// Appends two labels, each after a blank.
pub fn append_labels(
    out: &mut Vec<u8>,
    first: &Label,
    second: &Label,
    names: &Names,
) -> Result<(), NoMemory>
    requires first { AreNamed names.now first.now }
    requires second { AreNamed names.now second.now }
    ensures ok { OnOk result (out.new.items
        ≡ out.old.items ++ labels_text names.now first.now second.now) }
    ensures kept { Extends out.old.items out.new.items }
{
    out.push(b' ')?;
    print_label(out, first, names)?;
    out.push(b' ')?;
    print_label(out, second, names)
}

/// Appends a word and two labels.
fn append_flow(
    out: &mut Vec<u8>,
    word: &[u8],
    first: &Label,
    second: &Label,
    names: &Names,
) -> Result<(), NoMemory>
    requires first { AreNamed names.now first.now }
    requires second { AreNamed names.now second.now }
    ensures ok { OnOk result (out.new.items
        ≡ out.old.items ++ (word.now ++ labels_text names.now first.now second.now)) }
    ensures kept { Extends out.old.items out.new.items }
{
    out.extend_from_slice(word)?;
    append_labels(out, first, second, names)
}

/// Appends a word and two numbers.
fn append_numbers(out: &mut Vec<u8>, word: &[u8], asked: u64, left: u64) -> Result<(), NoMemory>
    ensures ok { OnOk result (out.new.items ≡ out.old.items ++ (word.now ++ numbers_text asked left)) }
    ensures kept { Extends out.old.items out.new.items }
{
    out.extend_from_slice(word)?;
    out.push(b' ')?;
    print_number(out, asked)?;
    out.push(b' ')?;
    print_number(out, left)
}

/// Appends the kind of a fault.
#[cycle(append)]
fn append_kind(out: &mut Vec<u8>, kind: &FaultKind, names: &Names) -> Result<(), NoMemory>
    requires { IsKindNamed names.now kind.now }
    ensures ok { OnOk result (out.new.items ≡ out.old.items ++ kind_text names.now kind.now) }
    ensures kept { Extends out.old.items out.new.items }
{
    match kind {
        FaultKind::FlowCurrent(current, target) => {
            append_flow(out, b"flow_current", current, target, names)?
        }
        FaultKind::FlowClearance(target, clearance) => {
            append_flow(out, b"flow_clearance", target, clearance, names)?
        }
        FaultKind::FlowRaise(raised, clearance) => {
            append_flow(out, b"flow_raise", raised, clearance, names)?
        }
        FaultKind::FlowPrivilege(power, source, target) => {
            out.extend_from_slice(b"flow_privilege ")?;
            print_power(out, power, names)?;
            append_labels(out, source, target, names)?
        }
        FaultKind::BadType => out.extend_from_slice(b"bad_type")?,
        FaultKind::Overflow => out.extend_from_slice(b"overflow")?,
        FaultKind::DivZero => out.extend_from_slice(b"div_zero")?,
        FaultKind::TooLong => out.extend_from_slice(b"too_long")?,
        FaultKind::NoTurns => out.extend_from_slice(b"no_turns")?,
        FaultKind::NoCells(asked, left) => append_numbers(out, b"no_cells", *asked, *left)?,
        FaultKind::ChildTurns(asked, left) => append_numbers(out, b"child_turns", *asked, *left)?,
        FaultKind::Depth => out.extend_from_slice(b"depth")?,
        FaultKind::LabelWide(left, right) => append_flow(out, b"label_wide", left, right, names)?,
        FaultKind::User(plain) => {
            out.extend_from_slice(b"user ")?;
            append_plain(out, plain, names)?
        }
    }
    Ok(())
}

/// Appends a fault.
#[cycle(append)]
pub fn append_fault(out: &mut Vec<u8>, fault: &Fault, names: &Names) -> Result<(), NoMemory>
    requires { IsFaultNamed names.now fault.now }
    ensures ok { OnOk result (out.new.items ≡ out.old.items ++ fault_text names.now fault.now) }
    ensures kept { Extends out.old.items out.new.items }
{
    append_kind(out, &fault.kind, names)?;
    out.extend_from_slice(b" at ")?;
    print_label(out, &fault.at, names)
}

/// The text of a content.
pub fn print_content(alloc: Global, content: &Content, names: &Names) -> Result<Vec<u8>, NoMemory>
    requires { IsContentNamed names.now content.now }
    ensures { IfOk result (λ text. text.items ≡ content_text names.now content.now) }
{
    let mut out = Vec::new(alloc);
    append_content(&mut out, content, names)?;
    Ok(out)
}

/// The text of a value.
pub fn print_value(alloc: Global, value: &Value, names: &Names) -> Result<Vec<u8>, NoMemory>
    requires { IsValueNamed names.now value.now }
    ensures { IfOk result (λ text. text.items ≡ value_text names.now value.now) }
{
    let mut out = Vec::new(alloc);
    append_value(&mut out, value, names)?;
    Ok(out)
}

/// Appends a content.
#[cycle(append)]
pub fn append_content(out: &mut Vec<u8>, content: &Content, names: &Names) -> Result<(), NoMemory>
    requires { IsContentNamed names.now content.now }
    ensures ok { OnOk result (out.new.items ≡ out.old.items ++ content_text names.now content.now) }
    ensures kept { Extends out.old.items out.new.items }
{
    match content {
        Content::Kept(plain) => append_plain(out, plain, names),
        Content::Faulted(fault) => {
            out.extend_from_slice(b"fault(")?;
            append_fault(out, fault.get(), names)?;
            out.push(b')')?;
            Ok(())
        }
        Content::Hidden => Ok(out.extend_from_slice(b"hidden")?),
    }
}

/// Appends a value.
#[cycle(append)]
pub fn append_value(out: &mut Vec<u8>, value: &Value, names: &Names) -> Result<(), NoMemory>
    requires { IsValueNamed names.now value.now }
    ensures ok { OnOk result (out.new.items ≡ out.old.items ++ value_text names.now value.now) }
    ensures kept { Extends out.old.items out.new.items }
{
    match value {
        Value::Bare(plain) => append_plain(out, plain, names),
        Value::Sealed(label, content) => {
            out.extend_from_slice(b"sealed")?;
            print_label(out, label, names)?;
            out.push(b'(')?;
            append_content(out, content.get(), names)?;
            out.push(b')')?;
            Ok(())
        }
    }
}
