//! Contents and values.
ghost use Rattle.std.specs.Prelude.{◌≤◌, length, IfOk};
ghost use Rattle.lio_events.specs.EntryText.{option_text};
ghost use Rattle.lio_values.specs.ValueText.{content_text, value_text};
ghost use Rattle.lio_events_reading.specs.Over.{IsContentOver, IsOptionOver, IsValueOver};
ghost use Rattle.lio_events_reading.specs.Over.{IsValueWithin};
ghost use Rattle.lio_events_reading.specs.Reading.{Finds};
ghost use Rattle.lio_events_reading.specs.Values.{blank_content_text, blank_option_text};
ghost use Rattle.lio_events_reading.specs.Values.{blank_value_text, list_value};
ghost use Rattle.lio_events_reading.specs.Values.{IsFaultedOver, IsSealedOver};

use crate::cursor::Cursor;
use crate::faults::fault;
use crate::labels::label;
use crate::lists::{DEPTH, begins_item, sign_len};
use crate::plain::{plain, single};
use crate::start::{Start, start_of};
use lio_clauses::{Names, NoMemory, beside};
use lio_values::{Content, Held, Items, Plain, Value};
use std::alloc::Global;

/// Takes a fault in parentheses, behind its word.
fn faulted(text: &mut Cursor, alloc: Global, names: &Names) -> Result<Content, NoMemory>
    ensures finds { IfOk result (λ found. Finds (content_text names.now)
        (IsFaultedOver names.now) text.old found text.new) }
    ensures over { IfOk result (IsContentOver names.now) }
    ensures shorter { length text.new ≤ length text.old }
{
    text.skip(6);
    let fault = Held::new(alloc, fault(text, alloc, names)?)?;
    text.skip(1);
    Ok(Content::Faulted(fault))
}

/// Takes a content.
pub(crate) fn content(text: &mut Cursor, alloc: Global, names: &Names) -> Result<Content, NoMemory>
    ensures finds { IfOk result (λ found. Finds (content_text names.now)
        (IsContentOver names.now) text.old found text.new) }
    ensures over { IfOk result (IsContentOver names.now) }
    ensures shorter { length text.new ≤ length text.old }
{
    match start_of(text.rest()) {
        Start::Fault => faulted(text, alloc, names),
        Start::Hidden => {
            text.skip(6);
            Ok(Content::Hidden)
        }
        _ => Ok(Content::Kept(plain(text, alloc, names)?)),
    }
}

/// Takes a content under a label, with its word.
fn sealed(text: &mut Cursor, alloc: Global, names: &Names) -> Result<Value, NoMemory>
    ensures finds { IfOk result (λ found. Finds (value_text names.now)
        (IsSealedOver names.now) text.old found text.new) }
    ensures over { IfOk result (IsSealedOver names.now) }
    ensures shorter { length text.new ≤ length text.old }
{
    text.skip(6);
    let label = label(text, alloc, names)?;
    text.skip(1);
    let content = Held::new(alloc, content(text, alloc, names)?)?;
    text.skip(1);
    Ok(Value::Sealed(label, content))
}

/// Takes a list of at most this depth.
#[cycle(value)]
fn items(text: &mut Cursor, alloc: Global, names: &Names, depth: u64) -> Result<Items, NoMemory>
    requires some { 1 ≤ depth }
    requires few { depth ≤ 8 }
    ensures finds { IfOk result (λ found. Finds (λ items. value_text names.now (list_value items))
        (λ items. IsValueWithin names.now depth (list_value items)) text.old found text.new) }
    ensures over { IfOk result (λ items. IsValueWithin names.now depth (list_value items)) }
    ensures shorter { length text.new ≤ length text.old }
{
    let mut items = Items::new(alloc);
    'items: while begins_item(text.rest()) {
        text.skip(sign_len(&items));
        items.push(value_within(text, alloc, names, depth - 1)?)?;
    }
    text.skip(3 - sign_len(&items));
    Ok(items)
}

/// Takes a value of at most this depth.
#[cycle(value)]
fn value_within(
    text: &mut Cursor,
    alloc: Global,
    names: &Names,
    depth: u64,
) -> Result<Value, NoMemory>
    requires { depth ≤ 8 }
    ensures finds { IfOk result (λ found. Finds (value_text names.now)
        (IsValueWithin names.now depth) text.old found text.new) }
    ensures over { IfOk result (IsValueWithin names.now depth) }
    ensures shorter { length text.new ≤ length text.old }
{
    match start_of(text.rest()) {
        Start::Sealed => sealed(text, alloc, names),
        Start::List if depth > 0 => {
            Ok(Value::Bare(Plain::Items(items(text, alloc, names, depth)?)))
        }
        _ => Ok(Value::Bare(single(text, alloc, names)?)),
    }
}

/// Takes a value.
pub(crate) fn value(text: &mut Cursor, alloc: Global, names: &Names) -> Result<Value, NoMemory>
    ensures finds { IfOk result (λ found. Finds (value_text names.now)
        (IsValueOver names.now) text.old found text.new) }
    ensures over { IfOk result (IsValueOver names.now) }
    ensures shorter { length text.new ≤ length text.old }
{
    value_within(text, alloc, names, DEPTH)
}

/// Takes a value on the heap, behind a blank.
pub(crate) fn blank_value(
    text: &mut Cursor,
    alloc: Global,
    names: &Names,
) -> Result<Held<Value>, NoMemory>
    ensures finds { IfOk result (λ found. Finds (blank_value_text names.now)
        (IsValueOver names.now) text.old found text.new) }
    ensures over { IfOk result (IsValueOver names.now) }
    ensures shorter { length text.new ≤ length text.old }
{
    text.skip(1);
    Held::new(alloc, value(text, alloc, names)?)
}

/// Takes a content on the heap, behind a blank.
pub(crate) fn blank_content(
    text: &mut Cursor,
    alloc: Global,
    names: &Names,
) -> Result<Held<Content>, NoMemory>
    ensures finds { IfOk result (λ found. Finds (blank_content_text names.now)
        (IsContentOver names.now) text.old found text.new) }
    ensures over { IfOk result (IsContentOver names.now) }
{
    text.skip(1);
    Held::new(alloc, content(text, alloc, names)?)
}

/// Takes a value, or `empty` for none.
fn option(text: &mut Cursor, alloc: Global, names: &Names) -> Result<Option<Value>, NoMemory>
    ensures finds { IfOk result (λ found. Finds (option_text names.now)
        (IsOptionOver names.now) text.old found text.new) }
    ensures over { IfOk result (IsOptionOver names.now) }
{
    match start_of(text.rest()) {
        Start::Empty => {
            text.skip(5);
            Ok(None)
        }
        _ => Ok(Some(value(text, alloc, names)?)),
    }
}

/// Takes a value, or `empty` for none, on the heap and behind a blank.
pub(crate) fn blank_option(
    text: &mut Cursor,
    alloc: Global,
    names: &Names,
) -> Result<Held<Option<Value>>, NoMemory>
    ensures finds { IfOk result (λ found. Finds (blank_option_text names.now)
        (IsOptionOver names.now) text.old found text.new) }
    ensures over { IfOk result (IsOptionOver names.now) }
{
    text.skip(1);
    Held::new(alloc, option(text, alloc, names)?)
}
