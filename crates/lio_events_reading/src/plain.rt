//! Plain values.
ghost use Rattle.std.specs.Prelude.{◌≡◌, ◌≤◌, ℕ, List, Some, length, IfOk};
ghost use Rattle.lio_values.specs.declared.value.Plain.{Plain};
ghost use Rattle.lio_values.specs.PlainText.{plain_text};
ghost use Rattle.lio_values.specs.Quoted.{quoted};
ghost use Rattle.lio_syntax_lines.specs.Literals.{literal_of};
ghost use Rattle.lio_events_reading.specs.Cut.{AreBytes};
ghost use Rattle.lio_events_reading.specs.Over.{IsHandleOver, IsPlainOver, IsPureOver};
ghost use Rattle.lio_events_reading.specs.Over.{IsPureWithin};
ghost use Rattle.lio_events_reading.specs.Plains as spec;
ghost use Rattle.lio_events_reading.specs.Plains.{word_of_plain, IsSingle, IsSingleOver};
ghost use Rattle.lio_events_reading.specs.Plains.{IsWordedOver};
ghost use Rattle.lio_events_reading.specs.Plains.{handle_behind};
ghost use Rattle.lio_events_reading.specs.Reading.{Finds};

use crate::cursor::Cursor;
use crate::labels::{label, power_behind};
use crate::lists::{DEPTH, begins_item, sign_len};
use crate::numbers::number;
use crate::start::{Start, start_of};
use crate::words::PlainWord;
use lio_clauses::{Names, NoMemory};
use lio_syntax_lines::read_literal;
use lio_values::{Handle, Items, Plain, Text, Value};
use std::alloc::Global;

/// The flag, unit, whole, text or label that a word is, or unit where it is none.
fn literal(alloc: Global, names: &Names, word: &[u8]) -> Result<Plain, NoMemory>
    ensures finds { IfOk result (λ found. (plain : Plain) → IsSingle plain
        → literal_of names.now word.now ≡ Some plain → found ≡ plain) }
    ensures over { IfOk result (IsSingleOver names.now) }
{
    match read_literal(alloc, names, word)? {
        Some(Plain::Items(items)) => {
            drop(items);
            Ok(Plain::Unit)
        }
        Some(plain) => Ok(plain),
        None => Ok(Plain::Unit),
    }
}

/// Takes a handle behind its kind: `#`, its number and its label.
fn handle(text: &mut Cursor, alloc: Global, names: &Names) -> Result<Handle, NoMemory>
    ensures finds { IfOk result (λ found. Finds (handle_behind names.now)
        (IsHandleOver names.now) text.old found text.new) }
    ensures over { IfOk result (IsHandleOver names.now) }
    ensures shorter { length text.new ≤ length text.old }
{
    text.skip(1);
    let number = number(text);
    let label = label(text, alloc, names)?;
    Ok(Handle { number, label })
}

/// Takes a plain value that begins with a word or a number.
fn worded(text: &mut Cursor, alloc: Global, names: &Names) -> Result<Plain, NoMemory>
    ensures finds { IfOk result (λ found. Finds (plain_text names.now)
        (IsWordedOver names.now) text.old found text.new) }
    ensures over { IfOk result (IsSingleOver names.now) }
    ensures shorter { length text.new ≤ length text.old }
{
    let word = text.word();
    match PlainWord::find(word) {
        Some(word) => plain_behind(word, text, alloc, names),
        None => literal(alloc, names, word),
    }
}

/// Takes what stands behind the first word of a privilege or a handle.
fn plain_behind(
    word: PlainWord,
    text: &mut Cursor,
    alloc: Global,
    names: &Names,
) -> Result<Plain, NoMemory>
    ensures finds { IfOk result (λ found. Finds (spec.plain_behind names.now)
        (λ plain. IsPlainOver names.now plain × (word_of_plain plain ≡ Some word))
        text.old found text.new) }
    ensures over { IfOk result (IsSingleOver names.now) }
    ensures shorter { length text.new ≤ length text.old }
{
    match word {
        PlainWord::Power => Ok(Plain::Power(power_behind(text, alloc, names)?)),
        PlainWord::Ref => Ok(Plain::RefOf(handle(text, alloc, names)?)),
        PlainWord::Var => Ok(Plain::VarOf(handle(text, alloc, names)?)),
        PlainWord::Result => Ok(Plain::ResultOf(handle(text, alloc, names)?)),
        PlainWord::Chan => Ok(Plain::ChanOf(handle(text, alloc, names)?)),
    }
}

/// Takes a plain value that is no list.
pub(crate) fn single(text: &mut Cursor, alloc: Global, names: &Names) -> Result<Plain, NoMemory>
    ensures finds { IfOk result (λ found. Finds (plain_text names.now)
        (IsSingleOver names.now) text.old found text.new) }
    ensures over { IfOk result (IsSingleOver names.now) }
    ensures shorter { length text.new ≤ length text.old }
{
    match start_of(text.rest()) {
        Start::Text => literal(alloc, names, text.quoted()),
        Start::Label => Ok(Plain::Lab(label(text, alloc, names)?)),
        _ => worded(text, alloc, names),
    }
}

/// Takes a list of pure values, of at most this depth.
#[cycle(plain)]
fn pure_items(
    text: &mut Cursor,
    alloc: Global,
    names: &Names,
    depth: u64,
) -> Result<Items, NoMemory>
    requires some { 1 ≤ depth }
    requires few { depth ≤ 8 }
    ensures finds { IfOk result (λ found. Finds (λ items. plain_text names.now (spec.list items))
        (λ items. IsPureWithin names.now depth (spec.list items)) text.old found text.new) }
    ensures over { IfOk result (λ items. IsPureWithin names.now depth (spec.list items)) }
    ensures shorter { length text.new ≤ length text.old }
{
    let mut items = Items::new(alloc);
    'items: while begins_item(text.rest()) {
        text.skip(sign_len(&items));
        let item = plain_within(text, alloc, names, depth - 1)?;
        items.push(Value::Bare(item))?;
    }
    text.skip(3 - sign_len(&items));
    Ok(items)
}

/// Takes a pure value of at most this depth.
#[cycle(plain)]
fn plain_within(
    text: &mut Cursor,
    alloc: Global,
    names: &Names,
    depth: u64,
) -> Result<Plain, NoMemory>
    requires { depth ≤ 8 }
    ensures finds { IfOk result (λ found. Finds (plain_text names.now)
        (IsPureWithin names.now depth) text.old found text.new) }
    ensures over { IfOk result (IsPureWithin names.now depth) }
    ensures shorter { length text.new ≤ length text.old }
{
    match start_of(text.rest()) {
        Start::List if depth > 0 => Ok(Plain::Items(pure_items(text, alloc, names, depth)?)),
        _ => single(text, alloc, names),
    }
}

/// Takes a pure value.
pub(crate) fn plain(text: &mut Cursor, alloc: Global, names: &Names) -> Result<Plain, NoMemory>
    ensures finds { IfOk result (λ found. Finds (plain_text names.now)
        (IsPureOver names.now) text.old found text.new) }
    ensures over { IfOk result (IsPureOver names.now) }
    ensures shorter { length text.new ≤ length text.old }
{
    plain_within(text, alloc, names, DEPTH)
}

/// Takes a text in quotes.
pub(crate) fn text_in_quotes(
    text: &mut Cursor,
    alloc: Global,
    names: &Names,
) -> Result<Text, NoMemory>
    ensures finds { IfOk result (λ found. Finds quoted AreBytes text.old found text.new) }
    ensures over { IfOk result AreBytes }
{
    match literal(alloc, names, text.quoted())? {
        Plain::Bytes(bytes) => Ok(bytes),
        other => {
            drop(other);
            Text::of(alloc, &[])
        }
    }
}
