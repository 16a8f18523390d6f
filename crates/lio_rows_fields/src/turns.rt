//! Acts, replies and entries, as the fields of a command write them.
ghost use Rattle.std.specs.Prelude.{All, IfOk};
ghost use Rattle.lio_labels.specs.LabelPrint.{AreNamed};
ghost use Rattle.lio_values.specs.PlainText.{IsPowerNamed};
ghost use Rattle.lio_values.specs.Purity.{KeepsPure};
ghost use Rattle.lio_events.specs.Printable.{IsOptionNamed, IsBirthNamed, IsRaising, IsPrintable};
ghost use Rattle.lio_events.specs.Printable.{OptionKeepsPure};
ghost use Rattle.lio_rows_fields.specs.Turns.{CanPrint, CanPrintContent, CanPrintReply};
ghost use Rattle.lio_rows_fields.specs.Turns.{CanPrintValue};

use crate::fault::FieldFault;
use crate::values::{content, fault, power, read_label, read_value, two_labels, values};
use crate::words::Words;
use lio_clauses::{Names, beside};
use lio_events::Journal;
use lio_labels::{Label, Priv};
use lio_values::{Act, Birth, Content, Entry, Held, Op, Reply, Text, Value, Values};
use std::alloc::Global;

/// The operation of a raise.
fn op(words: &mut Words) -> Result<Op, FieldFault>
    ensures { IfOk result IsRaising }
{
    match words.text()? {
        "unlabel" => Ok(Op::Unlabel),
        "taint" => Ok(Op::Taint),
        "read" => Ok(Op::Read),
        "wait" => Ok(Op::Wait),
        "take" => Ok(Op::Take),
        "put" => Ok(Op::Put),
        _ => Err(FieldFault::Invalid),
    }
}

/// What a child is given: turns, first number, how many numbers, and the arguments with their
/// number before them.
fn share(
    words: &mut Words,
    alloc: Global,
    names: &Names,
) -> Result<(u32, u32, u32, Values), FieldFault>
    ensures { IfOk result (λ share. All (CanPrintValue names.now) share.3) }
{
    let turns = words.number()?;
    let first = words.number()?;
    let cells = words.number()?;
    let args = values(words, alloc, names)?;
    Ok((turns, first, cells, args))
}

/// A birth: the procedure's place, the label of the result, the clearance, turns, first number, how
/// many numbers, and the arguments with their number before them.
fn birth(words: &mut Words, alloc: Global, names: &Names) -> Result<Held<Birth>, FieldFault>
    ensures named { IfOk result (IsBirthNamed names.now) }
    ensures pure { IfOk result (λ birth. All KeepsPure birth.args) }
{
    let proc_at = words.number()?;
    let (result, clearance) = two_labels(words, alloc, names)?;
    match share(words, alloc, names) {
        Ok((turns, first, cells, args)) => Ok(Held::new(
            alloc,
            Birth {
                proc_at,
                args,
                result,
                clearance,
                turns,
                first,
                cells,
            },
        )?),
        Err(fault) => {
            drop(result);
            drop(clearance);
            Err(fault)
        }
    }
}

/// A value on the heap.
fn held_value(words: &mut Words, alloc: Global, names: &Names) -> Result<Held<Value>, FieldFault>
    ensures { IfOk result (CanPrintValue names.now) }
{
    Ok(Held::new(alloc, read_value(words, alloc, names)?)?)
}

/// A content on the heap.
fn held_content(
    words: &mut Words,
    alloc: Global,
    names: &Names,
) -> Result<Held<Content>, FieldFault>
    ensures { IfOk result (CanPrintContent names.now) }
{
    Ok(Held::new(alloc, content(words, alloc, names)?)?)
}

/// A label on the heap.
fn held_label(words: &mut Words, alloc: Global, names: &Names) -> Result<Held<Label>, FieldFault>
    ensures { IfOk result (AreNamed names.now) }
{
    Ok(Held::new(alloc, read_label(words, alloc, names)?)?)
}

/// What a variable holds at first: `empty`, or `full` and a value.
fn variable(
    words: &mut Words,
    alloc: Global,
    names: &Names,
) -> Result<Held<Option<Value>>, FieldFault>
    ensures named { IfOk result (IsOptionNamed names.now) }
    ensures pure { IfOk result OptionKeepsPure }
{
    match words.text()? {
        "empty" => Ok(Held::new(alloc, None)?),
        "full" => Ok(Held::new(alloc, Some(read_value(words, alloc, names)?))?),
        _ => Err(FieldFault::Invalid),
    }
}

/// A privilege, and the content that is released by it.
fn power_and_content(
    words: &mut Words,
    alloc: Global,
    names: &Names,
) -> Result<(Priv, Held<Content>), FieldFault>
    ensures power { IfOk result (λ told. IsPowerNamed names.now told.0) }
    ensures content { IfOk result (λ told. CanPrintContent names.now told.1) }
{
    let power = power(words, alloc, names)?;
    let content = held_content(words, alloc, names)?;
    Ok((power, content))
}

/// Two labels on the heap: the one that a content comes from, and the one that it comes to.
fn from_and_to(
    words: &mut Words,
    alloc: Global,
    names: &Names,
) -> Result<(Held<Label>, Held<Label>), FieldFault>
    ensures source { IfOk result (λ labels. AreNamed names.now labels.0) }
    ensures target { IfOk result (λ labels. AreNamed names.now labels.1) }
{
    let source = held_label(words, alloc, names)?;
    beside(source, held_label(words, alloc, names))
}

/// A release: the label that it comes from, the label that it comes to, the privilege's formula,
/// and the content.
fn release(words: &mut Words, alloc: Global, names: &Names) -> Result<Act, FieldFault>
    ensures { IfOk result (CanPrint names.now) }
{
    let labels = from_and_to(words, alloc, names)?;
    let ((source, target), (power, content)) = beside(
        labels,
        power_and_content(words, alloc, names),
    )?;
    Ok(Act::Release(source, target, power, content))
}

/// What is exposed: as a release.
fn expose(words: &mut Words, alloc: Global, names: &Names) -> Result<Act, FieldFault>
    ensures { IfOk result (CanPrint names.now) }
{
    let labels = from_and_to(words, alloc, names)?;
    let ((source, target), (power, content)) = beside(
        labels,
        power_and_content(words, alloc, names),
    )?;
    Ok(Act::Expose(source, target, power, content))
}

/// An act that makes a node.
fn making(word: &str, words: &mut Words, alloc: Global, names: &Names) -> Result<Act, FieldFault>
    ensures { IfOk result (CanPrint names.now) }
{
    match word {
        "newref" => {
            let label = read_label(words, alloc, names)?;
            Ok(Act::NewRef(label, held_value(words, alloc, names)?))
        }
        "newvar" => {
            let label = read_label(words, alloc, names)?;
            Ok(Act::NewVar(label, variable(words, alloc, names)?))
        }
        "fork" => Ok(Act::Fork(birth(words, alloc, names)?)),
        "spawn" => Ok(Act::Spawn(birth(words, alloc, names)?)),
        _ => Err(FieldFault::Invalid),
    }
}

/// An act on a node that is there.
fn visit(word: &str, words: &mut Words, alloc: Global, names: &Names) -> Result<Act, FieldFault>
    ensures { IfOk result (CanPrint names.now) }
{
    match word {
        "read" => Ok(Act::Read),
        "write" => Ok(Act::Write(held_value(words, alloc, names)?)),
        "take" => Ok(Act::Take),
        "put" => Ok(Act::Put(held_value(words, alloc, names)?)),
        "wait" => Ok(Act::Wait),
        "send" => Ok(Act::Send(Text::of(alloc, words.next()?)?)),
        _ => making(word, words, alloc, names),
    }
}

/// An act.
fn act(words: &mut Words, alloc: Global, names: &Names) -> Result<Act, FieldFault>
    ensures { IfOk result (CanPrint names.now) }
{
    match words.text()? {
        "step" => Ok(Act::Step),
        "seal" => Ok(Act::Seal(read_label(words, alloc, names)?)),
        "raise" => Ok(Act::Raise(op(words)?, read_label(words, alloc, names)?)),
        "lower" => Ok(Act::Lower(read_label(words, alloc, names)?)),
        "release" => release(words, alloc, names),
        "expose" => expose(words, alloc, names),
        "ended" => Ok(Act::Ended(held_content(words, alloc, names)?)),
        word => visit(word, words, alloc, names),
    }
}

/// A reply.
fn reply(words: &mut Words, alloc: Global, names: &Names) -> Result<Reply, FieldFault>
    ensures { IfOk result (CanPrintReply names.now) }
{
    match words.text()? {
        "done" => Ok(Reply::Done),
        "got" => Ok(Reply::Got(held_value(words, alloc, names)?)),
        "told" => Ok(Reply::Told(held_content(words, alloc, names)?)),
        "refused" => Ok(Reply::Refused(Held::new(alloc, fault(words, alloc, names)?)?)),
        _ => Err(FieldFault::Invalid),
    }
}

/// An act, and the reply to it.
fn act_and_reply(
    words: &mut Words,
    alloc: Global,
    names: &Names,
) -> Result<(Act, Reply), FieldFault>
    ensures act { IfOk result (λ turn. CanPrint names.now turn.0) }
    ensures reply { IfOk result (λ turn. CanPrintReply names.now turn.1) }
{
    let act = act(words, alloc, names)?;
    beside(act, reply(words, alloc, names))
}

/// An entry: ticket, actor, target, the label before the turn, act and reply.
pub fn read_entry(words: &mut Words, alloc: Global, names: &Names) -> Result<Entry, FieldFault>
    ensures { IfOk result (IsPrintable names.now) }
{
    let ticket = words.long()?;
    let actor = words.number()?;
    let target = words.optional()?;
    let at = read_label(words, alloc, names)?;
    let (at, (act, reply)) = beside(at, act_and_reply(words, alloc, names))?;
    Ok(Entry {
        ticket,
        actor,
        target,
        at,
        act,
        reply,
    })
}

/// A number, and a journal of so many entries.
pub fn read_journal(words: &mut Words, alloc: Global, names: &Names) -> Result<Journal, FieldFault>
    ensures { IfOk result (All (IsPrintable names.now)) }
{
    let count = words.number()?;
    let mut journal = Journal::new(alloc);
    let mut next = 0u64;
    for _ in 0..count {
        let entry = read_entry(words, alloc, names)?;
        if entry.ticket < next || entry.ticket == u64::MAX {
            drop(entry);
            return Err(FieldFault::Invalid);
        }
        next = entry.ticket + 1;
        journal.push(entry)?;
    }
    Ok(journal)
}
