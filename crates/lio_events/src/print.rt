//! Printing entries and journals.
#![tactic(auto, unfolding(crate::specs::EntryText::line_text))]

ghost use Rattle.std.specs.Prelude.{◌≡◌, ◌++◌, Bool, List, ℕ, Option, All, codes, decimal, OnOk};
ghost use Rattle.std.specs.Prelude.{IfOk, if◌then◌else◌};
ghost use Rattle.lio_labels.specs.LabelPrint.{AreNamed};
ghost use Rattle.lio_values.specs.PlainText.{label_in_brackets};
ghost use Rattle.lio_values.specs.ValueText.{content_text, value_text};
ghost use Rattle.lio_values.specs.Named.{IsContentNamed, IsValueNamed};
ghost use Rattle.lio_events.specs.EntryText.{option_text, args_text, birth_text, op_text};
ghost use Rattle.lio_events.specs.EntryText.{act_text, release_text};
ghost use Rattle.lio_events.specs.EntryText.{reply_text, target_text, line_text};
ghost use Rattle.lio_events.specs.JournalText.{entry_text, journal_text};
ghost use Rattle.lio_events.specs.Printable.{IsOptionNamed, IsBirthNamed, IsActNamed, IsRaising};
ghost use Rattle.lio_events.specs.Printable.{IsRaiseOf, IsReplyNamed, IsPrintable};

use crate::journal::Journal;
use lio_clauses::{Names, NoMemory};
use lio_labels::{Label, Priv};
use lio_values::{
    Act, Birth, Content, Entry, Op, Reply, Value, append_content, append_fault, append_labels,
    append_value, print_label, print_number, print_power, print_quoted,
};
use std::alloc::Global;

/// Appends a value, if there is one.
fn print_option(out: &mut Vec<u8>, value: &Option<Value>, names: &Names) -> Result<(), NoMemory>
    requires { IsOptionNamed names.now value.now }
    ensures { OnOk result (out.new.items ≡ out.old.items ++ option_text names.now value.now) }
{
    match value {
        None => Ok(out.extend_from_slice(b"empty")?),
        Some(value) => append_value(out, value, names),
    }
}

/// Appends each argument of a birth after a blank.
fn print_args(out: &mut Vec<u8>, args: &[Value], names: &Names) -> Result<(), NoMemory>
    requires { All (IsValueNamed names.now) args.now }
    ensures { OnOk result (out.new.items ≡ out.old.items ++ args_text names.now args.now) }
{
    for arg in args {
        print_after_blank(out, arg, names)?;
    }
    Ok(())
}

/// Appends a value after a blank.
fn print_after_blank(out: &mut Vec<u8>, value: &Value, names: &Names) -> Result<(), NoMemory>
    requires { IsValueNamed names.now value.now }
    ensures { OnOk result (out.new.items
        ≡ out.old.items ++ (codes " " ++ value_text names.now value.now)) }
{
    out.push(b' ')?;
    append_value(out, value, names)
}

/// Appends a number after a blank.
fn print_blank_number(out: &mut Vec<u8>, number: u32) -> Result<(), NoMemory>
    ensures { OnOk result (out.new.items ≡ out.old.items ++ (codes " " ++ decimal number)) }
{
    out.push(b' ')?;
    print_number(out, u64::from(number))
}

/// Appends a birth.
fn print_birth(out: &mut Vec<u8>, word: &[u8], birth: &Birth, names: &Names) -> Result<(), NoMemory>
    requires { IsBirthNamed names.now birth.now }
    ensures { OnOk result (out.new.items
        ≡ out.old.items ++ birth_text names.now word.now birth.now) }
{
    out.extend_from_slice(word)?;
    print_blank_number(out, birth.proc_at)?;
    append_labels(out, &birth.result, &birth.clearance, names)?;
    print_blank_number(out, birth.turns)?;
    print_blank_number(out, birth.first)?;
    print_blank_number(out, birth.cells)?;
    print_args(out, birth.args.as_slice(), names)
}

/// The word of an operation that raises the current label.
fn op_word(op: Op) -> &'static [u8]
    requires { IsRaising op }
    ensures { result.now ≡ op_text op }
{
    match op {
        Op::Unlabel => b"unlabel",
        Op::Taint => b"taint",
        Op::Read => b"read",
        Op::Wait => b"wait",
        Op::Take => b"take",
        Op::Put => b"put",
        Op::Seal | Op::NewRef | Op::NewVar | Op::Write | Op::Send | Op::Fork | Op::Lower =>
            unreachable!(),
    }
}

/// Appends a word and a label.
fn print_word_label(
    out: &mut Vec<u8>,
    word: &[u8],
    label: &Label,
    names: &Names,
) -> Result<(), NoMemory>
    requires { AreNamed names.now label.now }
    ensures { OnOk result (out.new.items
        ≡ out.old.items ++ (word.now ++ label_in_brackets names.now label.now)) }
{
    out.extend_from_slice(word)?;
    print_label(out, label, names)
}

/// Appends a word and a value.
fn print_word_value(
    out: &mut Vec<u8>,
    word: &[u8],
    value: &Value,
    names: &Names,
) -> Result<(), NoMemory>
    requires { IsValueNamed names.now value.now }
    ensures { OnOk result (out.new.items
        ≡ out.old.items ++ (word.now ++ value_text names.now value.now)) }
{
    out.extend_from_slice(word)?;
    append_value(out, value, names)
}

/// Appends a word and a content.
fn print_word_content(
    out: &mut Vec<u8>,
    word: &[u8],
    content: &Content,
    names: &Names,
) -> Result<(), NoMemory>
    requires { IsContentNamed names.now content.now }
    ensures { OnOk result (out.new.items
        ≡ out.old.items ++ (word.now ++ content_text names.now content.now)) }
{
    out.extend_from_slice(word)?;
    append_content(out, content, names)
}

/// Appends the word of a release or of an exposure, and what it shows.
fn print_release(
    out: &mut Vec<u8>,
    word: &[u8],
    source: &Label,
    target: &Label,
    power: &Priv,
    content: &Content,
    names: &Names,
) -> Result<(), NoMemory>
    requires { IsActNamed names.now (Act.Release source.now target.now power.now content.now) }
    ensures { OnOk result (out.new.items ≡ out.old.items ++ release_text names.now word.now
        source.now target.now power.now content.now) }
{
    out.extend_from_slice(word)?;
    append_labels(out, source, target, names)?;
    out.push(b' ')?;
    print_power(out, power, names)?;
    out.push(b' ')?;
    append_content(out, content, names)
}

/// Appends an act.
fn print_act(out: &mut Vec<u8>, act: &Act, names: &Names) -> Result<(), NoMemory>
    requires named { IsActNamed names.now act.now }
    requires raise { IsRaiseOf act.now }
    ensures { OnOk result (out.new.items ≡ out.old.items ++ act_text names.now act.now) }
{
    match act {
        Act::Step => out.extend_from_slice(b"step")?,
        Act::Seal(label) => print_word_label(out, b"seal ", label, names)?,
        Act::Raise(op, label) => {
            out.extend_from_slice(b"raise ")?;
            out.extend_from_slice(op_word(*op))?;
            print_word_label(out, b" ", label, names)?
        }
        Act::Lower(label) => print_word_label(out, b"lower ", label, names)?,
        Act::Release(source, target, power, content) => print_release(
            out,
            b"release",
            source.get(),
            target.get(),
            power,
            content.get(),
            names,
        )?,
        Act::Expose(source, target, power, content) => print_release(
            out,
            b"expose",
            source.get(),
            target.get(),
            power,
            content.get(),
            names,
        )?,
        Act::NewRef(label, value) => {
            print_word_label(out, b"newref ", label, names)?;
            print_word_value(out, b" ", value.get(), names)?
        }
        Act::NewVar(label, value) => {
            print_word_label(out, b"newvar ", label, names)?;
            out.push(b' ')?;
            print_option(out, value.get(), names)?
        }
        Act::Fork(birth) => print_birth(out, b"fork", birth.get(), names)?,
        Act::Spawn(birth) => print_birth(out, b"spawn", birth.get(), names)?,
        Act::Read => out.extend_from_slice(b"read")?,
        Act::Write(value) => print_word_value(out, b"write ", value.get(), names)?,
        Act::Take => out.extend_from_slice(b"take")?,
        Act::Put(value) => print_word_value(out, b"put ", value.get(), names)?,
        Act::Wait => out.extend_from_slice(b"wait")?,
        Act::Send(text) => {
            out.extend_from_slice(b"send ")?;
            print_quoted(out, text.bytes())?
        }
        Act::Ended(content) => print_word_content(out, b"ended ", content.get(), names)?,
    }
    Ok(())
}

/// Appends a reply.
fn print_reply(out: &mut Vec<u8>, reply: &Reply, names: &Names) -> Result<(), NoMemory>
    requires { IsReplyNamed names.now reply.now }
    ensures { OnOk result (out.new.items ≡ out.old.items ++ reply_text names.now reply.now) }
{
    match reply {
        Reply::Done => out.extend_from_slice(b"ok")?,
        Reply::Got(value) => print_word_value(out, b"got ", value.get(), names)?,
        Reply::Told(content) => print_word_content(out, b"told ", content.get(), names)?,
        Reply::Refused(fault) => {
            out.extend_from_slice(b"no ")?;
            append_fault(out, fault.get(), names)?
        }
    }
    Ok(())
}

/// Appends the number of the node that a turn met.
fn print_target(out: &mut Vec<u8>, target: Option<u32>) -> Result<(), NoMemory>
    ensures { OnOk result (out.new.items ≡ out.old.items ++ target_text target) }
{
    match target {
        None => Ok(out.push(b'-')?),
        Some(target) => print_number(out, u64::from(target)),
    }
}

/// Appends the line of an entry without its ticket.
fn print_line(out: &mut Vec<u8>, entry: &Entry, names: &Names) -> Result<(), NoMemory>
    requires { IsPrintable names.now entry.now }
    ensures { OnOk result (out.new.items ≡ out.old.items ++ line_text names.now entry.now) }
{
    print_number(out, u64::from(entry.actor))?;
    out.push(b' ')?;
    print_target(out, entry.target)?;
    print_word_label(out, b" ", &entry.at, names)?;
    out.push(b' ')?;
    print_act(out, &entry.act, names)?;
    out.extend_from_slice(b" : ")?;
    print_reply(out, &entry.reply, names)?;
    out.push(b'\n')?;
    Ok(())
}

/// Appends the line of an entry, with its ticket or without.
#[tactic(auto, unfolding(crate::specs::JournalText::entry_text))]
fn print_entry_to(
    out: &mut Vec<u8>,
    entry: &Entry,
    ticket: bool,
    names: &Names,
) -> Result<(), NoMemory>
    requires { IsPrintable names.now entry.now }
    ensures { OnOk result (out.new.items ≡ out.old.items ++ entry_text names.now ticket entry.now) }
{
    if ticket {
        print_number(out, entry.ticket)?;
        out.push(b' ')?;
    }
    print_line(out, entry, names)
}

/// The line of an entry, `TICKET ACTOR TARGET <AT> ACT : REPLY`, with its line end; without the
/// ticket where `ticket` is false.
pub fn print_entry(
    alloc: Global,
    entry: &Entry,
    ticket: bool,
    names: &Names,
) -> Result<Vec<u8>, NoMemory>
    requires { IsPrintable names.now entry.now }
    ensures { IfOk result (λ text. text.items ≡ entry_text names.now ticket entry.now) }
{
    let mut out = Vec::new(alloc);
    print_entry_to(&mut out, entry, ticket, names)?;
    Ok(out)
}

/// The lines of a journal's entries, with their tickets or without.
pub fn print_journal(
    alloc: Global,
    journal: &Journal,
    ticket: bool,
    names: &Names,
) -> Result<Vec<u8>, NoMemory>
    requires { All (IsPrintable names.now) journal.now }
    ensures { IfOk result (λ text. text.items ≡ journal_text names.now ticket journal.now) }
{
    let mut out = Vec::new(alloc);
    for entry in journal.entries() {
        print_entry_to(&mut out, entry, ticket, names)?;
    }
    Ok(out)
}
