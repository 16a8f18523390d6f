//! What the code's types keep of an entry: numbers have their types' widths, texts are of bytes,
//! labels and formulas are canonical and not wide. So each entry that can be printed can be read
//! again. The calls look and do nothing else.
ghost use Rattle.std.specs.Prelude.{◌<◌, ◌^◌, All, IsTrue};
ghost use Rattle.std.specs.List.{list_all};
ghost use Rattle.lio_labels.specs.IsLabel.{IsLabel};
ghost use Rattle.lio_values.specs.Forest.{deepest};
ghost use Rattle.lio_syntax_lines.specs.Literals.{is_byte, is_whole};
ghost use Rattle.lio_events_reading.specs.Fits.{ActFits, BirthFits, ContentFits, EntryFits};
ghost use Rattle.lio_events_reading.specs.Fits.{FaultFits, HandleFits, ItemsFit, KindFits};
ghost use Rattle.lio_events_reading.specs.Fits.{OptionFits};
ghost use Rattle.lio_events_reading.specs.Fits.{PlainFits, PowerFits, ReplyFits, TargetFits};
ghost use Rattle.lio_events_reading.specs.Fits.{ValueFits};

use lio_events::Journal;
use lio_labels::laws::label_is_canonical;
use lio_labels::{Label, Priv};
use lio_values::{
    Act, Birth, Content, Entry, Fault, FaultKind, Handle, Items, Plain, Reply, Text, Value,
};

/// The number of a node has 32 bits.
fn number_fits(number: u32)
    ensures { number < 2 ^ 32 }
{}

/// A count, of turns or of cells, has 64 bits.
fn count_fits(count: u64)
    ensures { count < 2 ^ 64 }
{}

/// The number of a target, if there is one, has 32 bits.
fn target_fits(target: Option<u32>)
    ensures { TargetFits target }
{
    match target {
        None => {}
        Some(number) => number_fits(number),
    }
}

/// A formula of a privilege is canonical and not wide.
fn power_fits(privilege: &Priv)
    ensures { PowerFits privilege.now }
{
    let _clauses = privilege.power.clauses();
}

/// The number of a handle has 32 bits.
fn handle_fits(handle: &Handle)
    ensures { HandleFits handle.now }
{
    let _number = handle.number;
    label_is_canonical(&handle.label);
}

/// A text is of bytes.
fn text_fits(text: &Text)
    ensures { IsTrue (list_all is_byte text.now) }
{
    for byte in text.bytes() {
        let _byte = *byte;
    }
}

/// A whole has 64 bits with a sign.
fn whole_fits(number: i64)
    ensures { IsTrue (is_whole number) }
{}

#[cycle(fits)]
fn plain_fits(plain: &Plain)
    ensures { PlainFits plain.now }
{
    match plain {
        Plain::Unit => {}
        Plain::Flag(_) => {}
        Plain::Whole(number) => whole_fits(*number),
        Plain::Bytes(text) => text_fits(text),
        Plain::Lab(label) => label_is_canonical(label),
        Plain::Power(privilege) => power_fits(privilege),
        Plain::RefOf(handle) => handle_fits(handle),
        Plain::VarOf(handle) => handle_fits(handle),
        Plain::ResultOf(handle) => handle_fits(handle),
        Plain::ChanOf(handle) => handle_fits(handle),
        Plain::Items(items) => items_fit(items),
    }
}

/// A list has a depth of at most 8, and each of its items fits.
#[cycle(fits)]
fn items_fit(items: &Items)
    ensures deep { deepest items.now < 8 }
    ensures fit { ItemsFit items.now }
{
    for value in items.as_slice() {
        value_fits(value);
    }
}

/// Two labels of a fault.
fn labels_fit(one: &Label, other: &Label)
    ensures one { IsLabel one.now }
    ensures other { IsLabel other.now }
{
    label_is_canonical(one);
    label_is_canonical(other);
}

/// What is asked and what is left have 64 bits.
#[cycle(fits)]
fn kind_fits(kind: &FaultKind)
    ensures { KindFits kind.now }
{
    match kind {
        FaultKind::FlowCurrent(current, target) => labels_fit(current, target),
        FaultKind::FlowClearance(target, clearance) => labels_fit(target, clearance),
        FaultKind::FlowRaise(raised, clearance) => labels_fit(raised, clearance),
        FaultKind::FlowPrivilege(power, source, target) => {
            power_fits(power);
            labels_fit(source, target);
        }
        FaultKind::LabelWide(left, right) => labels_fit(left, right),
        FaultKind::User(plain) => plain_fits(plain),
        FaultKind::NoCells(asked, left) => {
            count_fits(*asked);
            count_fits(*left);
        }
        FaultKind::ChildTurns(asked, left) => {
            count_fits(*asked);
            count_fits(*left);
        }
        FaultKind::BadType => {}
        FaultKind::Overflow => {}
        FaultKind::DivZero => {}
        FaultKind::TooLong => {}
        FaultKind::NoTurns => {}
        FaultKind::Depth => {}
    }
}

#[cycle(fits)]
fn fault_fits(fault: &Fault)
    ensures { FaultFits fault.now }
{
    kind_fits(&fault.kind);
    label_is_canonical(&fault.at);
}

#[cycle(fits)]
fn content_fits(content: &Content)
    ensures { ContentFits content.now }
{
    match content {
        Content::Kept(plain) => plain_fits(plain),
        Content::Faulted(fault) => fault_fits(fault.get()),
        Content::Hidden => {}
    }
}

#[cycle(fits)]
fn value_fits(value: &Value)
    ensures { ValueFits value.now }
{
    match value {
        Value::Bare(plain) => plain_fits(plain),
        Value::Sealed(label, content) => {
            label_is_canonical(label);
            content_fits(content.get());
        }
    }
}

fn option_fits(value: &Option<Value>)
    ensures { OptionFits value.now }
{
    match value {
        None => {}
        Some(value) => value_fits(value),
    }
}

fn values_fit(values: &[Value])
    ensures { All ValueFits values.now }
{
    for value in values {
        value_fits(value);
    }
}

/// The numbers of a birth have 32 bits.
fn birth_fits(birth: &Birth)
    ensures { BirthFits birth.now }
{
    number_fits(birth.proc_at);
    number_fits(birth.turns);
    number_fits(birth.first);
    number_fits(birth.cells);
    label_is_canonical(&birth.result);
    label_is_canonical(&birth.clearance);
    values_fit(birth.args.as_slice());
}

fn act_fits(act: &Act)
    ensures { ActFits act.now }
{
    match act {
        Act::Step => {}
        Act::Seal(label) => label_is_canonical(label),
        Act::Raise(_, label) => label_is_canonical(label),
        Act::Lower(label) => label_is_canonical(label),
        Act::Release(source, target, privilege, content)
        | Act::Expose(source, target, privilege, content) => {
            labels_fit(source.get(), target.get());
            power_fits(privilege);
            content_fits(content.get());
        }
        Act::NewRef(label, value) => {
            label_is_canonical(label);
            value_fits(value.get());
        }
        Act::NewVar(label, value) => {
            label_is_canonical(label);
            option_fits(value.get());
        }
        Act::Fork(birth) => birth_fits(birth.get()),
        Act::Spawn(birth) => birth_fits(birth.get()),
        Act::Read => {}
        Act::Write(value) => value_fits(value.get()),
        Act::Take => {}
        Act::Put(value) => value_fits(value.get()),
        Act::Wait => {}
        Act::Send(text) => text_fits(text),
        Act::Ended(content) => content_fits(content.get()),
    }
}

fn reply_fits(reply: &Reply)
    ensures { ReplyFits reply.now }
{
    match reply {
        Reply::Done => {}
        Reply::Got(value) => value_fits(value.get()),
        Reply::Told(content) => content_fits(content.get()),
        Reply::Refused(fault) => fault_fits(fault.get()),
    }
}

/// The target of an entry, if it has one, has 32 bits, as its actor has; its ticket has 64.
fn entry_fits(entry: &Entry)
    ensures { EntryFits entry.now }
{
    count_fits(entry.ticket);
    number_fits(entry.actor);
    target_fits(entry.target);
    label_is_canonical(&entry.at);
    act_fits(&entry.act);
    reply_fits(&entry.reply);
}

/// Each entry of a journal keeps what the code's types keep.
pub fn journal_fits(journal: &Journal)
    ensures { All EntryFits journal.now }
{
    for entry in journal.entries() {
        entry_fits(entry);
    }
}
