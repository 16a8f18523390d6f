//! What a turn does, and what it is answered.
ghost use Rattle.std.specs.Prelude.{◌≡◌, IfOk};
ghost use Rattle.lio_values.specs.declared.act.Act.TheVariants as act;

use crate::fault::Fault;
use crate::held::Held;
use crate::text::Text;
use crate::value::{Content, Value, Values};
use lio_clauses::{NoMemory, beside};
use lio_labels::{Label, Priv};
use std::alloc::Global;

/// An operation that a guard tests.
#[derive(Clone, Copy, Debug, PartialEq, Eq)]
pub enum Op {
    /// Sealing a value.
    Seal,
    /// Making a reference.
    NewRef,
    /// Making a variable.
    NewVar,
    /// Writing to a reference.
    Write,
    /// Sending to a channel.
    Send,
    /// Forking a task.
    Fork,
    /// Lowering the clearance.
    Lower,
    /// Opening a sealed value.
    Unlabel,
    /// Raising the current label.
    Taint,
    /// Reading a reference.
    Read,
    /// Waiting for a result.
    Wait,
    /// Taking from a variable.
    Take,
    /// Putting into a variable.
    Put,
}

/// A new task: its procedure's place in the script and its arguments, the label of its result, its
/// clearance, its turns, and the numbers that it is given.
#[derive(PartialEq, Eq, Drop)]
pub struct Birth {
    pub proc_at: u32,
    pub args: Values,
    pub result: Label,
    pub clearance: Label,
    pub turns: u32,
    pub first: u32,
    pub cells: u32,
}

/// What a task does in a turn.
#[derive(PartialEq, Eq, Drop)]
pub enum Act {
    /// Something that concerns the task alone.
    Step,
    /// Seals a value under the label.
    Seal(Label),
    /// Raises the current label, for this operation on a thing with this label.
    Raise(Op, Label),
    /// Lowers the clearance.
    Lower(Label),
    /// Releases a content from the first label to the second by a privilege.
    Release(Held<Label>, Held<Label>, Priv, Held<Content>),
    /// Opens what has the first label by a privilege, and raises the current label to the second:
    /// by what the privilege doesn't cover.
    Expose(Held<Label>, Held<Label>, Priv, Held<Content>),
    /// Makes a reference with this label that holds the value.
    NewRef(Label, Held<Value>),
    /// Makes a variable with this label, which is full where there is a value.
    NewVar(Label, Held<Option<Value>>),
    /// Makes a task whose result can be waited for.
    Fork(Held<Birth>),
    /// Makes a task that nobody waits for.
    Spawn(Held<Birth>),
    /// Reads a reference.
    Read,
    /// Writes the value to a reference.
    Write(Held<Value>),
    /// Takes what a variable holds, and leaves it empty.
    Take,
    /// Puts the value into an empty variable.
    Put(Held<Value>),
    /// Waits for the result of a task.
    Wait,
    /// Sends the text to a channel.
    Send(Text),
    /// Ends with this content.
    Ended(Held<Content>),
}

/// What a turn is answered.
#[derive(PartialEq, Eq, Drop)]
pub enum Reply {
    /// The turn was carried out.
    Done,
    /// What a reference or a variable held.
    Got(Held<Value>),
    /// What a task ended with.
    Told(Held<Content>),
    /// The turn was refused, and throws this fault.
    Refused(Held<Fault>),
}

impl Birth {
    /// An equal birth.
    pub fn copy(&self, alloc: Global) -> Result<Birth, NoMemory>
        ensures { IfOk result (λ birth. birth ≡ self.now) }
    {
        let args = self.args.copy(alloc)?;
        let result = self.result.copy(alloc)?;
        let clearance = self.clearance.copy(alloc)?;
        Ok(Birth {
            proc_at: self.proc_at,
            args,
            result,
            clearance,
            turns: self.turns,
            first: self.first,
            cells: self.cells,
        })
    }
}

impl Held<Birth> {
    /// An equal birth.
    pub fn copy(&self, alloc: Global) -> Result<Held<Birth>, NoMemory>
        ensures { IfOk result (λ held. held ≡ self.now) }
    {
        Held::new(alloc, self.get().copy(alloc)?)
    }
}

impl Held<Label> {
    /// An equal label.
    pub fn copy(&self, alloc: Global) -> Result<Held<Label>, NoMemory>
        ensures { IfOk result (λ held. held ≡ self.now) }
    {
        Held::new(alloc, self.get().copy(alloc)?)
    }
}

/// Copies of two labels.
fn copied_labels(
    alloc: Global,
    first: &Held<Label>,
    second: &Held<Label>,
) -> Result<(Held<Label>, Held<Label>), NoMemory>
    ensures { IfOk result (λ labels. (labels.0 ≡ first.now) × (labels.1 ≡ second.now)) }
{
    let first = first.copy(alloc)?;
    let second = second.copy(alloc)?;
    Ok((first, second))
}

/// A release of a content, with copies of its labels and of its privilege.
pub(crate) fn released(
    alloc: Global,
    source: &Held<Label>,
    target: &Held<Label>,
    power: &Priv,
    content: Held<Content>,
) -> Result<Act, NoMemory>
    ensures { IfOk result
        (λ release. release ≡ act.Release source.now target.now power.now content) }
{
    let (content, power) = beside(content, power.copy(alloc))?;
    let (content, (source, target)) = beside(content, copied_labels(alloc, source, target))?;
    Ok(Act::Release(source, target, power, content))
}

/// An act that exposes a content, with copies of its labels and of its privilege.
pub(crate) fn exposed(
    alloc: Global,
    source: &Held<Label>,
    target: &Held<Label>,
    power: &Priv,
    content: Held<Content>,
) -> Result<Act, NoMemory>
    ensures { IfOk result
        (λ expose. expose ≡ act.Expose source.now target.now power.now content) }
{
    let (content, power) = beside(content, power.copy(alloc))?;
    let (content, (source, target)) = beside(content, copied_labels(alloc, source, target))?;
    Ok(Act::Expose(source, target, power, content))
}

impl Act {
    /// An equal act.
    pub fn copy(&self, alloc: Global) -> Result<Act, NoMemory>
        ensures { IfOk result (λ act. act ≡ self.now) }
    {
        match self {
            Act::Step => Ok(Act::Step),
            Act::Seal(label) => Ok(Act::Seal(label.copy(alloc)?)),
            Act::Raise(op, label) => Ok(Act::Raise(*op, label.copy(alloc)?)),
            Act::Lower(label) => Ok(Act::Lower(label.copy(alloc)?)),
            Act::Release(source, target, power, content) => {
                released(alloc, source, target, power, content.copy(alloc)?)
            }
            Act::Expose(source, target, power, content) => {
                exposed(alloc, source, target, power, content.copy(alloc)?)
            }
            Act::NewRef(label, value) => Ok(Act::NewRef(label.copy(alloc)?, value.copy(alloc)?)),
            Act::NewVar(label, value) => Ok(Act::NewVar(label.copy(alloc)?, value.copy(alloc)?)),
            Act::Fork(birth) => Ok(Act::Fork(birth.copy(alloc)?)),
            Act::Spawn(birth) => Ok(Act::Spawn(birth.copy(alloc)?)),
            Act::Read => Ok(Act::Read),
            Act::Write(value) => Ok(Act::Write(value.copy(alloc)?)),
            Act::Take => Ok(Act::Take),
            Act::Put(value) => Ok(Act::Put(value.copy(alloc)?)),
            Act::Wait => Ok(Act::Wait),
            Act::Send(text) => Ok(Act::Send(text.copy(alloc)?)),
            Act::Ended(content) => Ok(Act::Ended(content.copy(alloc)?)),
        }
    }
}

impl Reply {
    /// An equal reply.
    pub fn copy(&self, alloc: Global) -> Result<Reply, NoMemory>
        ensures { IfOk result (λ reply. reply ≡ self.now) }
    {
        match self {
            Reply::Done => Ok(Reply::Done),
            Reply::Got(value) => Ok(Reply::Got(value.copy(alloc)?)),
            Reply::Told(content) => Ok(Reply::Told(content.copy(alloc)?)),
            Reply::Refused(fault) => Ok(Reply::Refused(fault.copy(alloc)?)),
        }
    }
}
