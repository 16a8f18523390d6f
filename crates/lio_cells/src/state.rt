//! What a node holds.
ghost use Rattle.std.specs.Prelude.{◌≡◌, IfOk};

use crate::bytes::Bytes;
use lio_clauses::NoMemory;
use lio_labels::Label;
use lio_values::{Content, Value};
use std::alloc::Global;

/// What a node holds.
#[derive(Drop)]
pub enum State {
    /// Nothing.
    Absent,
    /// A reference: its label and its value.
    Ref(Label, Value),
    /// A blocking variable: its label and, where it is full, its value.
    Var(Label, Option<Value>),
    /// A channel: its label and the bytes that it has received.
    Chan(Label, Bytes),
    /// A task's job: the label of its result and, once the task has ended, the result.
    Job(Label, Option<Content>),
}

/// An equal value, or none.
fn copy_value(alloc: Global, value: &Option<Value>) -> Result<Option<Value>, NoMemory>
    ensures { IfOk result (λ copy. copy ≡ value.now) }
{
    match value {
        Some(value) => Ok(Some(value.copy(alloc)?)),
        None => Ok(None),
    }
}

/// An equal content, or none.
fn copy_result(alloc: Global, content: &Option<Content>) -> Result<Option<Content>, NoMemory>
    ensures { IfOk result (λ copy. copy ≡ content.now) }
{
    match content {
        Some(content) => Ok(Some(content.copy(alloc)?)),
        None => Ok(None),
    }
}

/// A reference with copies of its label and value.
pub fn copy_reference(alloc: Global, label: &Label, value: &Value) -> Result<State, NoMemory>
    ensures { IfOk result (λ state. state ≡ State.Ref label.now value.now) }
{
    let label = label.copy(alloc)?;
    let value = value.copy(alloc)?;
    Ok(State::Ref(label, value))
}

/// A variable with copies of its label and, if it is full, its value.
pub fn copy_variable(alloc: Global, label: &Label, value: &Option<Value>) -> Result<State, NoMemory>
    ensures { IfOk result (λ state. state ≡ State.Var label.now value.now) }
{
    let label = label.copy(alloc)?;
    let value = copy_value(alloc, value)?;
    Ok(State::Var(label, value))
}

/// A channel with copies of its label and of what it has received.
fn copy_channel(alloc: Global, label: &Label, received: &Bytes) -> Result<State, NoMemory>
    ensures { IfOk result (λ state. state ≡ State.Chan label.now received.now) }
{
    let label = label.copy(alloc)?;
    let received = received.copy()?;
    Ok(State::Chan(label, received))
}

/// A job with copies of its label and, once the task has ended, its result.
fn copy_job(alloc: Global, label: &Label, content: &Option<Content>) -> Result<State, NoMemory>
    ensures { IfOk result (λ state. state ≡ State.Job label.now content.now) }
{
    let label = label.copy(alloc)?;
    let content = copy_result(alloc, content)?;
    Ok(State::Job(label, content))
}

impl State {
    /// An equal state.
    pub fn copy(&self, alloc: Global) -> Result<State, NoMemory>
        ensures { IfOk result (λ state. state ≡ self.now) }
    {
        match self {
            State::Absent => Ok(State::Absent),
            State::Ref(label, value) => copy_reference(alloc, label, value),
            State::Var(label, value) => copy_variable(alloc, label, value),
            State::Chan(label, received) => copy_channel(alloc, label, received),
            State::Job(label, content) => copy_job(alloc, label, content),
        }
    }
}
