//! What is taken of memory for an act.
#![tactic(auto, unfolding(crate::specs::Room::room_for))]

ghost use Rattle.std.specs.Prelude.{◌≡◌, IfOk, IsTrue, if◌then◌else◌};
ghost use Rattle.lio_cells.specs.declared.state.State.{State};
ghost use Rattle.lio_cells.specs.State.{is_absent, is_job, is_reference, is_variable};
ghost use Rattle.lio_cells.specs.Room.{room_for, room_to_send};

use crate::ready::{is_absent, is_job, is_reference, is_variable};
use crate::room::Room;
use crate::state::{State, copy_reference, copy_variable};
use lio_clauses::NoMemory;
use lio_labels::Label;
use lio_values::{Act, Birth, Content, Text, Value};
use std::alloc::Global;

/// A copy of the value that a node will hold.
fn room_to_hold(alloc: Global, value: &Value) -> Result<Room, NoMemory>
    ensures { IfOk result (λ room. room ≡ Room.Holds value.now) }
{
    Ok(Room::Holds(value.copy(alloc)?))
}

/// For a reference, a copy of the value that is written.
fn room_to_write(alloc: Global, state: &State, value: &Value) -> Result<Room, NoMemory>
    ensures { IfOk result
        (λ room. room ≡ (if is_reference state.now then Room.Holds value.now else Room.Nothing)) }
{
    if is_reference(state) {
        room_to_hold(alloc, value)
    } else {
        Ok(Room::Nothing)
    }
}

/// For a variable, that it will be empty.
fn room_to_take(state: &State) -> Room
    ensures { result ≡ (if is_variable state.now then Room.Empties else Room.Nothing) }
{
    if is_variable(state) {
        Room::Empties
    } else {
        Room::Nothing
    }
}

/// For a variable, a copy of the value that is put.
fn room_to_put(alloc: Global, state: &State, value: &Value) -> Result<Room, NoMemory>
    ensures { IfOk result
        (λ room. room ≡ (if is_variable state.now then Room.Holds value.now else Room.Nothing)) }
{
    if is_variable(state) {
        room_to_hold(alloc, value)
    } else {
        Ok(Room::Nothing)
    }
}

/// For a channel, the bytes that it will have received.
fn room_to_send(alloc: Global, state: &State, text: &Text) -> Result<Room, NoMemory>
    ensures { IfOk result (λ room. room ≡ room_to_send state.now text.now) }
{
    match state {
        State::Chan(_, received) => Ok(Room::Receives(received.with(alloc, text)?)),
        State::Absent => Ok(Room::Nothing),
        State::Ref(_, _) => Ok(Room::Nothing),
        State::Var(_, _) => Ok(Room::Nothing),
        State::Job(_, _) => Ok(Room::Nothing),
    }
}

/// Where nothing is, a reference with copies of its label and value.
fn room_for_reference(
    alloc: Global,
    state: &State,
    label: &Label,
    value: &Value,
) -> Result<Room, NoMemory>
    ensures { IfOk result (λ room. room
        ≡ (if is_absent state.now then Room.Becomes (State.Ref label.now value.now)
        else Room.Nothing)) }
{
    if is_absent(state) {
        Ok(Room::Becomes(copy_reference(alloc, label, value)?))
    } else {
        Ok(Room::Nothing)
    }
}

/// Where nothing is, a variable with copies of its label and, if it is full, its value.
fn room_for_variable(
    alloc: Global,
    state: &State,
    label: &Label,
    value: &Option<Value>,
) -> Result<Room, NoMemory>
    ensures { IfOk result (λ room. room
        ≡ (if is_absent state.now then Room.Becomes (State.Var label.now value.now)
        else Room.Nothing)) }
{
    if is_absent(state) {
        Ok(Room::Becomes(copy_variable(alloc, label, value)?))
    } else {
        Ok(Room::Nothing)
    }
}

/// Where nothing is, a job with a copy of its result's label.
fn room_for_job(alloc: Global, state: &State, birth: &Birth) -> Result<Room, NoMemory>
    ensures { IfOk result (λ room. room
        ≡ (if is_absent state.now then Room.Becomes (State.Job birth.now.result None)
        else Room.Nothing)) }
{
    if is_absent(state) {
        Ok(Room::Becomes(State::Job(birth.result.copy(alloc)?, None)))
    } else {
        Ok(Room::Nothing)
    }
}

/// For a job, a copy of the content that its task ends with.
fn room_to_end(alloc: Global, state: &State, content: &Content) -> Result<Room, NoMemory>
    ensures { IfOk result
        (λ room. room ≡ (if is_job state.now then Room.Ends content.now else Room.Nothing)) }
{
    if is_job(state) {
        Ok(Room::Ends(content.copy(alloc)?))
    } else {
        Ok(Room::Nothing)
    }
}

/// Whether an act needs no room, whatever the node's state: it changes nothing.
#[inline(always)]
pub fn needs_no_room(act: &Act) -> bool
    ensures { IsTrue result → (state : State) → room_for state act.now ≡ Room.Nothing }
{
    matches!(
        act,
        Act::Step
            | Act::Seal(_)
            | Act::Raise(_, _)
            | Act::Lower(_)
            | Act::Release(_, _, _, _)
            | Act::Expose(_, _, _, _)
            | Act::Read
            | Act::Wait
    )
}

/// The room for an act in a node of this state.
pub fn room_for(alloc: Global, state: &State, act: &Act) -> Result<Room, NoMemory>
    ensures { IfOk result (λ room. room ≡ room_for state.now act.now) }
{
    match act {
        Act::Write(value) => room_to_write(alloc, state, value.get()),
        Act::Take => Ok(room_to_take(state)),
        Act::Put(value) => room_to_put(alloc, state, value.get()),
        Act::Send(text) => room_to_send(alloc, state, text),
        Act::NewRef(label, value) => room_for_reference(alloc, state, label, value.get()),
        Act::NewVar(label, value) => room_for_variable(alloc, state, label, value.get()),
        Act::Fork(birth) => room_for_job(alloc, state, birth.get()),
        Act::Spawn(birth) => room_for_job(alloc, state, birth.get()),
        Act::Ended(content) => room_to_end(alloc, state, content.get()),
        Act::Read => Ok(Room::Nothing),
        Act::Wait => Ok(Room::Nothing),
        Act::Step => Ok(Room::Nothing),
        Act::Seal(_) => Ok(Room::Nothing),
        Act::Raise(_, _) => Ok(Room::Nothing),
        Act::Lower(_) => Ok(Room::Nothing),
        Act::Release(_, _, _, _) => Ok(Room::Nothing),
        Act::Expose(_, _, _, _) => Ok(Room::Nothing),
    }
}
