//! What a node becomes. Nothing here takes memory.
ghost use Rattle.std.specs.Prelude.{◌≡◌, Some, None};
ghost use Rattle.lio_cells.specs.State.{ended, filled, written};
ghost use Rattle.lio_cells.specs.Room.{state_with, with_bytes};

use crate::bytes::Bytes;
use crate::room::Room;
use crate::state::State;
use lio_clauses::assign;
use lio_values::{Content, Value};
use std::mem;

/// Puts a value into a reference or a variable.
fn hold(state: &mut State, value: Value)
    ensures { state.new ≡ filled (written state.old value) (Some value) }
{
    match state {
        State::Ref(_, held) => assign(held, value),
        State::Var(_, held) => assign(held, Some(value)),
        State::Absent | State::Chan(_, _) | State::Job(_, _) => drop(value),
    }
}

/// Empties a variable.
fn empty(state: &mut State)
    ensures { state.new ≡ filled state.old None }
{
    match state {
        State::Var(_, held) => assign(held, None),
        State::Absent | State::Ref(_, _) | State::Chan(_, _) | State::Job(_, _) => {}
    }
}

/// Ends the task of a job with this content.
fn end(state: &mut State, content: Content)
    ensures { state.new ≡ ended state.old content }
{
    match state {
        State::Job(_, result) => assign(result, Some(content)),
        State::Absent | State::Ref(_, _) | State::Var(_, _) | State::Chan(_, _) => drop(content),
    }
}

/// Gives a channel the bytes that it has received in all.
fn receive(state: &mut State, bytes: Bytes)
    ensures { state.new ≡ with_bytes state.old bytes }
{
    match state {
        State::Chan(_, received) => assign(received, bytes),
        State::Absent | State::Ref(_, _) | State::Var(_, _) | State::Job(_, _) => drop(bytes),
    }
}

/// Makes of a state what the room makes of it.
fn fill(state: &mut State, room: Room)
    ensures { state.new ≡ state_with state.old room }
{
    match room {
        Room::Nothing => {}
        Room::Empties => empty(state),
        Room::Holds(value) => hold(state, value),
        Room::Receives(bytes) => receive(state, bytes),
        Room::Becomes(new) => assign(state, new),
        Room::Ends(content) => end(state, content),
    }
}

/// Makes of a state what its room makes of it, and leaves no room.
#[inline(always)]
pub fn serve(state: &mut State, room: &mut Room)
    ensures state { state.new ≡ state_with state.old room.old }
    ensures room { room.new ≡ Room.Nothing }
{
    if !matches!(room, Room::Nothing) {
        let kept = mem::replace(room, Room::Nothing);
        fill(state, kept);
    }
}
