//! What a node answers.
#![tactic(auto, unfolding(crate::specs::State::answer))]

ghost use Rattle.std.specs.Prelude.{◌≡◌, IfOk};
ghost use Rattle.std.specs.Option.{option_map_or};
ghost use Rattle.lio_cells.specs.State.{answer, full_with, held, result_of};

use crate::state::State;
use lio_clauses::NoMemory;
use lio_values::{Act, Held, Reply, Value};
use std::alloc::Global;

/// A copy of what a node holds.
fn answer_held(alloc: Global, value: &Value) -> Result<Reply, NoMemory>
    ensures { IfOk result (λ reply. reply ≡ Reply.Got value.now) }
{
    Ok(Reply::Got(Held::new(alloc, value.copy(alloc)?)?))
}

/// What a reference holds, where it is one.
fn answer_read(alloc: Global, state: &State) -> Result<Reply, NoMemory>
    ensures { IfOk result (λ reply. reply ≡ option_map_or Reply.Got (held state.now) Reply.Done) }
{
    match state {
        State::Ref(_, value) => answer_held(alloc, value),
        State::Absent => Ok(Reply::Done),
        State::Var(_, _) => Ok(Reply::Done),
        State::Chan(_, _) => Ok(Reply::Done),
        State::Job(_, _) => Ok(Reply::Done),
    }
}

/// What a variable holds, where it is a full one.
fn answer_take(alloc: Global, state: &State) -> Result<Reply, NoMemory>
    ensures { IfOk result
        (λ reply. reply ≡ option_map_or Reply.Got (full_with state.now) Reply.Done) }
{
    match state {
        State::Var(_, Some(value)) => answer_held(alloc, value),
        State::Var(_, None) => Ok(Reply::Done),
        State::Absent => Ok(Reply::Done),
        State::Ref(_, _) => Ok(Reply::Done),
        State::Chan(_, _) => Ok(Reply::Done),
        State::Job(_, _) => Ok(Reply::Done),
    }
}

/// What a task ended with, where it has.
fn answer_wait(alloc: Global, state: &State) -> Result<Reply, NoMemory>
    ensures { IfOk result
        (λ reply. reply ≡ option_map_or Reply.Told (result_of state.now) Reply.Done) }
{
    match state {
        State::Job(_, Some(content)) => Ok(Reply::Told(Held::new(alloc, content.copy(alloc)?)?)),
        State::Job(_, None) => Ok(Reply::Done),
        State::Absent => Ok(Reply::Done),
        State::Ref(_, _) => Ok(Reply::Done),
        State::Var(_, _) => Ok(Reply::Done),
        State::Chan(_, _) => Ok(Reply::Done),
    }
}

/// What a node of this state answers the act.
pub fn answer(alloc: Global, state: &State, act: &Act) -> Result<Reply, NoMemory>
    ensures { IfOk result (λ reply. reply ≡ answer state.now act.now) }
{
    match act {
        Act::Read => answer_read(alloc, state),
        Act::Take => answer_take(alloc, state),
        Act::Wait => answer_wait(alloc, state),
        Act::Write(_) => Ok(Reply::Done),
        Act::Put(_) => Ok(Reply::Done),
        Act::Send(_) => Ok(Reply::Done),
        Act::NewRef(_, _) => Ok(Reply::Done),
        Act::NewVar(_, _) => Ok(Reply::Done),
        Act::Fork(_) => Ok(Reply::Done),
        Act::Spawn(_) => Ok(Reply::Done),
        Act::Step => Ok(Reply::Done),
        Act::Seal(_) => Ok(Reply::Done),
        Act::Raise(_, _) => Ok(Reply::Done),
        Act::Lower(_) => Ok(Reply::Done),
        Act::Release(_, _, _, _) => Ok(Reply::Done),
        Act::Expose(_, _, _, _) => Ok(Reply::Done),
        Act::Ended(_) => Ok(Reply::Done),
    }
}
