//! What a node is, and which acts it is ready for.
#![tactic(auto, unfolding(crate::specs::State::ready))]

ghost use Rattle.std.specs.Prelude.{◌≡◌, is_some};
ghost use Rattle.lio_cells.specs.State.{full_with, grants, is_absent, is_channel, is_empty, is_job};
ghost use Rattle.lio_cells.specs.State.{is_reference, is_variable, ready, result_of};

use crate::state::State;
use crate::wish::Wish;
use lio_values::Act;

/// Whether nothing is there.
pub fn is_absent(state: &State) -> bool
    ensures { result ≡ is_absent state.now }
{
    matches!(state, State::Absent)
}

/// Whether it is a reference.
pub fn is_reference(state: &State) -> bool
    ensures { result ≡ is_reference state.now }
{
    matches!(state, State::Ref(_, _))
}

/// Whether it is a variable.
pub fn is_variable(state: &State) -> bool
    ensures { result ≡ is_variable state.now }
{
    matches!(state, State::Var(_, _))
}

/// Whether it is a channel.
pub fn is_channel(state: &State) -> bool
    ensures { result ≡ is_channel state.now }
{
    matches!(state, State::Chan(_, _))
}

/// Whether it is a job.
pub fn is_job(state: &State) -> bool
    ensures { result ≡ is_job state.now }
{
    matches!(state, State::Job(_, _))
}

/// Whether it is a variable that is full.
pub fn is_full(state: &State) -> bool
    ensures { result ≡ is_some (full_with state.now) }
{
    match state {
        State::Var(_, value) => value.is_some(),
        State::Absent => false,
        State::Ref(_, _) => false,
        State::Chan(_, _) => false,
        State::Job(_, _) => false,
    }
}

/// Whether it is a variable that is empty.
pub fn is_empty(state: &State) -> bool
    ensures { result ≡ is_empty state.now }
{
    match state {
        State::Var(_, value) => value.is_none(),
        State::Absent => false,
        State::Ref(_, _) => false,
        State::Chan(_, _) => false,
        State::Job(_, _) => false,
    }
}

/// Whether it is a job whose task has ended.
pub fn has_ended(state: &State) -> bool
    ensures { result ≡ is_some (result_of state.now) }
{
    match state {
        State::Job(_, content) => content.is_some(),
        State::Absent => false,
        State::Ref(_, _) => false,
        State::Var(_, _) => false,
        State::Chan(_, _) => false,
    }
}

/// Whether a node of this state is ready for the act.
pub fn ready(state: &State, act: &Act) -> bool
    ensures { result ≡ ready state.now act.now }
{
    match act {
        Act::Read => is_reference(state),
        Act::Write(_) => is_reference(state),
        Act::Take => is_full(state),
        Act::Put(_) => is_empty(state),
        Act::Wait => has_ended(state),
        Act::Send(_) => is_channel(state),
        Act::NewRef(_, _) => is_absent(state),
        Act::NewVar(_, _) => is_absent(state),
        Act::Fork(_) => is_absent(state),
        Act::Spawn(_) => is_absent(state),
        Act::Step => false,
        Act::Seal(_) => false,
        Act::Raise(_, _) => false,
        Act::Lower(_) => false,
        Act::Release(_, _, _, _) => false,
        Act::Expose(_, _, _, _) => false,
        Act::Ended(_) => false,
    }
}

/// Whether a node of this state gives what is wished for.
pub fn grants(state: &State, wish: Wish) -> bool
    ensures { result ≡ grants state.now wish }
{
    match wish {
        Wish::Take => is_full(state),
        Wish::Put => is_empty(state),
        Wish::Wait => has_ended(state),
    }
}
