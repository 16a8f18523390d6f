//! The handle that a task names ahead.
ghost use Rattle.std.specs.Prelude.{◌≡◌};
ghost use Rattle.std.specs.Option.{option_copied};
ghost use Rattle.lio_calculus.specs.Waiting.{handle_met};
ghost use Rattle.lio_calculus.specs.Handles.{handle_written};

use crate::task::Task;
use lio_syntax::Script;
use lio_syntax_lines::Simple;
use lio_task_control::{Environment, Front};
use lio_task_turns::operands;
use lio_values::Handle;

/// The handle of the node that an access meets.
fn met<'s>(environment: &'s Environment, simple: &'s Simple) -> Option<&'s Handle>
    ensures { option_copied result ≡ handle_met environment.now simple.now }
{
    match simple {
        Simple::Read(_, reference) => operands::reference(environment, reference),
        Simple::Take(_, variable) => operands::variable(environment, variable),
        Simple::Put(variable, _) => operands::variable(environment, variable),
        Simple::Wait(_, handle) => operands::task_result(environment, handle),
        _ => None,
    }
}

/// The handle of the node that a statement writes or sends to, where its operands are of the needed
/// kind.
fn written<'s>(environment: &'s Environment, simple: &'s Simple) -> Option<&'s Handle>
    ensures { option_copied result ≡ handle_written environment.now simple.now }
{
    match simple {
        Simple::Write(reference, value) if operands::is_bound(environment, value) => {
            operands::reference(environment, reference)
        }
        Simple::Send(channel, text) if operands::text(environment, text).is_some() => {
            operands::channel(environment, channel)
        }
        _ => None,
    }
}

impl Task {
    ghost use Rattle.std.specs.Prelude.{◌≡◌};
    ghost use Rattle.std.specs.Option.{option_copied};
    ghost use Rattle.lio_calculus.specs.Handles.{handle_ahead};
    ghost use Rattle.lio_task.specs.StateOf.{state_in};

    /// The handle that its first item names, where this is the access of a `read`, `take`, `put` or
    /// `wait`, or a `write` or `send` whose operands are of the needed kind. It takes no memory.
    pub fn handle<'s>(&'s self, script: &'s Script) -> Option<&'s Handle>
        ensures { let state = state_in script.now self.now in
            option_copied result ≡ handle_ahead state.environment state.items }
    {
        let environment = self.continuation.environment();
        match self.continuation.front(script) {
            Front::Access(simple) => met(environment, simple),
            Front::Simple(simple) => written(environment, simple),
            Front::Nothing => None,
            Front::Back => None,
            Front::Mark => None,
            Front::Fail(_) => None,
            Front::Choice(_) => None,
            Front::Loop(_) => None,
            Front::Guarded => None,
        }
    }
}
