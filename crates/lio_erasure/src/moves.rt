//! Whether a task can take a turn, which takes no memory.
ghost use Rattle.std.specs.Prelude.{◌≡◌, List, ℕ};
ghost use Rattle.std.specs.Option.{option_copied};
ghost use Rattle.lio_syntax.specs.Statements.{Procedure};
ghost use Rattle.lio_calculus.specs.Plan as plan;
ghost use Rattle.lio_calculus.specs.Task.{TaskState};
ghost use Rattle.lio_task.specs.StateOf.{state_in};
ghost use Rattle.lio_task_turns.specs.StateOf.{program_of};
ghost use Rattle.lio_erasure.specs.Low.{low_configuration_of};
ghost use Rattle.lio_erasure.specs.Moves.{gives, moves_at, shows_reference};

use crate::acts::{has_label, is_reference};
use crate::cells::LowConfig;
use lio_cells::Wish;
use lio_syntax::Script;
use lio_syntax_lines::Simple;
use lio_task::Task;
use lio_task_control::{Environment, Front};
use lio_task_turns::operands;
use lio_values::Handle;

impl LowConfig {
    /// Whether the reference that a handle names is there; without a handle nothing is waited for.
    fn shows_reference(&self, handle: Option<&Handle>) -> bool
        ensures { (script : List Procedure) (longest : ℕ) → result ≡ shows_reference
            (low_configuration_of script longest self.now) (option_copied handle.entry) }
    {
        let Some(handle) = handle else {
            return true;
        };
        match self.holder(handle.number) {
            Some(holder) => {
                has_label(holder.node.state(), &handle.label) && is_reference(holder.node.state())
            }
            None => false,
        }
    }

    /// Whether the node that a handle names is there and gives what an access wishes for; without a
    /// handle nothing is waited for.
    fn gives(&self, wish: Wish, handle: Option<&Handle>) -> bool
        ensures { (script : List Procedure) (longest : ℕ) → result ≡ gives
            (low_configuration_of script longest self.now) wish (option_copied handle.entry) }
    {
        let Some(handle) = handle else {
            return true;
        };
        match self.holder(handle.number) {
            Some(holder) => {
                has_label(holder.node.state(), &handle.label) && holder.node.grants(wish)
            }
            None => false,
        }
    }

    /// Whether the access of a statement can be made: its node is ready, or an operand isn't of the
    /// needed kind, so that a fault is thrown.
    fn allows(&self, environment: &Environment, access: &Simple) -> bool
        ensures { (script : List Procedure) (longest : ℕ) (task : TaskState)
            → task.environment ≡ environment.now → result ≡ moves_at
            (low_configuration_of script longest self.now) (plan.plan_access task access.now) }
    {
        match access {
            Simple::Read(_, operand) => {
                self.shows_reference(operands::reference(environment, operand))
            }
            Simple::Take(_, operand) => {
                self.gives(Wish::Take, operands::variable(environment, operand))
            }
            Simple::Put(variable, operand) => {
                !operands::is_bound(environment, operand)
                    || self.gives(Wish::Put, operands::variable(environment, variable))
            }
            Simple::Wait(_, operand) => {
                self.gives(Wish::Wait, operands::task_result(environment, operand))
            }
            _ => true,
        }
    }

    /// Whether a task can take a turn: it hasn't ended, and has no turns left or stands at no
    /// access that has to wait.
    pub(crate) fn can_go_on(&self, script: &Script, task: &Task) -> bool
        ensures { (longest : ℕ) → result ≡ moves_at
            (low_configuration_of script.now longest self.now)
            (plan.plan (program_of script.now longest) (state_in script.now task.now)) }
    {
        if task.has_ended() {
            return false;
        }
        if task.turns_left() == 0 {
            return true;
        }
        match task.front(script) {
            Front::Access(access) => self.allows(task.environment(), access),
            _ => true,
        }
    }
}
