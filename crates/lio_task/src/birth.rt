//! Tasks as they are born.
use crate::task::Task;
use lio_clauses::NoMemory;
use lio_labels::Label;
use lio_syntax::Script;
use lio_task_control::Continuation;
use lio_task_turns::Procedure;
use lio_values::{Act, Birth};
use std::alloc::Global;

impl Task {
    ghost use Rattle.std.specs.Prelude.{◌≡◌, ℕ, IfOk};
    ghost use Rattle.std.specs.Option.{option_map};
    ghost use Rattle.lio_calculus.specs.Step.{born, child_of};
    ghost use Rattle.lio_task_turns.specs.StateOf.{program_of};
    ghost use Rattle.lio_task.specs.Births.{CanBear, CanBeBorn};
    ghost use Rattle.lio_task.specs.StateOf.{state_in};

    /// A child as it is born, at its parent's label.
    #[inline(never)]
    pub fn of_birth(
        alloc: Global,
        birth: &Birth,
        at: &Label,
        script: &Script,
    ) -> Result<Task, NoMemory>
        requires { CanBeBorn script.now at.now birth.now }
        ensures { IfOk result (λ task. (longest : ℕ) → state_in script.now task
            ≡ child_of (program_of script.now longest) at.now birth.now) }
    {
        let procedure = Procedure::numbered(script, birth.proc_at);
        let environment = procedure.environment(alloc, &birth.args)?;
        let label = at.copy(alloc)?;
        let clearance = birth.clearance.copy(alloc)?;
        let continuation = Continuation::of_body(alloc, script, procedure.line, environment);
        Ok(Task {
            continuation,
            label,
            clearance,
            turns: birth.turns,
            first: birth.first,
            cells: birth.cells,
            ended: false,
            born: None,
        })
    }

    /// The child that an act gives birth to, at its parent's label, if it does.
    pub fn born_by(
        alloc: Global,
        act: &Act,
        at: &Label,
        script: &Script,
    ) -> Result<Option<Task>, NoMemory>
        requires { CanBear script.now at.now act.now }
        ensures { IfOk result (λ child. (longest : ℕ) → option_map (state_in script.now) child
            ≡ born (program_of script.now longest) at.now act.now) }
    {
        match act {
            Act::Fork(birth) => Ok(Some(Task::of_birth(alloc, birth.get(), at, script)?)),
            Act::Spawn(birth) => Ok(Some(Task::of_birth(alloc, birth.get(), at, script)?)),
            _ => Ok(None),
        }
    }

    /// A child as it is born of this task, where it stands.
    fn child(&self, alloc: Global, birth: &Birth, script: &Script) -> Result<Task, NoMemory>
        requires { CanBeBorn script.now self.now.label birth.now }
        ensures { IfOk result (λ task. (longest : ℕ) → state_in script.now task
            ≡ child_of (program_of script.now longest) self.now.label birth.now) }
    {
        let mut child = Task::of_birth(alloc, birth, &self.label, script)?;
        child.born = Some(self.line(script));
        Ok(child)
    }

    /// The child that an act of this task gives birth to, if it does.
    pub(crate) fn bear(
        &self,
        alloc: Global,
        act: &Act,
        script: &Script,
    ) -> Result<Option<Task>, NoMemory>
        requires { CanBear script.now self.now.label act.now }
        ensures { IfOk result (λ child. (longest : ℕ) → option_map (state_in script.now) child
            ≡ born (program_of script.now longest) self.now.label act.now) }
    {
        match act {
            Act::Fork(birth) => Ok(Some(self.child(alloc, birth.get(), script)?)),
            Act::Spawn(birth) => Ok(Some(self.child(alloc, birth.get(), script)?)),
            _ => Ok(None),
        }
    }
}
