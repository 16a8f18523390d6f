//! The plan of an access, whose raise is done.
#![tactic(auto, unfolding(lio_calculus::specs::Plan::plan_access))]

ghost use Rattle.std.specs.Prelude.{◌≡◌, IfOk};
ghost use Rattle.lio_values.specs.declared.act.Act.TheVariants as act;
ghost use Rattle.lio_task_turns.specs.declared.turn.Turn.TheVariants as turn;
ghost use Rattle.lio_task_turns.specs.declared.turn.Target.TheVariants as target;
ghost use Rattle.lio_task_turns.specs.declared.turn.Onward.TheVariants as onward;

use crate::guarded::both;
use crate::operands;
use crate::standing::Standing;
use crate::turn::{Attempt, Onward, Target, Turn};
use lio_syntax_lines::{Operand, Simple};
use lio_values::{Act, Handle, Held, Name, Value};
use std::alloc::Global;

impl Standing<'_> {
    ghost use Rattle.std.specs.Prelude.{◌≡◌, IfOk};
    ghost use Rattle.lio_syntax_lines.specs.declared.line.Simple.TheVariants as line;
    ghost use Rattle.lio_task_turns.specs.Turns.{PlansAccess};

    /// The turn of an access.
    pub fn plan_access<'s>(&self, alloc: Global, simple: &'s Simple) -> Attempt<'s>
        ensures { IfOk result (PlansAccess self.now simple.now) }
    {
        match simple {
            Simple::Read(name, reference) => self.access_read(alloc, name, reference),
            Simple::Take(name, variable) => self.access_take(alloc, name, variable),
            Simple::Put(variable, value) => self.access_put(alloc, variable, value),
            Simple::Wait(name, handle) => self.access_wait(alloc, name, handle),
            _ => self.bad_type(alloc),
        }
    }

    /// The access of `read X R`
    fn access_read<'s>(&self, alloc: Global, name: &'s Name, reference: &Operand) -> Attempt<'s>
        ensures { IfOk result (PlansAccess self.now (line.Read name.now reference.now)) }
    {
        let Some(handle) = operands::reference(self.environment(), reference) else {
            return self.bad_type(alloc);
        };
        let handle = handle.copy(alloc)?;
        Ok(Turn::Visit(
            Act::Read,
            Target::Reference(handle),
            Onward::BindReply(name),
        ))
    }

    /// The access of `take X V`
    fn access_take<'s>(&self, alloc: Global, name: &'s Name, variable: &Operand) -> Attempt<'s>
        ensures { IfOk result (PlansAccess self.now (line.Take name.now variable.now)) }
    {
        let Some(handle) = operands::variable(self.environment(), variable) else {
            return self.bad_type(alloc);
        };
        let handle = handle.copy(alloc)?;
        Ok(Turn::Visit(Act::Take, Target::Variable(handle), Onward::BindReply(name)))
    }

    /// The access of `put V A`
    fn access_put<'s>(&self, alloc: Global, variable: &Operand, value: &Operand) -> Attempt<'s>
        ensures { IfOk result (PlansAccess self.now (line.Put variable.now value.now)) }
    {
        let environment = self.environment();
        let Some(handle) = operands::variable(environment, variable) else {
            return self.bad_type(alloc);
        };
        match operands::value(alloc, environment, value) {
            Ok(Some(value)) => putting(alloc, handle, value),
            Ok(None) => self.bad_type(alloc),
            Err(error) => Err(error),
        }
    }

    /// The access of `wait X R`
    fn access_wait<'s>(&self, alloc: Global, name: &'s Name, task_result: &Operand) -> Attempt<'s>
        ensures { IfOk result (PlansAccess self.now (line.Wait name.now task_result.now)) }
    {
        let Some(handle) = operands::task_result(self.environment(), task_result) else {
            return self.bad_type(alloc);
        };
        let handle = handle.copy(alloc)?;
        Ok(Turn::Visit(Act::Wait, Target::Result(handle), Onward::BindReply(name)))
    }
}

/// A value is put into a variable.
fn putting<'s>(alloc: Global, handle: &Handle, value: Value) -> Attempt<'s>
    ensures { IfOk result (λ planned. planned
        ≡ turn.Visit (act.Put value) (target.Variable handle.now) onward.Advance) }
{
    match both(Held::new(alloc, value), handle.copy(alloc)) {
        Ok((value, handle)) => Ok(Turn::Visit(
            Act::Put(value),
            Target::Variable(handle),
            Onward::Advance,
        )),
        Err(error) => Err(error),
    }
}
