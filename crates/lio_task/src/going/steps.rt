//! How a task goes on by a short step.
#![tactic(auto, using(crate::proofs::Steps::on), unfolding(lio_calculus::specs::Going::gone_on))]

use crate::going::Done;
use crate::task::Task;
use lio_syntax::Script;
use lio_task_plan::{Control, Short};
use std::alloc::Global;

impl Task {
    ghost use Rattle.std.specs.Prelude.{◌≡◌, OnOk, OnErr};
    ghost use Rattle.lio_syntax.specs.Lines.{script_lines};
    ghost use Rattle.lio_task_plan.specs.Leads.{Leads, LeadsShort};
    ghost use Rattle.lio_task.specs.Goes.{Steps, StepsShort};
    ghost use Rattle.lio_task.specs.StateOf.{state_in};

    /// Goes on by a short step.
    #[inline(always)]
    pub(crate) fn go_short(&mut self, alloc: Global, script: &Script, short: Short) -> Done
        requires { LeadsShort (state_in script.now self.old).items short }
        ensures ok { OnOk result (StepsShort script.now self.old self.new short.entry) }
        ensures err { OnErr result (state_in script.now self.new ≡ state_in script.now self.old) }
    {
        match short {
            Short::Control(control) => self.go_step(alloc, script, control),
            Short::Set(name, value) => self.go_set(alloc, script, name, value),
        }
    }

    /// Goes on by a step of control.
    #[inline(always)]
    fn go_step(&mut self, alloc: Global, script: &Script, control: Control) -> Done
        requires { Leads (state_in script.now self.old).items control }
        ensures ok { OnOk result (Steps script.now self.old self.new control) }
        ensures err { OnErr result (state_in script.now self.new ≡ state_in script.now self.old) }
    {
        match control {
            Control::Pass => {
                self.go_past(script);
                Ok(())
            }
            Control::Enter => {
                self.go_enter(script);
                Ok(())
            }
            Control::EnterOther => {
                self.go_enter_other(script);
                Ok(())
            }
            Control::Leave => self.go_leave(alloc, script),
        }
    }
}
