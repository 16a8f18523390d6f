//! How a task goes on after the turn of a statement or of its access.
#![tactic(auto, unfolding(lio_calculus::specs::Going::gone_on))]

use crate::going::Done;
use crate::task::Task;
use lio_syntax::Script;
use lio_task_turns::Onward;
use lio_values::{Act, Plain, Reply};
use std::alloc::Global;

impl Task {
    ghost use Rattle.std.specs.Prelude.{◌≡◌, OnOk, OnErr};
    ghost use Rattle.lio_task_control.specs.Front.{AtStatement};
    ghost use Rattle.lio_syntax.specs.Lines.{script_lines};
    ghost use Rattle.lio_calculus.specs.Afforded.{Affords};
    ghost use Rattle.lio_task_plan.specs.Planned.{simple_of};
    ghost use Rattle.lio_task_turns.specs.Turns.{onward_of};
    ghost use Rattle.lio_task.specs.Goes.{GoesOn};
    ghost use Rattle.lio_task.specs.StateOf.{state_in};

    /// Goes on after a turn, with its act and its reply.
    #[inline(always)]
    pub(crate) fn go_on(
        &mut self,
        alloc: Global,
        script: &Script,
        onward: Onward,
        act: &Act,
        reply: &Reply,
    ) -> Done
        requires at { AtStatement (state_in script.now self.old).items }
        requires affords { Affords (state_in script.now self.old) (onward_of
            (script_lines script.now) (simple_of (state_in script.now self.old).items) onward) }
        ensures ok { OnOk result
            (GoesOn script.now self.old self.new onward.entry act.now reply.now) }
        ensures err { OnErr result (state_in script.now self.new ≡ state_in script.now self.old) }
    {
        match onward {
            Onward::Advance => {
                self.go_past(script);
                Ok(())
            }
            Onward::Bind(name, value) => self.go_bind(alloc, script, name, value),
            Onward::Seal(name, label, plain) => {
                self.go_seal(alloc, script, name, label, plain.into_inner())
            }
            Onward::Call(name, environment, line) => {
                self.go_call(alloc, script, name, environment, line)
            }
            Onward::Return(value) => self.go_return(alloc, script, value),
            Onward::Raise(label) => {
                self.go_raise(script, label);
                Ok(())
            }
            Onward::RaiseTo(label) => {
                self.go_raise_to(script, label);
                Ok(())
            }
            Onward::Unlabel(name, label, source, content) => {
                drop(source);
                self.go_unlabel(alloc, script, name, label, content.into_inner())
            }
            Onward::Lower(clearance) => {
                self.go_lower(script, clearance);
                Ok(())
            }
            Onward::Release(name, label) => self.go_release(alloc, script, name, label, act),
            Onward::Expose(name, label) => self.go_expose(alloc, script, name, label, act),
            Onward::HoldReference(name, label) => {
                let handle = Plain::RefOf(self.newest(label));
                self.go_hold(alloc, script, name, handle, 0)
            }
            Onward::HoldVariable(name, label) => {
                let handle = Plain::VarOf(self.newest(label));
                self.go_hold(alloc, script, name, handle, 0)
            }
            Onward::Fork(name, label, cells, turns) => {
                let handle = Plain::ResultOf(self.newest(label));
                self.go_fork(alloc, script, name, handle, cells, turns)
            }
            Onward::Spawn(cells, turns) => {
                self.go_spawn(script, cells, turns);
                Ok(())
            }
            Onward::BindReply(name) => self.go_reply(alloc, script, name, reply),
            Onward::Throw(fault) => self.go_throw(alloc, script, fault.into_inner()),
            Onward::End => {
                self.go_to_end(script);
                Ok(())
            }
        }
    }
}
