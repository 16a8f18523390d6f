//! How a task goes on after its turn.
#![tactic(auto, unfolding(lio_calculus::specs::Going::gone_on))]

use crate::task::Task;
use lio_clauses::NoMemory;
use lio_syntax::Script;
use lio_task_plan::Short;
use lio_task_turns::Onward;
use lio_values::{Act, Reply};
use std::alloc::Global;

/// How a task goes on after its turn.
#[derive(Drop)]
pub enum Way<'s> {
    /// By a short step.
    Short(Short<'s>),
    /// Not at all.
    End,
    /// After the turn of a statement or of its access.
    On(Onward<'s>),
}

impl Task {
    ghost use Rattle.std.specs.Prelude.{◌≡◌, OnOk, OnErr};
    ghost use Rattle.lio_task.specs.Goes.{CanGo, Goes};
    ghost use Rattle.lio_task.specs.StateOf.{state_in};

    /// Goes on after its turn, with the turn's act and reply.
    #[inline(always)]
    pub fn go(
        &mut self,
        alloc: Global,
        script: &Script,
        way: Way,
        act: &Act,
        reply: &Reply,
    ) -> Result<(), NoMemory>
        requires { CanGo script.now self.old way }
        ensures ok { OnOk result (Goes script.now self.old self.new way.entry act.now reply.now) }
        ensures err { OnErr result (state_in script.now self.new ≡ state_in script.now self.old) }
    {
        match way {
            Way::Short(short) => self.go_short(alloc, script, short),
            Way::End => {
                self.go_to_end(script);
                Ok(())
            }
            Way::On(onward) => self.go_on(alloc, script, onward, act, reply),
        }
    }
}
