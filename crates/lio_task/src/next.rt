//! What a task's next turn does, and the task after it.
ghost use Rattle.std.specs.Prelude.{◌≡◌, IfOk};
ghost use Rattle.lio_values.specs.declared.act.Act.TheVariants as act;
ghost use Rattle.lio_task.specs.Next.{next_in};

use crate::go::Way;
use crate::task::Task;
use lio_clauses::NoMemory;
use lio_syntax::Script;
use lio_task_plan::{Ending, Full, Plan, content_of, plan_full, plan_next};
use lio_task_turns::{Attempt, Turn};
use lio_values::{Act, Held, Reply};
use std::alloc::Global;

/// What a task's next turn does.
#[derive(Drop)]
pub enum Next {
    /// Nothing: the task has ended.
    Over,
    /// An act that meets no other node, and its reply.
    Own(Act, Reply),
    /// An act that meets the node with this number.
    Visit(Act, u32),
}

impl Task {
    ghost use Rattle.std.specs.Prelude.{◌≡◌, ℕ, IfOk, OnOk, OnErr};
    ghost use Rattle.lio_values.specs.declared.act.Act.TheVariants as act;
    ghost use Rattle.lio_syntax.specs.Lines.{script_lines};
    ghost use Rattle.lio_calculus.specs.Plan as plan;
    ghost use Rattle.lio_task_turns.specs.StateOf.{program_of};
    ghost use Rattle.lio_task_turns.specs.Turns.{turn_of};
    ghost use Rattle.lio_task_plan.specs.Planned.{IsPlanned, content_by, full_by, simple_of};
    ghost use Rattle.lio_task_plan.specs.Leads.{LeadsFull, LeadsOn};
    ghost use Rattle.lio_task.specs.Next.{next_of, resumed};
    ghost use Rattle.lio_task.specs.StateOf.{state_in};

    /// The plan of its next turn. It takes no memory.
    #[inline(always)]
    pub fn plan<'s>(&self, script: &'s Script) -> Plan<'s>
        ensures plan { (longest : ℕ) → IsPlanned (program_of script.now longest)
            (state_in script.now self.now) result }
        ensures leads { LeadsOn (state_in script.now self.now).items result }
    {
        plan_next(&self.standing(), self.front(script))
    }

    /// The turn that is planned in full.
    pub fn planned<'s>(
        &self,
        alloc: Global,
        script: &Script,
        longest: u32,
        full: Full<'s>,
    ) -> Attempt<'s>
        requires { LeadsFull (state_in script.now self.now).items full }
        ensures { IfOk result (λ turn. let state = state_in script.now self.now in
            turn_of (script_lines script.now) (simple_of state.items) turn
            ≡ full_by (program_of script.now longest) state full.entry) }
    {
        plan_full(alloc, &self.standing(), script, longest, full)
    }

    /// The act in which it ends.
    pub fn last_act(&self, alloc: Global, script: &Script, ending: Ending) -> Result<Act, NoMemory>
        ensures { IfOk result (λ asked. let state = state_in script.now self.now in
            asked ≡ act.Ended (content_by state state.items ending)) }
    {
        let content = content_of(alloc, &self.standing(), script, ending)?;
        Ok(Act::Ended(Held::new(alloc, content)?))
    }

    /// What its next turn does. Over comes exactly where it has ended.
    pub fn next(&self, alloc: Global, script: &Script, longest: u32) -> Result<Next, NoMemory>
        ensures { IfOk result (λ next. next
            ≡ next_of (program_of script.now longest) (state_in script.now self.now)) }
    {
        match self.plan(script) {
            Plan::Over => Ok(Next::Over),
            Plan::Short(_) => Ok(Next::Own(Act::Step, Reply::Done)),
            Plan::Ends(ending) => {
                Ok(Next::Own(self.last_act(alloc, script, ending)?, Reply::Done))
            }
            Plan::Full(full) => Ok(next_in(self.planned(alloc, script, longest, full)?)),
        }
    }

    /// Goes on after the turn that `next` gives, with the turn's act and its reply. After a refusal
    /// of memory it is as before.
    pub fn resume(
        &mut self,
        alloc: Global,
        script: &Script,
        longest: u32,
        act: &Act,
        reply: &Reply,
    ) -> Result<(), NoMemory>
        ensures ok { OnOk result (state_in script.now self.new ≡ resumed (program_of script.now
            longest) (state_in script.now self.old) act.now reply.now) }
        ensures err { OnErr result (state_in script.now self.new ≡ state_in script.now self.old) }
    {
        match self.plan(script) {
            Plan::Over => Ok(()),
            Plan::Short(short) => self.go_short(alloc, script, short),
            Plan::Ends(_) => {
                self.go_to_end(script);
                Ok(())
            }
            Plan::Full(full) => {
                let turn = self.planned(alloc, script, longest, full)?;
                self.go(alloc, script, Way::On(turn.onward()), act, reply)
            }
        }
    }
}

/// What a turn does.
fn next_in(turn: Turn) -> Next
    ensures { result ≡ next_in turn.entry }
{
    match turn {
        Turn::Step(onward) => {
            drop(onward);
            Next::Own(Act::Step, Reply::Done)
        }
        Turn::Own(act, reply, onward) => {
            drop(onward);
            Next::Own(act, reply)
        }
        Turn::Visit(act, target, onward) => {
            drop(onward);
            Next::Visit(act, target.number())
        }
    }
}
