//! What can be told of a configuration's next steps before they are taken.
ghost use Rattle.std.specs.Prelude.{◌≡◌, IfOk};

use crate::config::{Config, StepFault};
use crate::next::Next;
use crate::status::Status;
use crate::task::Task;
use lio_cells::Wish;
use lio_clauses::NoMemory;
use lio_syntax::Script;
use lio_values::{Act, Entry, Reply};
use std::alloc::Global;

/// The entry of a task's turn.
fn entry_of(
    alloc: Global,
    ticket: u64,
    k: u32,
    task: &Task,
    target: Option<u32>,
    act: Act,
    reply: Reply,
) -> Result<Entry, NoMemory>
    ensures { IfOk result (λ entry. entry ≡ record {
      ticket = ticket;
      actor = k;
      target = target;
      at = task.now.label;
      act = act;
      reply = reply;
    }) }
{
    match task.label().copy(alloc) {
        Ok(at) => Ok(Entry {
            ticket,
            actor: k,
            target,
            at,
            act,
            reply,
        }),
        Err(error) => {
            drop(act);
            drop(reply);
            Err(error)
        }
    }
}

impl Config {
    ghost use Rattle.std.specs.Prelude.{◌≡◌, ℕ, List, Some, IfOk, IfErr};
    ghost use Rattle.lio_syntax.specs.Statements.{Procedure};
    ghost use Rattle.lio_cells.specs.State.{grants};
    ghost use Rattle.lio_calculus.specs.Sound.{IsSound};
    ghost use Rattle.lio_calculus.specs.Step.{can, cell_at};
    ghost use Rattle.lio_task_turns.specs.StateOf.{program_of};
    ghost use Rattle.lio_task.specs.declared.next.Next.TheVariants as next;
    ghost use Rattle.lio_task.specs.Configuration.{configuration_of, task_in};
    ghost use Rattle.lio_task.specs.Next.{next_of};
    ghost use Rattle.lio_task.specs.StateOf.{state_in};
    ghost use Rattle.lio_task.specs.Status.{status_of};
    ghost use Rattle.lio_task.specs.Takes.{Stays, WouldShow, awaited_at};

    /// Whether the node with a number gives what a task at its access wishes for.
    fn grants(&self, n: u32, wish: Wish) -> bool
        ensures { (script : List Procedure)
            → result ≡ grants (cell_at (configuration_of script self.now) n).state wish }
    {
        match self.holders.get(n as usize) {
            Some(holder) => holder.node.grants(wish),
            None => false,
        }
    }

    /// Whether a task that stands so can take a turn: it hasn't ended, and has no turns left or
    /// stands at no access whose node isn't ready. It takes no memory.
    pub(crate) fn can_go_on(&self, task: &Task, status: Status) -> bool
        ensures { (script : List Procedure) (k : ℕ) → IsSound (configuration_of script self.now)
            → task_in self.now k ≡ Some task.now
            → status ≡ status_of (state_in script task.now)
            → result ≡ can (configuration_of script self.now) k }
    {
        match status {
            Status::Ended => false,
            Status::Running | Status::Reading(_) => true,
            Status::Access(n, wish) => task.turns_left() == 0 || self.grants(n, wish),
        }
    }

    /// Tells whether task `k` is there and can take a turn. It takes no memory.
    pub fn can_move(&self, script: &Script, k: u32) -> bool
        ensures { let here = configuration_of script.now self.now in IsSound here
            → result ≡ can here k }
    {
        match self.task(k) {
            Some(task) => self.can_go_on(task, task.status(script)),
            None => false,
        }
    }

    /// The node at whose access task `k` stands, if it stands at one. It takes no memory.
    pub fn awaited(&self, script: &Script, k: u32) -> Option<u32>
        ensures { result ≡ awaited_at script.now self.now k }
    {
        match self.task(k)?.status(script) {
            Status::Access(n, _) | Status::Reading(n) => Some(n),
            Status::Running | Status::Ended => None,
        }
    }

    /// The entry that the step of task `k` with this ticket would show.
    pub fn next_entry(
        &self,
        alloc: Global,
        script: &Script,
        k: u32,
        ticket: u64,
    ) -> Result<Entry, StepFault>
        requires { IsSound (configuration_of script.now self.now) }
        ensures ok { IfOk result (WouldShow (configuration_of script.now self.now) k ticket) }
        ensures fault { IfErr result (Stays (configuration_of script.now self.now) k) }
    {
        let Some(task) = self.task(k) else {
            return Err(StepFault::Still(k));
        };
        match task.next(alloc, script, self.longest)? {
            Next::Over => Err(StepFault::Still(k)),
            Next::Own(act, reply) => Ok(entry_of(alloc, ticket, k, task, None, act, reply)?),
            Next::Visit(act, n) => self.next_visit(alloc, script, k, ticket, task, act, n),
        }
    }

    /// The entry of the turn in which task `k` meets node `n`.
    fn next_visit(
        &self,
        alloc: Global,
        script: &Script,
        k: u32,
        ticket: u64,
        task: &Task,
        act: Act,
        n: u32,
    ) -> Result<Entry, StepFault>
        requires sound { IsSound (configuration_of script.now self.now) }
        requires task { task_in self.now k ≡ Some task.now }
        requires next { next_of (program_of script.now self.now.longest)
            (state_in script.now task.now) ≡ next.Visit act n }
        ensures ok { IfOk result (WouldShow (configuration_of script.now self.now) k ticket) }
        ensures fault { IfErr result (Stays (configuration_of script.now self.now) k) }
    {
        let Some(holder) = self.holders.get(n as usize) else {
            unreachable!()
        };
        if !holder.node.ready(&act) {
            drop(act);
            return Err(StepFault::Still(k));
        }
        match holder.node.answer(alloc, &act) {
            Ok(reply) => Ok(entry_of(alloc, ticket, k, task, Some(n), act, reply)?),
            Err(NoMemory) => {
                drop(act);
                Err(StepFault::NoMemory)
            }
        }
    }
}
