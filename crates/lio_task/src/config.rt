//! Configurations, and one small step of them.
ghost use Rattle.std.specs.Prelude.{◌≡◌};

use crate::go::Way;
use crate::pair::pair_mut;
use crate::task::Task;
use crate::turn::blank_entry;
use lio_cells::{Node, Waiters};
use lio_clauses::NoMemory;
use lio_syntax::Script;
use lio_task_plan::{Full, Plan, Short};
use lio_task_turns::{Onward, Target, Turn};
use lio_values::{Act, Entry, Reply};
use std::alloc::Global;
use thiserror::Error;

/// A node and, where it is a job, its task.
#[derive(Drop)]
pub struct Holder {
    /// What stands at the number.
    pub node: Node,
    /// The task of a job.
    pub task: Option<Task>,
}

/// The nodes by number, and how long a text may become.
#[derive(Drop)]
pub struct Config {
    /// What stands at each number, from 0.
    pub holders: Vec<Holder>,
    /// The length of the longest text, in bytes.
    pub longest: u32,
}

/// Why a task took no turn.
#[derive(Debug, Clone, Copy, PartialEq, Eq, Error)]
pub enum StepFault {
    /// The task with this number can't take a turn.
    #[error("task {0} can't take a turn")]
    Still(u32),
    /// No memory is left; all is as before.
    #[error("out of memory")]
    NoMemory,
}

impl From<NoMemory> for StepFault {
    ghost use Rattle.lio_task.specs.declared.config.StepFault.TheVariants.{NoMemory as without_memory};

    ghost from_gives = { λ _ fault. fault ≡ without_memory };

    fn from(_error: NoMemory) -> StepFault {
        StepFault::NoMemory
    }
}

/// Lets those go who waited at a node, where some were taken out: mostly none were.
#[inline(always)]
fn let_go(woken: Option<Waiters>) {
    if let Some(waiters) = woken {
        drop(waiters);
    }
}

impl Config {
    ghost use Rattle.std.specs.Prelude.{◌≡◌, IsTrue, IfOk, IfErr, OnOk, OnErr};
    ghost use Rattle.std.specs.Option.{option_copied};
    ghost use Rattle.lio_values.specs.declared.act.Act.TheVariants.{Step as stepping};
    ghost use Rattle.lio_values.specs.declared.act.Reply.TheVariants.{Done as done};
    ghost use Rattle.lio_calculus.specs.Sound.{IsSound};
    ghost use Rattle.lio_calculus.specs.Step.{can, number_of};
    ghost use Rattle.lio_task_turns.specs.Turns.{target_of};
    ghost use Rattle.lio_task.specs.Configuration.{configuration_of, task_in};
    ghost use Rattle.lio_task.specs.declared.go.Way.TheVariants as way;
    ghost use Rattle.lio_task.specs.Logs.{Appends, HasSameLogs, IsLaterThanLogs};
    ghost use Rattle.lio_task.specs.Takes.{PlansFull, PlansOwn, PlansVisit, Stays, Steps};

    /// The task with a number.
    pub fn task(&self, k: u32) -> Option<&Task>
        ensures { option_copied result ≡ task_in self.now k }
    {
        self.holders.get(k as usize)?.task.as_ref()
    }

    /// The turn of a task that meets no other node.
    #[inline(never)]
    fn own(
        &mut self,
        alloc: Global,
        script: &Script,
        ticket: u64,
        k: u32,
        act: Act,
        reply: Reply,
        way: Way,
        entry: &mut Entry,
    ) -> Result<(), StepFault>
        requires sound { IsSound (configuration_of script.now self.old) }
        requires plans { PlansOwn script.now self.old.longest (task_in self.old k) act reply way }
        requires later { IsLaterThanLogs self.old ticket }
        ensures ok { OnOk result (Steps (configuration_of script.now self.old)
            (configuration_of script.now self.new) k ticket entry.new) }
        ensures logs { OnOk result (Appends self.old self.new entry.new) }
        ensures fault { IfErr result (Stays (configuration_of script.now self.old) k) }
        ensures err { OnErr result (configuration_of script.now self.new
            ≡ configuration_of script.now self.old) }
        ensures kept { OnErr result (HasSameLogs self.old self.new) }
    {
        let Some(actor) = self.holders.get_mut(k as usize) else {
            unreachable!()
        };
        actor.prepare_alone(alloc, script, k, act, reply, way, entry)?;
        entry.ticket = ticket;
        let_go(actor.record(ticket));
        Ok(())
    }

    /// The turn of a task that is a short step.
    #[inline(always)]
    fn short_step(
        &mut self,
        alloc: Global,
        script: &Script,
        ticket: u64,
        k: u32,
        short: Short,
        entry: &mut Entry,
    ) -> Result<(), StepFault>
        requires sound { IsSound (configuration_of script.now self.old) }
        requires plans { PlansOwn script.now self.old.longest (task_in self.old k) stepping done
            (way.Short short) }
        requires later { IsLaterThanLogs self.old ticket }
        ensures ok { OnOk result (Steps (configuration_of script.now self.old)
            (configuration_of script.now self.new) k ticket entry.new) }
        ensures logs { OnOk result (Appends self.old self.new entry.new) }
        ensures fault { IfErr result (Stays (configuration_of script.now self.old) k) }
        ensures err { OnErr result (configuration_of script.now self.new
            ≡ configuration_of script.now self.old) }
        ensures kept { OnErr result (HasSameLogs self.old self.new) }
    {
        let Some(actor) = self.holders.get_mut(k as usize) else {
            unreachable!()
        };
        actor.prepare_short(alloc, script, k, short, entry)?;
        entry.ticket = ticket;
        actor.record_step(ticket);
        Ok(())
    }

    /// The turn of a task that is a step of its own.
    #[inline(always)]
    fn own_step(
        &mut self,
        alloc: Global,
        script: &Script,
        ticket: u64,
        k: u32,
        way: Way,
        entry: &mut Entry,
    ) -> Result<(), StepFault>
        requires sound { IsSound (configuration_of script.now self.old) }
        requires plans { PlansOwn script.now self.old.longest (task_in self.old k) stepping done
            way }
        requires later { IsLaterThanLogs self.old ticket }
        ensures ok { OnOk result (Steps (configuration_of script.now self.old)
            (configuration_of script.now self.new) k ticket entry.new) }
        ensures logs { OnOk result (Appends self.old self.new entry.new) }
        ensures fault { IfErr result (Stays (configuration_of script.now self.old) k) }
        ensures err { OnErr result (configuration_of script.now self.new
            ≡ configuration_of script.now self.old) }
        ensures kept { OnErr result (HasSameLogs self.old self.new) }
    {
        let Some(actor) = self.holders.get_mut(k as usize) else {
            unreachable!()
        };
        actor.prepare_step(alloc, script, k, way, entry)?;
        entry.ticket = ticket;
        actor.record_step(ticket);
        Ok(())
    }

    /// The turn of a task that can take one, and that meets a node.
    #[inline(never)]
    fn visit(
        &mut self,
        alloc: Global,
        script: &Script,
        ticket: u64,
        k: u32,
        act: Act,
        target: Target,
        onward: Onward,
        entry: &mut Entry,
    ) -> Result<(), StepFault>
        requires sound { IsSound (configuration_of script.now self.old) }
        requires plans { PlansVisit script.now self.old.longest (task_in self.old k) act
            (number_of (target_of target)) onward }
        requires can { IsTrue (can (configuration_of script.now self.old) k) }
        requires later { IsLaterThanLogs self.old ticket }
        ensures ok { OnOk result (Steps (configuration_of script.now self.old)
            (configuration_of script.now self.new) k ticket entry.new) }
        ensures logs { OnOk result (Appends self.old self.new entry.new) }
        ensures fault { IfErr result (Stays (configuration_of script.now self.old) k) }
        ensures err { OnErr result (configuration_of script.now self.new
            ≡ configuration_of script.now self.old) }
        ensures kept { OnErr result (HasSameLogs self.old self.new) }
    {
        let n = target.number();
        drop(target);
        let (actor, met) = pair_mut(&mut self.holders, k as usize, n as usize);
        let child = actor.prepare_meeting(alloc, script, k, met, n, act, onward, entry)?;
        entry.ticket = ticket;
        let_go(actor.record(ticket));
        let_go(met.record_met(ticket, child));
        Ok(())
    }

    /// The turn of a task that is planned in full.
    #[inline(never)]
    fn full(
        &mut self,
        alloc: Global,
        script: &Script,
        ticket: u64,
        k: u32,
        full: Full,
        entry: &mut Entry,
    ) -> Result<(), StepFault>
        requires sound { IsSound (configuration_of script.now self.old) }
        requires plans { PlansFull script.now self.old.longest (task_in self.old k) full }
        requires later { IsLaterThanLogs self.old ticket }
        ensures ok { OnOk result (Steps (configuration_of script.now self.old)
            (configuration_of script.now self.new) k ticket entry.new) }
        ensures logs { OnOk result (Appends self.old self.new entry.new) }
        ensures fault { IfErr result (Stays (configuration_of script.now self.old) k) }
        ensures err { OnErr result (configuration_of script.now self.new
            ≡ configuration_of script.now self.old) }
        ensures kept { OnErr result (HasSameLogs self.old self.new) }
    {
        let Some(task) = self.task(k) else {
            unreachable!()
        };
        if !self.can_go_on(task, task.status(script)) {
            return Err(StepFault::Still(k));
        }
        match task.planned(alloc, script, self.longest, full) {
            Err(NoMemory) => Err(StepFault::NoMemory),
            Ok(Turn::Step(onward)) => {
                self.own_step(alloc, script, ticket, k, Way::On(onward), entry)
            }
            Ok(Turn::Own(act, reply, onward)) => {
                self.own(alloc, script, ticket, k, act, reply, Way::On(onward), entry)
            }
            Ok(Turn::Visit(act, target, onward)) => {
                self.visit(alloc, script, ticket, k, act, target, onward, entry)
            }
        }
    }

    /// Takes one small step: the turn of task `k`, whose entry has this ticket, which is greater
    /// than all in the logs. The entry comes last in the log of each node that it shows. The
    /// configuration stays sound. After a refusal it is as before.
    pub fn step(
        &mut self,
        alloc: Global,
        script: &Script,
        k: u32,
        ticket: u64,
    ) -> Result<Entry, StepFault>
        requires sound { IsSound (configuration_of script.now self.old) }
        requires later { IsLaterThanLogs self.old ticket }
        ensures ok { IfOk result (Steps (configuration_of script.now self.old)
            (configuration_of script.now self.new) k ticket) }
        ensures logs { IfOk result (Appends self.old self.new) }
        ensures sound { OnOk result (IsSound (configuration_of script.now self.new)) }
        ensures fault { IfErr result (Stays (configuration_of script.now self.old) k) }
        ensures err { OnErr result (configuration_of script.now self.new
            ≡ configuration_of script.now self.old) }
        ensures kept { OnErr result (HasSameLogs self.old self.new) }
    {
        let mut entry = blank_entry(alloc)?;
        match self.take(alloc, script, k, ticket, &mut entry) {
            Ok(()) => Ok(entry),
            Err(fault) => {
                drop(entry);
                Err(fault)
            }
        }
    }

    /// Takes one small step as `step` does, into an entry that it is lent.
    pub fn take(
        &mut self,
        alloc: Global,
        script: &Script,
        k: u32,
        ticket: u64,
        entry: &mut Entry,
    ) -> Result<(), StepFault>
        requires sound { IsSound (configuration_of script.now self.old) }
        requires later { IsLaterThanLogs self.old ticket }
        ensures ok { OnOk result (Steps (configuration_of script.now self.old)
            (configuration_of script.now self.new) k ticket entry.new) }
        ensures logs { OnOk result (Appends self.old self.new entry.new) }
        ensures sound { OnOk result (IsSound (configuration_of script.now self.new)) }
        ensures fault { IfErr result (Stays (configuration_of script.now self.old) k) }
        ensures err { OnErr result (configuration_of script.now self.new
            ≡ configuration_of script.now self.old) }
        ensures kept { OnErr result (HasSameLogs self.old self.new) }
    {
        let Some(task) = self.task(k) else {
            return Err(StepFault::Still(k));
        };
        match task.plan(script) {
            Plan::Over => Err(StepFault::Still(k)),
            Plan::Short(short) => self.short_step(alloc, script, ticket, k, short, entry),
            Plan::Ends(ending) => {
                let act = task.last_act(alloc, script, ending)?;
                self.own(alloc, script, ticket, k, act, Reply::Done, Way::End, entry)
            }
            Plan::Full(full) => self.full(alloc, script, ticket, k, full, entry),
        }
    }
}
