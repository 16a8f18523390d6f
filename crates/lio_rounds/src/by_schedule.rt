//! A run in an order that the caller chooses.
ghost use Rattle.std.specs.Prelude.{IfOk};
ghost use Rattle.lio_calculus_runs.specs.WellFormed.{IsWellFormed};
ghost use Rattle.lio_start.specs.Job.{IsJob};
ghost use Rattle.lio_rounds.specs.MachineParts.{machine_of};
ghost use Rattle.lio_rounds.specs.Headline.{KeepsToPolicy};
ghost use Rattle.lio_rounds.specs.Runs.{ran_of};
ghost use Rattle.lio_rounds.specs.Schedule.{HasGoneOn, IsBySchedule, TakersHaveRun};

use crate::by_rounds::Ran;
use crate::{Machine, TurnFault};
use lio_clauses::NoMemory;
use lio_start::{Job, start};
use std::alloc::Global;

/// What a run by a schedule gives: the run, and of each task of the schedule whether it took its
/// turn.
#[derive(Drop)]
pub struct Scheduled {
    pub ran: Ran,
    pub taken: Vec<bool>,
}

/// Takes the turn of a task, unless it can't take one, and answers whether it did.
fn take(alloc: Global, machine: &mut Machine, k: u32) -> Result<bool, NoMemory>
    ensures { IfOk result (HasGoneOn (machine_of machine.old) (machine_of machine.new) k) }
{
    match machine.turn(alloc, k) {
        Ok(entry) => {
            drop(entry);
            Ok(true)
        }
        Err(TurnFault::Still(_)) => Ok(false),
        Err(TurnFault::NoMemory) => Err(NoMemory),
    }
}

/// Takes the turns of the tasks of a schedule one after another, from the first configuration.
fn run_schedule(alloc: Global, job: &Job, schedule: &[u32]) -> Result<Scheduled, NoMemory>
    ensures run { IfOk result (IsBySchedule job.now schedule.now) }
    ensures well_formed { IfOk result (λ it. IsWellFormed (ran_of job.now.script it.ran).last) }
    ensures job { IsJob job.now }
{
    let script = job.script().copy(alloc)?;
    let config = start(alloc, job)?;
    let mut machine = Machine::new(alloc, config, script)?;
    let mut taken = Vec::new(alloc);
    for k in schedule {
        let moved = take(alloc, &mut machine, *k)?;
        taken.push(moved)?;
    }
    let (journal, config) = machine.finish();
    Ok(Scheduled {
        ran: Ran { journal, config },
        taken,
    })
}

/// Runs a job from its first configuration: each task of the schedule in order takes a turn, unless
/// it can't. Those who take theirs have run, and whatever the schedule is, the run keeps to the
/// policy.
pub fn run_by_schedule(alloc: Global, job: &Job, schedule: &[u32]) -> Result<Scheduled, NoMemory>
    ensures run { IfOk result (IsBySchedule job.now schedule.now) }
    ensures is_run { IfOk result (TakersHaveRun job.now schedule.now) }
    ensures keeps { IfOk result (λ it. KeepsToPolicy job.now (ran_of job.now.script it.ran)) }
    ensures well_formed { IfOk result (λ it. IsWellFormed (ran_of job.now.script it.ran).last) }
{
    run_schedule(alloc, job, schedule)
}
