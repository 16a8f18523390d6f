//! A run by rounds.
ghost use Rattle.std.specs.Prelude.{IfOk};
ghost use Rattle.lio_start.specs.Job.{IsJob, first_of};
ghost use Rattle.lio_rounds.specs.FlowLaws.{GoesByFlows};
ghost use Rattle.lio_rounds.specs.Headline.{IsRunOf};
ghost use Rattle.lio_rounds.specs.Runs.{HasItsLogs, IsByRounds, RunsRounds, ran_of};

use crate::Machine;
use lio_clauses::NoMemory;
use lio_events::Journal;
use lio_start::{Job, start};
use lio_task::Config;
use std::alloc::Global;

/// What a run gives: its journal, and the configuration after it.
#[derive(Drop)]
pub struct Ran {
    pub journal: Journal,
    pub config: Config,
}

/// Runs a job by rounds to the end.
fn run_to_the_end(alloc: Global, job: &Job) -> Result<Ran, NoMemory>
    ensures rounds { IfOk result (λ it. RunsRounds (first_of job.now) (ran_of job.now.script it)) }
    ensures job { IsJob job.now }
    ensures logs { IfOk result HasItsLogs }
{
    let script = job.script().copy(alloc)?;
    let config = start(alloc, job)?;
    let mut machine = Machine::new(alloc, config, script)?;
    machine.run(alloc)?;
    let (journal, config) = machine.finish();
    Ok(Ran { journal, config })
}

/// Runs a job by rounds from its first configuration, until no task can take a turn.
pub fn run(alloc: Global, job: &Job) -> Result<Ran, NoMemory>
    ensures run { IfOk result (λ it. IsRunOf job.now (ran_of job.now.script it)) }
    ensures rounds { IfOk result (λ it. IsByRounds (first_of job.now) (ran_of job.now.script it)) }
    ensures flows { IfOk result (λ it. GoesByFlows job.now (ran_of job.now.script it)) }
    ensures logs { IfOk result HasItsLogs }
{
    run_to_the_end(alloc, job)
}
