//! The run of an order in rounds as a future, and the view of its observer as a stream.

ghost use Rattle.std.specs.Prelude.{◌≡◌, IfOk};
ghost use Rattle.lio_events.specs.Views.{view as view_of};
ghost use Rattle.lio_calculus_runs.specs.WellFormed.{IsWellFormed};
ghost use Rattle.lio_start.specs.Job.{IsJob, first_of};
ghost use Rattle.lio_rounds.specs.MachineParts.{machine_of};
ghost use Rattle.lio_rounds.specs.Runs.{RunsRounds, ran_of};
ghost use Rattle.lio_host_main.specs.Order.{seen_by};
ghost use Rattle.lio_async_rounds.specs.Laws.{IsFresh};

use futures::TryStreamExt;
use futures::executor::block_on;
use lio_async_rounds::{RoundsFuture, ViewStream};
use lio_clauses::NoMemory;
use lio_events::{Journal, view};
use lio_host_main::begin;
use lio_labels::Label;
use lio_rounds::{Machine, Ran};
use lio_start::Job;
use std::alloc::{AllocGlobal, Global};
use std::random::RandomSource;
use std::sync::Wait;

/// The machine of a job that has taken no turn.
pub fn first_machine(alloc: Global, job: &Job) -> Result<Machine, NoMemory>
    ensures fresh { IfOk result (λ machine. IsFresh (machine_of machine)) }
    ensures first { IfOk result (λ machine. (machine_of machine).configuration ≡ first_of job.now) }
    ensures script { IfOk result (λ machine. machine.script ≡ job.now.script) }
    ensures well_formed { IfOk result (λ machine. IsWellFormed (first_of job.now)) }
    ensures job { IsJob job.now }
{
    let script = job.script().copy(alloc)?;
    let config = begin(alloc, job)?;
    Machine::new(alloc, config, script)
}

/// What a machine has run.
fn finished(machine: Machine) -> Ran
    ensures journal { result.journal ≡ (machine_of machine).entries }
    ensures last { (ran_of machine.script result).last ≡ (machine_of machine).configuration }
    ensures well_formed { IsWellFormed (machine_of machine).configuration }
{
    let (journal, config) = machine.finish();
    Ran { journal, config }
}

/// Runs a job by rounds from its first configuration, without a future.
fn run_alone(alloc: Global, job: &Job) -> Result<Ran, NoMemory>
    ensures { IfOk result (λ ran. RunsRounds (first_of job.now) (ran_of job.now.script ran)) }
{
    let mut machine = first_machine(alloc, job)?;
    machine.run(alloc)?;
    Ok(finished(machine))
}

/// Runs a job by rounds from its first configuration, until no task can take a turn, as a future;
/// where that can't be run, the rounds are run again without one.
pub(crate) fn run_polled<R: Wait + RandomSource + AllocGlobal>(
    rt: &R,
    alloc: Global,
    job: &Job,
) -> Result<Ran, NoMemory>
    ensures rounds { IfOk result
        (λ ran. RunsRounds (first_of job.now) (ran_of job.now.script ran)) }
    ensures job { IsJob job.now }
{
    let machine = first_machine(alloc, job)?;
    match block_on(rt, RoundsFuture::new(alloc, machine)) {
        Ok(output) => Ok(finished(output?)),
        Err(_) => run_alone(alloc, job),
    }
}

/// What an observer sees of the rounds of a job, as a stream; where that can't be run, what it sees
/// of their journal.
fn view_polled<R: Wait + RandomSource + AllocGlobal>(
    rt: &R,
    alloc: Global,
    job: &Job,
    observer: &Label,
    ran: &Ran,
) -> Result<Journal, NoMemory>
    requires { RunsRounds (first_of job.now) (ran_of job.now.script ran.now) }
    ensures { IfOk result (λ seen. seen ≡ view_of observer.now 0 ran.now.journal) }
{
    let machine = first_machine(alloc, job)?;
    let stream = ViewStream::new(alloc, machine, observer.copy(alloc)?);
    match block_on(rt, stream.try_collect(alloc)) {
        Ok(entries) => Ok(Journal::of(entries?)),
        Err(_) => view(alloc, &ran.journal, observer),
    }
}

/// What an observer sees of the rounds of a job, where there is one.
pub(crate) fn seen_polled<R: Wait + RandomSource + AllocGlobal>(
    rt: &R,
    alloc: Global,
    job: &Job,
    observer: &Option<Label>,
    ran: &Ran,
) -> Result<Journal, NoMemory>
    requires { RunsRounds (first_of job.now) (ran_of job.now.script ran.now) }
    ensures { IfOk result (λ seen. seen ≡ seen_by observer.now ran.now.journal) }
{
    match observer {
        Some(observer) => view_polled(rt, alloc, job, observer, ran),
        None => Ok(Journal::new(alloc)),
    }
}
