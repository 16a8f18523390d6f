//! How the turns of an order are taken: in rounds, by workers, or as a history tells.

ghost use Rattle.std.specs.Prelude.{◌≡◌, IfErr, IfOk, MatchOption};
ghost use Rattle.lio_audit.specs.Expected.{CouldGoOn};
ghost use Rattle.lio_audit.specs.History.{IsHistoryOf, Says};
ghost use Rattle.lio_rounds.specs.Headline.{IsRunOf};
ghost use Rattle.lio_rounds.specs.Runs.{ran_of};
ghost use Rattle.lio_calculus_runs.specs.Configuration.{NamesOnly};
ghost use Rattle.lio_calculus_runs.specs.WellFormed.{IsWellFormed};
ghost use Rattle.lio_task.specs.Configuration.{configuration_of};
ghost use Rattle.lio_task.specs.Logs.{AreFresh};
ghost use Rattle.lio_start.specs.Job.{IsJob, first_of};
ghost use Rattle.lio_host_main.specs.Answers.{FlowsAs, HasNoLine, RanAs, StopsTheRun};
ghost use Rattle.lio_host_main.specs.Order.{IsCountedWay, order_of};

use crate::order::{Order, Way};
use lio_audit::{AuditFault, MOST_HISTORY_BYTES, check_journal};
use lio_clauses::NoMemory;
use lio_front::Status;
use lio_rounds::{Ran, run};
use lio_start::{Job, start};
use lio_task::Config;
use lio_workers::{Gate, run_by_workers};
use std::alloc::Global;
use std::sync::Wait;
use std::thread::Threads;

/// The configuration in which the run of a job begins.
pub fn begin(alloc: Global, job: &Job) -> Result<Config, NoMemory>
    ensures first { IfOk result (λ config. configuration_of job.now.script config
        ≡ first_of job.now) }
    ensures well_formed { IfOk result (λ config. IsWellFormed
        (configuration_of job.now.script config)) }
    ensures named { IfOk result (λ config. NamesOnly job.now.policy.names
        (configuration_of job.now.script config)) }
    ensures fresh { IfOk result AreFresh }
    ensures job { IsJob job.now }
{
    let _ = job.policy();
    start(alloc, job)
}

/// Runs a job again as its history tells.
fn replay(alloc: Global, job: &Job, history: &[u8]) -> Result<Ran, AuditFault>
    ensures run { IfOk result (λ ran. IsRunOf job.now (ran_of job.now.script ran)) }
    ensures history { IfOk result (λ ran. IsHistoryOf job.now.policy.names (first_of job.now)
        history.now (ran_of job.now.script ran)) }
    ensures err { IfErr result (Says job.now.policy.names (first_of job.now) history.now) }
{
    let config = begin(alloc, job)?;
    let script = job.script();
    let policy = job.policy();
    let (journal, config) = check_journal(alloc, config, script, history, &policy.names)?;
    Ok(Ran { journal, config })
}

/// The line with which the history of a job's run should have gone on at a line, from 1, at which
/// it stops, where that is known.
pub fn expected_line(
    alloc: Global,
    job: &Job,
    history: &[u8],
    line: u32,
) -> Result<Option<Vec<u8>>, NoMemory>
    ensures { IfOk result (λ text. MatchOption text
        (HasNoLine job.now.policy.names (first_of job.now) history.now line)
        (λ t. CouldGoOn job.now.policy.names (first_of job.now) history.now line t.items)) }
{
    if line == 0 || history.len() > MOST_HISTORY_BYTES {
        return Ok(None);
    }
    let config = begin(alloc, job)?;
    let policy = job.policy();
    lio_audit::expected_line(alloc, config, job.script(), history, line, &policy.names)
}

/// Runs the job of an order to the end.
pub(crate) fn run_order<R: Threads + Wait + Sync, G: Gate + Sync>(
    rt: &R,
    alloc: Global,
    order: &Order<'_>,
    gate: &G,
) -> Result<Ran, Status>
    requires { IsCountedWay order.now.way }
    ensures run { IfOk result (λ ran. IsRunOf order.now.job (ran_of order.now.job.script ran)) }
    ensures ran_as { IfOk result
        (λ ran. RanAs (order_of order.now) (ran_of order.now.job.script ran)) }
    ensures flows { IfOk result
        (λ ran. FlowsAs (order_of order.now) (ran_of order.now.job.script ran)) }
    ensures err { IfErr result (StopsTheRun (order_of order.now)) }
{
    match &order.way {
        Way::InRounds => Ok(run(alloc, &order.job)?),
        Way::ByWorkers(count) => Ok(run_by_workers(rt, alloc, &order.job, *count, gate)?),
        Way::AsTold(history) => match replay(alloc, &order.job, history.as_slice()) {
            Ok(ran) => Ok(ran),
            Err(AuditFault::NotARun(line)) => Err(Status::NotARun(line)),
            Err(AuditFault::NoMemory) => Err(Status::NoMemory),
        },
    }
}
