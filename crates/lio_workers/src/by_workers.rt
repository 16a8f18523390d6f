//! A run of a job by workers.
ghost use Rattle.std.specs.Prelude.{◌≤◌, IfOk};
ghost use Rattle.lio_start.specs.Job.{first_of};
ghost use Rattle.lio_rounds.specs.Headline.{IsRunOf};
ghost use Rattle.lio_rounds.specs.Runs.{HasItsLogs, IsMergeOfLogs, ran_of};

use crate::gate::Gate;
use crate::run::run_workers;
use lio_clauses::NoMemory;
use lio_rounds::Ran;
use lio_start::{Job, start};
use std::alloc::Global;
use std::sync::Wait;
use std::thread::Threads;

/// Runs a job by so many workers from its first configuration, until no task can take a turn. The
/// workers tell the gate of each turn that they took. The journal is the merge of the logs of all
/// nodes.
pub fn run_by_workers<R: Threads + Wait + Sync, G: Gate + Sync>(
    rt: &R,
    alloc: Global,
    job: &Job,
    count: u32,
    gate: &G,
) -> Result<Ran, NoMemory>
    requires count { (1 ≤ count) × (count ≤ 64) }
    ensures run { IfOk result (λ it. IsRunOf job.now (ran_of job.now.script it)) }
    ensures logs { IfOk result HasItsLogs }
    ensures merge { IfOk result (λ it. IsMergeOfLogs (first_of job.now)
        (ran_of job.now.script it)) }
{
    let script = job.script();
    let config = start(alloc, job)?;
    run_workers(rt, alloc, config, script, count, gate)
}
