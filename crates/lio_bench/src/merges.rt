//! Merges of the logs of a long run, repeated.
ghost use Rattle.lio_calculus.specs.Journals.{AreMergeable};
ghost use Rattle.lio_task.specs.Logs.{log_in};

use crate::turns::{CountFault, counting_job};
use lio_clauses::NoMemory;
use lio_rounds::{merge, run};
use lio_task::Config;
use std::alloc::Global;

/// So many merges.
fn merges(alloc: Global, config: &Config, times: u32) -> Result<(), NoMemory>
    requires { AreMergeable (log_in config.now) }
{
    for _ in 0..times {
        let _merged = merge(alloc, config)?;
    }
    Ok(())
}

/// Runs a task that counts until it has no turns left, and merges the logs so many times.
pub fn merge_times(alloc: Global, times: u32) -> Result<(), CountFault> {
    let job = counting_job(alloc)?;
    let ran = run(alloc, &job)?;
    Ok(merges(alloc, &ran.config, times)?)
}
