//! The first configuration of a job.
ghost use Rattle.std.specs.Prelude.{◌≡◌, None, length, IfOk};
ghost use Rattle.lio_syntax.specs.Verdict.{IsOver};
ghost use Rattle.lio_calculus_runs.specs.WellFormed.{IsWellFormed};
ghost use Rattle.lio_task.specs.Configuration.{configuration_of};
ghost use Rattle.lio_task.specs.Logs.{AreFresh};
ghost use Rattle.lio_start.specs.Fits.{fits};
ghost use Rattle.lio_start.specs.Job.{first_of};
ghost use Rattle.lio_start.specs.Start.{start_of};

use crate::holders::{add_channels, add_free, add_jobs, cells_in_all};
use crate::inputs::sealed_inputs;
use crate::job::Job;
use lio_clauses::NoMemory;
use lio_policy::Policy;
use lio_policy::laws::policy_keeps_rules;
use lio_syntax::Script;
use lio_task::Config;
use lio_values::Text;
use std::alloc::Global;

/// Makes the first configuration of a policy and a script that fits it, over a text for each of the
/// policy's inputs: the channels, then the tasks, then the numbers that the tasks own. No node has
/// served a turn.
pub fn start_over(
    alloc: Global,
    policy: &Policy,
    script: &Script,
    texts: &[Text],
) -> Result<Config, NoMemory>
    requires fits { fits policy.now.tasks script.now ≡ None }
    requires over { IsOver policy.now.names script.now }
    requires each { length texts.now ≡ length policy.now.inputs }
    ensures config { IfOk result (λ config. configuration_of script.now config
        ≡ start_of policy.now script.now texts.now) }
    ensures well_formed { IfOk result (λ config.
        IsWellFormed (configuration_of script.now config)) }
    ensures fresh { IfOk result AreFresh }
{
    policy_keeps_rules(policy);
    let _ = script.lines();
    let channels = policy.channels.as_slice();
    let tasks = policy.tasks.as_slice();
    let first = (channels.len() + tasks.len()) as u32;
    let inputs = sealed_inputs(alloc, policy.longest, policy.inputs.as_slice(), texts)?;
    let mut holders = Vec::new(alloc);
    add_channels(alloc, channels, &mut holders)?;
    add_jobs(alloc, script, &inputs, first, tasks, &mut holders)?;
    add_free(alloc, cells_in_all(tasks), &mut holders)?;
    Ok(Config {
        holders,
        longest: policy.longest,
    })
}

/// Makes the first configuration of a job. No node has served a turn.
pub fn start(alloc: Global, job: &Job) -> Result<Config, NoMemory>
    ensures config { IfOk result (λ config. configuration_of job.now.script config
        ≡ first_of job.now) }
    ensures well_formed { IfOk result (λ config.
        IsWellFormed (configuration_of job.now.script config)) }
    ensures fresh { IfOk result AreFresh }
{
    start_over(alloc, job.policy(), job.script(), job.inputs())
}
