//! Turns of a task that counts, in the calculus and in the erased calculus, repeated.
ghost use Rattle.std.specs.Prelude.{◌≡◌, IfOk};
ghost use Rattle.lio_calculus.specs.Sound.{IsSound};
ghost use Rattle.lio_task.specs.Configuration.{configuration_of};
ghost use Rattle.lio_task.specs.Logs.{AreFresh};

use lio_clauses::{NoMemory, beside};
use lio_erasure::{Low, LowFault, erase_config};
use lio_events::Contents;
use lio_labels::Label;
use lio_policy::{Policy, read_policy};
use lio_policy_draft::PolicyFault;
use lio_start::{Job, fits, start};
use lio_syntax::{Script, ScriptFault, read_script};
use lio_task::{Config, StepFault};
use lio_values::List;
use std::alloc::Global;

/// One public task with as many turns as a policy can give.
const POLICY: &[u8] =
    b"{\"version\":1,\"longest\":64,\"principals\":[],\"channels\":[],\"inputs\":[],\"tasks\":[{\"name\":\"main\",\"proc\":\"main\",\"label\":\"True %% True\",\"clearance\":\"True %% True\",\"turns\":1048576,\"cells\":0,\"args\":[]}]}";

/// It counts, and doesn't end.
const SCRIPT: &[u8] =
    b"proc main\nlet i = 0\nlet go = true\nwhile go\nlet i = i + 1\nlet go = 0 < i\nend\nend\n";

/// The number of the task.
const TASK: u32 = 0;

/// Whose turns are repeated.
#[derive(Drop)]
pub enum Side {
    /// Those of the calculus.
    Whole,
    /// Those of the erased calculus, of what everyone sees.
    Erased,
}

impl Side {
    /// The side with this name.
    pub fn of_name(name: &str) -> Option<Side> {
        match name {
            "whole" => Some(Side::Whole),
            "erased" => Some(Side::Erased),
            _ => None,
        }
    }
}

/// Why not all turns were taken.
#[derive(Debug, Drop)]
pub enum CountFault {
    Policy(PolicyFault),
    Script(ScriptFault),
    /// The script doesn't fit the policy.
    Unfit,
    Step(StepFault),
    Turn(LowFault),
    NoMemory,
}

impl From<NoMemory> for CountFault {
    ghost use Rattle.lio_bench.specs.declared.turns.CountFault.TheVariants.{NoMemory as without_memory};

    ghost from_gives = { λ _ fault. fault ≡ without_memory };

    fn from(_error: NoMemory) -> CountFault {
        CountFault::NoMemory
    }
}

/// A script, and its first configuration.
#[derive(Drop)]
struct Counting {
    script: Script,
    config: Config,
}

/// Makes the job of a policy without inputs.
fn job_of(alloc: Global, policy: Policy) -> Result<Job, CountFault> {
    let script = match read_script(alloc, SCRIPT, &policy.names) {
        Ok(script) => script,
        Err(fault) => return Err(CountFault::Script(fault)),
    };
    if fits(&policy, &script).is_some() || !policy.inputs.as_slice().is_empty() {
        return Err(CountFault::Unfit);
    }
    Ok(Job::of(policy, script, List::new(alloc)))
}

/// Gives the task before its first turn.
fn started(alloc: Global, job: &Job) -> Result<Counting, NoMemory>
    ensures sound { IfOk result
        (λ counting. IsSound (configuration_of counting.script counting.config)) }
    ensures fresh { IfOk result (λ counting. AreFresh counting.config) }
{
    let script = job.script().copy(alloc)?;
    let config = start(alloc, job)?;
    Ok(Counting { script, config })
}

/// The job of the task.
pub fn counting_job(alloc: Global) -> Result<Job, CountFault> {
    let policy = read_policy(alloc, POLICY).map_err(CountFault::Policy)?;
    job_of(alloc, policy)
}

/// Gives the task before its first turn.
fn first(alloc: Global) -> Result<Counting, CountFault>
    ensures sound { IfOk result
        (λ counting. IsSound (configuration_of counting.script counting.config)) }
    ensures fresh { IfOk result (λ counting. AreFresh counting.config) }
{
    let job = counting_job(alloc)?;
    Ok(started(alloc, &job)?)
}

/// So many turns of the task.
fn steps(alloc: Global, config: &mut Config, script: &Script, times: u32) -> Result<(), StepFault>
    requires sound { IsSound (configuration_of script.now config.old) }
    requires fresh { AreFresh config.old }
{
    for ticket in 0..times {
        let entry = config.step(alloc, script, TASK, ticket as u64)?;
        drop(entry);
    }
    Ok(())
}

/// So many turns of the calculus.
fn count_whole(alloc: Global, times: u32) -> Result<(), CountFault> {
    let Counting { script, mut config } = first(alloc)?;
    steps(alloc, &mut config, &script, times).map_err(CountFault::Step)
}

/// So many turns of the task in the erased calculus.
fn turns(alloc: Global, low: &mut Low, times: u32) -> Result<(), LowFault> {
    let mut contents = Contents::new(alloc);
    for _turn in 0..times {
        let entry = low.turn(alloc, TASK, &mut contents)?;
        drop(entry);
    }
    Ok(())
}

/// What everyone sees of a script's first configuration, which takes turns.
fn seen_by_all(alloc: Global, counting: Counting) -> Result<Low, NoMemory>
    requires { IsSound (configuration_of counting.script counting.config) }
{
    let Counting { script, config } = counting;
    let longest = config.longest;
    let (config, observer) = beside(config, Label::public(alloc))?;
    let seen = erase_config(alloc, &config, &observer)?;
    Ok(Low::new(seen, observer, script, longest))
}

/// So many turns of the erased calculus.
fn count_erased(alloc: Global, times: u32) -> Result<(), CountFault> {
    let mut low = seen_by_all(alloc, first(alloc)?)?;
    turns(alloc, &mut low, times).map_err(CountFault::Turn)
}

/// Takes so many turns.
pub fn count_times(alloc: Global, side: &Side, times: u32) -> Result<(), CountFault> {
    match side {
        Side::Whole => count_whole(alloc, times),
        Side::Erased => count_erased(alloc, times),
    }
}
