//! The run that a history is to tell: what is read of it, and the run, taken again.

ghost use Rattle.std.specs.Prelude.{◌≡◌, ◌≤◌, Ok, IfOk, IfErr, length};
ghost use Rattle.lio_outside.specs.Asking.{Give};
ghost use Rattle.lio_front.specs.Status.{Says};
ghost use Rattle.lio_front.specs.Texts.{AreTexts};
ghost use Rattle.lio_calculus_runs.specs.Configuration.{NamesOnly};
ghost use Rattle.lio_calculus_runs.specs.WellFormed.{IsWellFormed};
ghost use Rattle.lio_task.specs.Configuration.{configuration_of};
ghost use Rattle.lio_task.specs.Logs.{AreFresh};
ghost use Rattle.lio_start.specs.Job.{first_of};
ghost use Rattle.lio_ask_main.specs.Past.{IsOf, StopsThePast, holding, past_of, recalling};
ghost use Rattle.lio_ask_main.specs.Words.{files_named};

use crate::words::Files;
use lio_audit::{AuditFault, MOST_HISTORY_BYTES, check_journal};
use lio_clauses::NoMemory;
use lio_events::Journal;
use lio_front::{Front, Status, Texts, fetch, load, load_inputs};
use lio_outside::Store;
use lio_policy::Policy;
use lio_start::{Job, start};
use lio_task::Config;
use lio_values::{List, Text};
use std::alloc::Global;

/// The most bytes of a history.
const MOST_BYTES: u32 = MOST_HISTORY_BYTES as u32;

/// A policy, a script that fits it, the texts of the policy's inputs, and the bytes that are to be
/// the history of their run.
#[derive(Drop)]
pub struct Past {
    pub job: Job,
    pub history: Vec<u8>,
}

/// Fetches the inputs, and then the history. The store's files stay.
fn load_held<S: Store>(
    alloc: Global,
    store: &mut S,
    policy: &Policy,
    history: &[u8],
) -> Result<(List<Text>, Vec<u8>), Status>
    ensures files { S.holds store.new ≡ S.holds store.old }
    ensures count { (S.faults store.old).count ≤ (S.faults store.new).count }
    ensures ok { IfOk result (λ held. Give (S.holds store.old)
        (holding policy.now history.now) (Ok (held.0, held.1.items))) }
    ensures each { IfOk result (λ held. length held.0 ≡ length policy.now.inputs) }
    ensures err { IfErr result (Says (S.holds store.old) (holding policy.now history.now)
        (S.faults store.old) (S.faults store.new)) }
{
    let inputs = load_inputs(alloc, store, policy)?;
    match fetch(alloc, store, history, MOST_BYTES) {
        Ok(bytes) => Ok((inputs, bytes)),
        Err(fault) => {
            drop(inputs);
            Err(fault)
        }
    }
}

/// Fetches and reads a policy and a script that fits it, and fetches the inputs and the history.
/// The bytes of the policy and of the script are handed back as far as they were read, whatever the
/// answer. The store's files stay.
pub fn load_past<S: Store>(
    alloc: Global,
    store: &mut S,
    files: Files<'_>,
    texts: &mut Texts,
) -> Result<Past, Status>
    ensures files { S.holds store.new ≡ S.holds store.old }
    ensures count { (S.faults store.old).count ≤ (S.faults store.new).count }
    ensures ok { IfOk result (λ past. Give (S.holds store.old)
        (recalling (files_named files.entry)) (Ok (past_of past))) }
    ensures err { IfErr result (Says (S.holds store.old) (recalling (files_named files.entry))
        (S.faults store.old) (S.faults store.new)) }
    ensures texts { AreTexts (S.holds store.old) (files_named files.entry).policy
        (files_named files.entry).script texts.old
        → AreTexts (S.holds store.old) (files_named files.entry).policy
        (files_named files.entry).script texts.new }
{
    let Front { policy, script, .. } = load(alloc, store, files.policy, files.script, None, texts)?;
    match load_held(alloc, store, &policy, files.history) {
        Ok((inputs, history)) => Ok(Past {
            job: Job::of(policy, script, inputs),
            history,
        }),
        Err(fault) => {
            drop(policy);
            drop(script);
            Err(fault)
        }
    }
}

/// The configuration in which the run of a job begins.
pub(crate) fn begin(alloc: Global, job: &Job) -> Result<Config, NoMemory>
    ensures first { IfOk result (λ config. configuration_of job.now.script config
        ≡ first_of job.now) }
    ensures well_formed { IfOk result (λ config. IsWellFormed
        (configuration_of job.now.script config)) }
    ensures named { IfOk result (λ config. NamesOnly job.now.policy.names
        (configuration_of job.now.script config)) }
    ensures fresh { IfOk result AreFresh }
{
    let _ = job.policy();
    start(alloc, job)
}

/// The journal of the run that a history tells, and the configuration in which it ended: the run is
/// taken again.
pub(crate) fn take_again(alloc: Global, past: &Past) -> Result<(Journal, Config), Status>
    ensures ok { IfOk result (λ it. IsOf (past_of past.now) (record {
      entries = it.0;
      last = configuration_of past.now.job.script it.1;
    })) }
    ensures err { IfErr result (StopsThePast (past_of past.now)) }
{
    let config = begin(alloc, &past.job)?;
    let script = past.job.script();
    let policy = past.job.policy();
    let history = past.history.as_slice();
    match check_journal(alloc, config, script, history, &policy.names) {
        Ok(taken) => Ok(taken),
        Err(AuditFault::NotARun(line)) => Err(Status::NotARun(line)),
        Err(AuditFault::NoMemory) => Err(Status::NoMemory),
    }
}
