//! Jobs: what is run.
ghost use Rattle.std.specs.Prelude.{◌≡◌, None, length};

use lio_policy::Policy;
use lio_policy::laws::policy_keeps_rules;
use lio_syntax::Script;
use lio_values::{List, Text};
use std::marker::Model;

/// The texts of a policy's inputs, as far as they are there: one place for each.
pub type MaybeTexts = List<Option<Text>>;

/// A policy, a script that fits it, and a text for each of the policy's inputs.
#[derive(Drop)]
pub struct Job {
    pub(crate) policy: Policy,
    pub(crate) script: Script,
    pub(crate) inputs: List<Text>,
}

impl Model for Job {
    ghost use Rattle.lio_start.specs.Job.{IsJob, JobParts, job_code};

    ghost Value = { JobParts };

    ghost coded = { job_code };

    ghost view = { λ job. record {
      policy = job.policy;
      script = job.script;
      inputs = job.inputs;
    } };

    ghost invariant = { λ job. IsJob (record {
      policy = job.policy;
      script = job.script;
      inputs = job.inputs;
    }) };
}

impl Job {
    ghost use Rattle.lio_syntax.specs.Verdict.{IsOver};
    ghost use Rattle.lio_start.specs.Fits.{fits};
    ghost use Rattle.lio_start.specs.Job.{IsJob};

    /// Makes a job of a policy, a script that fits it, and a text for each of the policy's inputs.
    pub fn of(policy: Policy, script: Script, inputs: List<Text>) -> Job
        requires fits { fits policy.tasks script ≡ None }
        requires over { IsOver policy.names script }
        requires each { length inputs ≡ length policy.inputs }
        ensures { result ≡ record { policy = policy; script = script; inputs = inputs } }
    {
        policy_keeps_rules(&policy);
        let _ = script.lines();
        Job {
            policy,
            script,
            inputs,
        }
    }

    /// Gives the policy.
    pub fn policy(&self) -> &Policy
        ensures policy { result.now ≡ self.now.policy }
        ensures job { IsJob self.now }
    {
        &self.policy
    }

    /// Gives the script.
    pub fn script(&self) -> &Script
        ensures script { result.now ≡ self.now.script }
        ensures job { IsJob self.now }
    {
        &self.script
    }

    /// Gives the texts of the inputs, in the policy's order.
    pub fn inputs(&self) -> &[Text]
        ensures inputs { result.now ≡ self.now.inputs }
        ensures job { IsJob self.now }
    {
        self.inputs.as_slice()
    }
}
