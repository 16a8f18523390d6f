//! What an observer holds before it checks: the configuration as it sees it where a run begins.
ghost use Rattle.std.specs.Prelude.{◌≡◌, None, IfOk, List as list_of, length, map, ℕ};
ghost use Rattle.lio_syntax.specs.Verdict.{IsOver};
ghost use Rattle.lio_calculus.specs.Erased.{erase};
ghost use Rattle.lio_calculus_runs.specs.Configuration.{NamesOnly};
ghost use Rattle.lio_erasure.specs.Low.{IsSeenOfSound, LeavesOutBlanks, low_configuration_of};
ghost use Rattle.lio_erasure.specs.LowParts.{low_of};
ghost use Rattle.lio_start.specs.Fits.{fits};
ghost use Rattle.lio_start.specs.Laws.{AreAlike};
ghost use Rattle.lio_start.specs.Start.{start_of};
ghost use Rattle.lio_audit.specs.Inputs.{AreThere, HasTexts, or_empty};

use lio_clauses::NoMemory;
use lio_erasure::{Low, LowConfig, erase_config};
use lio_labels::Label;
use lio_policy::Policy;
use lio_policy::laws::policy_keeps_rules;
use lio_start::{Job, MaybeTexts, start_over};
use lio_syntax::Script;
use lio_values::{List, Text};
use std::alloc::Global;

/// What an observer sees of the first configuration of a policy and a script that fits it, over
/// these texts. Those of the inputs whose labels don't flow to the observer's don't count: they may
/// be any.
fn seen_start(
    alloc: Global,
    policy: &Policy,
    script: &Script,
    texts: &[Text],
    observer: &Label,
) -> Result<LowConfig, NoMemory>
    requires fits { fits policy.now.tasks script.now ≡ None }
    requires over { IsOver policy.now.names script.now }
    requires each { length texts.now ≡ length policy.now.inputs }
    ensures erased { IfOk result (λ low. (others : list_of (list_of ℕ))
        → AreAlike observer.now policy.now.inputs texts.now others
        → low_configuration_of script.now policy.now.longest low
        ≡ erase observer.now (start_of policy.now script.now others)) }
    ensures seen { IfOk result (λ low. IsSeenOfSound observer.now
        (low_configuration_of script.now policy.now.longest low)) }
    ensures kept { IfOk result LeavesOutBlanks }
    ensures named { IfOk result (λ low. NamesOnly policy.now.names
        (low_configuration_of script.now policy.now.longest low)) }
{
    policy_keeps_rules(policy);
    let _ = script.lines();
    let config = start_over(alloc, policy, script, texts)?;
    erase_config(alloc, &config, observer)
}

/// What an observer sees of the first configuration of a job. The texts of the inputs whose labels
/// don't flow to the observer's don't count: they may be any, the empty ones as well.
pub fn low_start_of(alloc: Global, job: &Job, observer: &Label) -> Result<LowConfig, NoMemory>
    ensures erased { IfOk result (λ low. (texts : list_of (list_of ℕ))
        → AreAlike observer.now job.now.policy.inputs job.now.inputs texts
        → low_configuration_of job.now.script job.now.policy.longest low
        ≡ erase observer.now (start_of job.now.policy job.now.script texts)) }
    ensures seen { IfOk result (λ low. IsSeenOfSound observer.now
        (low_configuration_of job.now.script job.now.policy.longest low)) }
    ensures kept { IfOk result LeavesOutBlanks }
    ensures named { IfOk result (λ low. NamesOnly job.now.policy.names
        (low_configuration_of job.now.script job.now.policy.longest low)) }
{
    seen_start(alloc, job.policy(), job.script(), job.inputs(), observer)
}

/// A text, or the empty one where it isn't there.
fn or_empty(alloc: Global, text: &Option<Text>) -> Result<Text, NoMemory>
    ensures { IfOk result (λ given. given ≡ or_empty text.now) }
{
    match text {
        Some(text) => text.copy(alloc),
        None => Text::of(alloc, b""),
    }
}

/// The texts that are there, and empty ones for the others.
fn filled(alloc: Global, held: &[Option<Text>]) -> Result<List<Text>, NoMemory>
    ensures { IfOk result (λ texts. texts ≡ map or_empty held.now) }
{
    let mut texts = List::new(alloc);
    for text in held {
        texts.push(or_empty(alloc, text)?)?;
    }
    Ok(texts)
}

/// What an observer sees of the first configuration of a policy and a script that fits it, by the
/// texts of the inputs that it has: those whose labels flow to its own are there.
pub fn low_start(
    alloc: Global,
    policy: &Policy,
    script: &Script,
    inputs: &MaybeTexts,
    observer: &Label,
) -> Result<LowConfig, NoMemory>
    requires fits { fits policy.now.tasks script.now ≡ None }
    requires over { IsOver policy.now.names script.now }
    requires each { length inputs.now ≡ length policy.now.inputs }
    requires there { AreThere observer.now policy.now.inputs inputs.now }
    ensures erased { IfOk result (λ low. (texts : list_of (list_of ℕ))
        → HasTexts inputs.now texts
        → low_configuration_of script.now policy.now.longest low
        ≡ erase observer.now (start_of policy.now script.now texts)) }
    ensures seen { IfOk result (λ low. IsSeenOfSound observer.now
        (low_configuration_of script.now policy.now.longest low)) }
    ensures kept { IfOk result LeavesOutBlanks }
    ensures named { IfOk result (λ low. NamesOnly policy.now.names
        (low_configuration_of script.now policy.now.longest low)) }
{
    let texts = filled(alloc, inputs.as_slice())?;
    seen_start(alloc, policy, script, texts.as_slice(), observer)
}

/// The erased calculus from what an observer sees of a sound configuration.
pub(crate) fn low_from(
    alloc: Global,
    start: LowConfig,
    observer: &Label,
    script: &Script,
    longest: u32,
) -> Result<Low, NoMemory>
    requires seen { IsSeenOfSound observer.now (low_configuration_of script.now longest start) }
    requires kept { LeavesOutBlanks start }
    ensures { IfOk result (λ low. low_of low ≡ record {
      observer = observer.now;
      configuration = low_configuration_of script.now longest start;
    }) }
{
    let script = script.copy(alloc)?;
    let observer = observer.copy(alloc)?;
    Ok(Low::new(start, observer, script, longest))
}
