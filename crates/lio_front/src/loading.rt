//! Loading: the policy, the observer's label and the script.

ghost use Rattle.std.specs.Prelude.{◌≡◌, ◌≤◌, ◌⊎◌, Ok, Err, IfOk, IfErr, None};
ghost use Rattle.std.specs.Option.{option_map};
ghost use Rattle.lio_syntax.specs.Verdict.{IsOver};
ghost use Rattle.lio_start.specs.Fits as start;
ghost use Rattle.lio_outside.specs.Asking.{Give};
ghost use Rattle.lio_outside.specs.Fetch.{IsGiven};
ghost use Rattle.lio_front.specs.Status.{Says};
ghost use Rattle.lio_front.specs.Loading.{loading, most_policy_bytes, most_script_bytes};
ghost use Rattle.lio_front.specs.Loading.{observer_from, policy_steps};
ghost use Rattle.lio_front.specs.Loading.{script_steps, steps_under};
ghost use Rattle.lio_front.specs.Texts.{AreFetched, AreTexts};
ghost use Rattle.lio_outside.specs.Steps.{asked};
ghost use Rattle.lio_front.specs.declared.status.Status.TheVariants.{Missing as missing};

use crate::status::Status;
use crate::texts::Texts;
use lio_clauses::{Names, beside};
use lio_labels::Label;
use lio_outside::{FetchFault, Store};
use lio_policy::{Policy, read_policy};
use lio_start::fits;
use lio_syntax::{Script, read_script};
use lio_values::Text;
use std::alloc::Global;

/// The most bytes of a policy.
pub const MOST_POLICY_BYTES: u32 = 1_048_576;

/// The most bytes of a script.
pub const MOST_SCRIPT_BYTES: u32 = 262_144;

/// A policy, a script that fits it, and the label of an observer, where one was asked for.
#[derive(Drop)]
pub struct Front {
    pub policy: Policy,
    pub script: Script,
    pub observer: Option<Label>,
}

/// Fetches a file, and names it where it can't be had. The store's files stay.
pub fn fetch<S: Store>(
    alloc: Global,
    store: &mut S,
    name: &[u8],
    limit: u32,
) -> Result<Vec<u8>, Status>
    ensures files { S.holds store.new ≡ S.holds store.old }
    ensures count { (S.faults store.old).count ≤ (S.faults store.new).count }
    ensures ok { IfOk result (λ bytes. Give (S.holds store.old)
        (asked (missing name.now) name.now limit) (Ok bytes.items)) }
    ensures given { IfOk result (λ bytes. IsGiven (S.holds store.old) name.now limit bytes.items) }
    ensures err { IfErr result (Says (S.holds store.old) (asked (missing name.now) name.now limit)
        (S.faults store.old) (S.faults store.new)) }
{
    match store.fetch(alloc, name, limit) {
        Ok(bytes) => Ok(bytes),
        Err(FetchFault::Missing) => Err(Status::Missing(Text::of(alloc, name)?)),
        Err(FetchFault::Failed) => Err(Status::ReadFault(Text::of(alloc, name)?)),
        Err(FetchFault::NoMemory) => Err(Status::NoMemory),
    }
}

/// Fetches and reads the policy, and hands back its bytes. The store's files stay.
pub fn load_policy<S: Store>(
    alloc: Global,
    store: &mut S,
    policy: &[u8],
    texts: &mut Texts,
) -> Result<Policy, Status>
    ensures files { S.holds store.new ≡ S.holds store.old }
    ensures count { (S.faults store.old).count ≤ (S.faults store.new).count }
    ensures ok { IfOk result (λ read. Give (S.holds store.old) (policy_steps policy.now)
        (Ok read)) }
    ensures err { IfErr result (Says (S.holds store.old) (policy_steps policy.now)
        (S.faults store.old) (S.faults store.new)) }
    ensures text { AreFetched (S.holds store.old) policy.now most_policy_bytes texts.old.policy
        → AreFetched (S.holds store.old) policy.now most_policy_bytes texts.new.policy }
    ensures other { texts.new.script ≡ texts.old.script }
{
    let text = fetch(alloc, store, policy, MOST_POLICY_BYTES)?;
    let read = read_policy(alloc, text.as_slice());
    texts.policy = Some(text);
    Ok(read?)
}

/// Reads the label of an observer, where its text is there, over the names of principals.
fn read_observer(
    alloc: Global,
    names: &Names,
    label: Option<&[u8]>,
) -> Result<Option<Label>, Status>
    ensures ok { IfOk result (λ observer.
        observer_from names.now (option_map (λ text. text.now) label.entry) ≡ Ok observer) }
    ensures err { IfErr result (λ fault. (fault ≡ Status.NoMemory)
        ⊎ (observer_from names.now (option_map (λ text. text.now) label.entry) ≡ Err fault)) }
{
    match label {
        None => Ok(None),
        Some(text) => Ok(Some(Label::read(alloc, text, names)?)),
    }
}

/// Fetches and reads the script, hands back its bytes, and sees that each task of the policy can
/// begin in it. The store's files stay.
fn load_script<S: Store>(
    alloc: Global,
    store: &mut S,
    policy: &Policy,
    script: &[u8],
    texts: &mut Texts,
) -> Result<Script, Status>
    ensures files { S.holds store.new ≡ S.holds store.old }
    ensures count { (S.faults store.old).count ≤ (S.faults store.new).count }
    ensures ok { IfOk result (λ procedures. Give (S.holds store.old)
        (script_steps policy.now script.now) (Ok procedures)) }
    ensures fits { IfOk result (λ procedures. start.fits policy.now.tasks procedures ≡ None) }
    ensures over { IfOk result (λ procedures. IsOver policy.now.names procedures) }
    ensures err { IfErr result (Says (S.holds store.old) (script_steps policy.now script.now)
        (S.faults store.old) (S.faults store.new)) }
    ensures text { AreFetched (S.holds store.old) script.now most_script_bytes texts.old.script
        → AreFetched (S.holds store.old) script.now most_script_bytes texts.new.script }
    ensures other { texts.new.policy ≡ texts.old.policy }
{
    let text = fetch(alloc, store, script, MOST_SCRIPT_BYTES)?;
    let read = read_script(alloc, text.as_slice(), &policy.names);
    texts.script = Some(text);
    let script = read?;
    match fits(policy, &script) {
        None => Ok(script),
        Some(fault) => Err(Status::from(fault)),
    }
}

/// Reads the observer's label, where its text is there, and then fetches and reads the script, both
/// over the policy. The store's files stay.
fn load_under<S: Store>(
    alloc: Global,
    store: &mut S,
    policy: &Policy,
    script: &[u8],
    label: Option<&[u8]>,
    texts: &mut Texts,
) -> Result<(Option<Label>, Script), Status>
    ensures files { S.holds store.new ≡ S.holds store.old }
    ensures count { (S.faults store.old).count ≤ (S.faults store.new).count }
    ensures ok { IfOk result (λ read. Give (S.holds store.old)
        (steps_under policy.now script.now (option_map (λ text. text.now) label.entry)) (Ok read)) }
    ensures fits { IfOk result (λ read. start.fits policy.now.tasks read.1 ≡ None) }
    ensures over { IfOk result (λ read. IsOver policy.now.names read.1) }
    ensures err { IfErr result (Says (S.holds store.old)
        (steps_under policy.now script.now (option_map (λ text. text.now) label.entry))
        (S.faults store.old) (S.faults store.new)) }
    ensures text { AreFetched (S.holds store.old) script.now most_script_bytes texts.old.script
        → AreFetched (S.holds store.old) script.now most_script_bytes texts.new.script }
    ensures other { texts.new.policy ≡ texts.old.policy }
{
    let observer = read_observer(alloc, &policy.names, label)?;
    beside(observer, load_script(alloc, store, policy, script, texts))
}

/// Fetches and reads the policy, reads the observer's label over its principals, where one is asked
/// for, and fetches and reads the script, in which each task of the policy can begin. The bytes
/// that were fetched are handed back, whatever the answer. The store's files stay.
pub fn load<S: Store>(
    alloc: Global,
    store: &mut S,
    policy: &[u8],
    script: &[u8],
    label: Option<&[u8]>,
    texts: &mut Texts,
) -> Result<Front, Status>
    ensures files { S.holds store.new ≡ S.holds store.old }
    ensures count { (S.faults store.old).count ≤ (S.faults store.new).count }
    ensures ok { IfOk result (λ front. Give (S.holds store.old)
        (loading policy.now script.now (option_map (λ text. text.now) label.entry)) (Ok front)) }
    ensures fits { IfOk result (λ front. start.fits front.policy.tasks front.script ≡ None) }
    ensures over { IfOk result (λ front. IsOver front.policy.names front.script) }
    ensures err { IfErr result (Says (S.holds store.old)
        (loading policy.now script.now (option_map (λ text. text.now) label.entry))
        (S.faults store.old) (S.faults store.new)) }
    ensures texts { AreTexts (S.holds store.old) policy.now script.now texts.old
        → AreTexts (S.holds store.old) policy.now script.now texts.new }
{
    let policy = load_policy(alloc, store, policy, texts)?;
    match load_under(alloc, store, &policy, script, label, texts) {
        Ok((observer, script)) => Ok(Front {
            policy,
            script,
            observer,
        }),
        Err(fault) => {
            drop(policy);
            Err(fault)
        }
    }
}
