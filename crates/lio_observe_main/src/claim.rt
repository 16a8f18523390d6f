//! What is checked: the policy, the script, the inputs that the observer sees, and its view.

ghost use Rattle.std.specs.Prelude.{◌≡◌, ◌≤◌, Ok, IfOk, IfErr, length};
ghost use Rattle.lio_outside.specs.Asking.{Give};
ghost use Rattle.lio_front.specs.Status.{Says};
ghost use Rattle.lio_observe_main.specs.Claim.{claim_of};
ghost use Rattle.lio_observe_main.specs.Verdict.{claiming, holding};
ghost use Rattle.lio_observe_main.specs.Words.{named};

use crate::inputs::load_texts;
use crate::words::Command;
use lio_audit::MOST_HISTORY_BYTES;
use lio_front::{Front, Status, Texts, fetch, load};
use lio_labels::Label;
use lio_outside::Store;
use lio_policy::Policy;
use lio_start::Job;
use lio_values::{List, Text};
use std::alloc::Global;

/// The most bytes of a view.
const MOST_BYTES: u32 = MOST_HISTORY_BYTES as u32;

/// What an observer checks: a policy, a script that fits it, the texts of the inputs that it sees,
/// empty ones for the others, its label, and the bytes that are to be its view.
#[derive(Drop)]
pub struct Claim {
    pub job: Job,
    pub observer: Label,
    pub view: Vec<u8>,
}

/// Fetches the inputs that the observer sees, and then the view. The store's files stay.
fn load_held<S: Store>(
    alloc: Global,
    store: &mut S,
    observer: &Label,
    policy: &Policy,
    view: &[u8],
) -> Result<(List<Text>, Vec<u8>), Status>
    ensures files { S.holds store.new ≡ S.holds store.old }
    ensures count { (S.faults store.old).count ≤ (S.faults store.new).count }
    ensures ok { IfOk result (λ held. Give (S.holds store.old)
        (holding observer.now policy.now view.now) (Ok (held.0, held.1.items))) }
    ensures each { IfOk result (λ held. length held.0 ≡ length policy.now.inputs) }
    ensures err { IfErr result (Says (S.holds store.old)
        (holding observer.now policy.now view.now) (S.faults store.old) (S.faults store.new)) }
{
    let texts = load_texts(alloc, store, observer, policy)?;
    match fetch(alloc, store, view, MOST_BYTES) {
        Ok(bytes) => Ok((texts, bytes)),
        Err(fault) => {
            drop(texts);
            Err(fault)
        }
    }
}

/// Fetches and reads what a command names: the policy, the observer's label, the script, the inputs
/// that the observer sees, and its view. The bytes of the policy and of the script are handed back
/// as far as they were read, whatever the answer. The store's files stay.
pub fn load_claim<S: Store>(
    alloc: Global,
    store: &mut S,
    command: Command<'_>,
    texts: &mut Texts,
) -> Result<Claim, Status>
    ensures files { S.holds store.new ≡ S.holds store.old }
    ensures count { (S.faults store.old).count ≤ (S.faults store.new).count }
    ensures ok { IfOk result (λ claim. Give (S.holds store.old)
        (claiming (named command.entry)) (Ok (claim_of claim))) }
    ensures err { IfErr result (Says (S.holds store.old)
        (claiming (named command.entry)) (S.faults store.old) (S.faults store.new)) }
{
    let label = Some(command.label);
    let Front {
        policy,
        script,
        observer,
    } = load(alloc, store, command.policy, command.script, label, texts)?;
    let Some(observer) = observer else {
        drop(policy);
        drop(script);
        return Err(Status::BadWords);
    };
    match load_held(alloc, store, &observer, &policy, command.view) {
        Ok((texts, view)) => Ok(Claim {
            job: Job::of(policy, script, texts),
            observer,
            view,
        }),
        Err(fault) => {
            drop(policy);
            drop(script);
            drop(observer);
            Err(fault)
        }
    }
}
