//! What is told of each question.

ghost use Rattle.std.specs.Prelude.{◌≡◌, ◌≤◌, IfOk, IfErr};
ghost use Rattle.lio_front.specs.Loading.{most_policy_bytes};
ghost use Rattle.lio_front.specs.Texts.{AreFetched, AreTexts};
ghost use Rattle.lio_ask_main.specs.Answers.{IsAnswered, IsRefused};
ghost use Rattle.lio_ask_main.specs.Past.{StopsThePast, past_of};
ghost use Rattle.lio_ask_main.specs.Telling.{TellsCounts, TellsLines};
ghost use Rattle.lio_ask_main.specs.Words.{Check, Explain, Table};

use crate::explain::{explain_text, table_text};
use crate::past::{Past, take_again};
use crate::print::{print_check, print_counts, print_turns};
use crate::standing::standing;
use crate::troubles::{are_some, failed_count, waiting_count};
use lio_front::{Status, Texts, load, load_policy};
use lio_outside::Store;
use std::alloc::Global;

/// What is said of a question, and whether it tells of a task that failed or waits for ever.
#[derive(Drop)]
pub(crate) struct Told {
    pub text: Vec<u8>,
    pub troubled: bool,
}

/// Tells what a policy lets flow, as a text. The store's files stay.
pub(crate) fn tell_explain<S: Store>(
    alloc: Global,
    store: &mut S,
    policy: &[u8],
    texts: &mut Texts,
) -> Result<Told, Status>
    ensures files { S.holds store.new ≡ S.holds store.old }
    ensures count { (S.faults store.old).count ≤ (S.faults store.new).count }
    ensures ok { IfOk result (λ told. IsAnswered (S.holds store.old) (Explain policy.now)
        told.text.items told.troubled) }
    ensures err { IfErr result (IsRefused (S.holds store.old) (Explain policy.now)
        (S.faults store.old) (S.faults store.new)) }
    ensures text { AreFetched (S.holds store.old) policy.now most_policy_bytes texts.old.policy
        → AreFetched (S.holds store.old) policy.now most_policy_bytes texts.new.policy }
{
    let read = load_policy(alloc, store, policy, texts)?;
    let text = explain_text(alloc, &read)?;
    Ok(Told {
        text,
        troubled: false,
    })
}

/// Tells what a policy lets flow, as a table for programs. The store's files stay.
pub(crate) fn tell_table<S: Store>(
    alloc: Global,
    store: &mut S,
    policy: &[u8],
    texts: &mut Texts,
) -> Result<Told, Status>
    ensures files { S.holds store.new ≡ S.holds store.old }
    ensures count { (S.faults store.old).count ≤ (S.faults store.new).count }
    ensures ok { IfOk result (λ told. IsAnswered (S.holds store.old) (Table policy.now)
        told.text.items told.troubled) }
    ensures err { IfErr result (IsRefused (S.holds store.old) (Table policy.now)
        (S.faults store.old) (S.faults store.new)) }
    ensures text { AreFetched (S.holds store.old) policy.now most_policy_bytes texts.old.policy
        → AreFetched (S.holds store.old) policy.now most_policy_bytes texts.new.policy }
{
    let read = load_policy(alloc, store, policy, texts)?;
    let text = table_text(alloc, &read)?;
    Ok(Told {
        text,
        troubled: false,
    })
}

/// Tells that a script fits a policy, if it does. The store's files stay.
pub(crate) fn tell_check<S: Store>(
    alloc: Global,
    store: &mut S,
    policy: &[u8],
    script: &[u8],
    texts: &mut Texts,
) -> Result<Told, Status>
    ensures files { S.holds store.new ≡ S.holds store.old }
    ensures count { (S.faults store.old).count ≤ (S.faults store.new).count }
    ensures ok { IfOk result (λ told. IsAnswered (S.holds store.old)
        (Check policy.now script.now) told.text.items told.troubled) }
    ensures err { IfErr result (IsRefused (S.holds store.old) (Check policy.now script.now)
        (S.faults store.old) (S.faults store.new)) }
    ensures texts { AreTexts (S.holds store.old) policy.now script.now texts.old
        → AreTexts (S.holds store.old) policy.now script.now texts.new }
{
    let front = load(alloc, store, policy, script, None, texts)?;
    let _ = &front;
    let text = print_check(alloc)?;
    Ok(Told {
        text,
        troubled: false,
    })
}

/// Tells what became of the run that a history tells, if it is that of one.
pub(crate) fn tell_audit(alloc: Global, past: &Past) -> Result<Told, Status>
    ensures ok { IfOk result (λ told.
        TellsCounts (past_of past.now) told.text.items told.troubled) }
    ensures err { IfErr result (StopsThePast (past_of past.now)) }
{
    let (journal, config) = take_again(alloc, past)?;
    let failed = failed_count(&config);
    let waiting = waiting_count(&config);
    let text = print_counts(alloc, journal.entries().len(), failed, waiting)?;
    let troubled = are_some(failed, waiting);
    Ok(Told { text, troubled })
}

/// Tells for each turn of the run that a history tells, if it is that of one, at which line of this
/// text of the script its task stood.
pub(crate) fn tell_lines(alloc: Global, past: &Past, text: &[u8]) -> Result<Told, Status>
    ensures ok { IfOk result (λ told.
        TellsLines (past_of past.now) told.text.items told.troubled) }
    ensures err { IfErr result (StopsThePast (past_of past.now)) }
{
    let (journal, config) = take_again(alloc, past)?;
    let _ = &config;
    let numbers = standing(alloc, past, text, &journal)?;
    let text = print_turns(alloc, &journal, numbers.as_slice())?;
    Ok(Told {
        text,
        troubled: false,
    })
}
