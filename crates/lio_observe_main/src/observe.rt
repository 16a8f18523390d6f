//! The observer's call: words, policy, label, script, inputs, view, check.

ghost use Rattle.std.specs.Prelude.{◌≡◌, ◌≤◌, None, IfOk, IfErr, IfSome, OnOk};
ghost use Rattle.lio_outside.specs.Call.{outside};
ghost use Rattle.lio_outside.specs.Said.{said_with};
ghost use Rattle.lio_front.specs.Sorted.{bytes_of_words};
ghost use Rattle.lio_observe_main.specs.Answers.{Accepts, Completes, Follows, IsRefused, IsUnsaid};
ghost use Rattle.lio_observe_main.specs.Answers.{Says, view_text};
ghost use Rattle.lio_observe_main.specs.Words.{command_of};

use crate::ObserveStatus;
use crate::checking::check_claim;
use crate::claim::{Claim, load_claim};
use crate::words::read_words;
use lio_clauses::{NoMemory, assign};
use lio_front::Texts;
use lio_outside::{Say, Store};
use lio_values::print_number;
use std::alloc::Global;

/// What an observer's call read.
#[derive(Drop)]
pub struct Read {
    /// The bytes of the policy and of the script, as far as they were read.
    pub texts: Texts,
    /// What was checked, where all of it was read.
    pub claim: Option<Claim>,
}

/// How an observer's call ended, and what it read.
#[derive(Drop)]
pub struct Observed {
    /// The answer.
    pub status: ObserveStatus,
    /// What was read for it.
    pub read: Read,
}

/// Checks the view that the words name, and gives the number of its lines. The store's files stay.
fn check_words<S: Store>(
    alloc: Global,
    words: &[String],
    store: &mut S,
    read: &mut Read,
) -> Result<u32, ObserveStatus>
    ensures files { S.holds store.new ≡ S.holds store.old }
    ensures count { (S.faults store.old).count ≤ (S.faults store.new).count }
    ensures ok { IfOk result (Accepts (S.holds store.old) (bytes_of_words words.now)) }
    ensures err { IfErr result (IsRefused (S.holds store.old) (bytes_of_words words.now)
        (S.faults store.old) (S.faults store.new)) }
{
    let Some(command) = read_words(words) else {
        return Err(ObserveStatus::BadWords);
    };
    let claim = load_claim(alloc, store, command, &mut read.texts)?;
    let lines = check_claim(alloc, &claim);
    assign(&mut read.claim, Some(claim));
    lines
}

/// What is said of a view of so many lines.
fn print_lines(alloc: Global, lines: u32) -> Result<Vec<u8>, NoMemory>
    ensures { IfOk result (λ text. text.items ≡ view_text lines) }
{
    let mut text = Vec::new(alloc);
    text.extend_from_slice(b"view ok ")?;
    print_number(&mut text, u64::from(lines))?;
    text.push(b'\n')?;
    Ok(text)
}

/// Says how many lines a view has.
fn say_lines<W: Say>(alloc: Global, say: &mut W, lines: u32) -> Result<(), ObserveStatus>
    ensures count { W.faults say.old ≤ W.faults say.new }
    ensures ok { OnOk result (W.said say.new ≡ said_with (W.said say.old) (view_text lines)) }
    ensures err { IfErr result (IsUnsaid (W.said say.old) (W.said say.new)
        (W.faults say.old) (W.faults say.new) lines) }
{
    let text = print_lines(alloc, lines)?;
    say.say(alloc, text.as_slice())?;
    Ok(())
}

/// What `observe_read` answers.
fn answer<S: Store, W: Say>(alloc: Global, words: &[String], store: &mut S, say: &mut W) -> Observed
    ensures files { S.holds store.new ≡ S.holds store.old }
    ensures count { (S.faults store.old).count ≤ (S.faults store.new).count }
    ensures say_count { W.faults say.old ≤ W.faults say.new }
    ensures says { Says (record {
      words = bytes_of_words words.now;
      before = outside S.holds S.faults W.said W.faults store.old say.old;
      after = outside S.holds S.faults W.said W.faults store.new say.new;
    }) result.status }
{
    let mut read = Read {
        texts: Texts::none(),
        claim: None,
    };
    let lines = match check_words(alloc, words, store, &mut read) {
        Ok(lines) => lines,
        Err(status) => return Observed { status, read },
    };
    match say_lines(alloc, say, lines) {
        Ok(()) => Observed {
            status: ObserveStatus::Done,
            read,
        },
        Err(status) => Observed { status, read },
    }
}

/// Does what `observe_main` does, and hands back what was read for it. The store's files stay.
pub fn observe_read<S: Store, W: Say>(
    alloc: Global,
    words: &[String],
    store: &mut S,
    say: &mut W,
) -> Observed
    ensures files { S.holds store.new ≡ S.holds store.old }
    ensures count { (S.faults store.old).count ≤ (S.faults store.new).count }
    ensures say_count { W.faults say.old ≤ W.faults say.new }
    ensures says { Says (record {
      words = bytes_of_words words.now;
      before = outside S.holds S.faults W.said W.faults store.old say.old;
      after = outside S.holds S.faults W.said W.faults store.new say.new;
    }) result.status }
    ensures follows { IfSome (S.holds store.old) (Follows (record {
      words = bytes_of_words words.now;
      before = outside S.holds S.faults W.said W.faults store.old say.old;
      after = outside S.holds S.faults W.said W.faults store.new say.new;
    }) result.status) }
    ensures completes { IfSome (S.holds store.old) (Completes (record {
      words = bytes_of_words words.now;
      before = outside S.holds S.faults W.said W.faults store.old say.old;
      after = outside S.holds S.faults W.said W.faults store.new say.new;
    }) result.status) }
    ensures bad_words { command_of (bytes_of_words words.now) ≡ None
        → result.status ≡ ObserveStatus.BadWords }
{
    answer(alloc, words, store, say)
}

/// Checks that the bytes of a file are what an observer sees of a complete run, by the policy, the
/// script and the inputs that the observer sees, and says how many lines they have. The store's
/// files stay.
pub fn observe_main<S: Store, W: Say>(
    alloc: Global,
    words: &[String],
    store: &mut S,
    say: &mut W,
) -> ObserveStatus
    ensures files { S.holds store.new ≡ S.holds store.old }
    ensures count { (S.faults store.old).count ≤ (S.faults store.new).count }
    ensures say_count { W.faults say.old ≤ W.faults say.new }
    ensures says { Says (record {
      words = bytes_of_words words.now;
      before = outside S.holds S.faults W.said W.faults store.old say.old;
      after = outside S.holds S.faults W.said W.faults store.new say.new;
    }) result }
    ensures follows { IfSome (S.holds store.old) (Follows (record {
      words = bytes_of_words words.now;
      before = outside S.holds S.faults W.said W.faults store.old say.old;
      after = outside S.holds S.faults W.said W.faults store.new say.new;
    }) result) }
    ensures completes { IfSome (S.holds store.old) (Completes (record {
      words = bytes_of_words words.now;
      before = outside S.holds S.faults W.said W.faults store.old say.old;
      after = outside S.holds S.faults W.said W.faults store.new say.new;
    }) result) }
    ensures bad_words { command_of (bytes_of_words words.now) ≡ None
        → result ≡ ObserveStatus.BadWords }
{
    let Observed { status, .. } = observe_read(alloc, words, store, say);
    status
}
