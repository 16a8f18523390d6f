//! The top call: words, policy, script, inputs, run, files, summary.

ghost use Rattle.std.specs.Prelude.{◌≡◌, ◌≤◌, [], None, Some, IfSome};
ghost use Rattle.lio_front.specs.Command.{command_of};
ghost use Rattle.lio_front.specs.Sorted.{bytes_of_words};
ghost use Rattle.lio_outside.specs.Call.{outside};
ghost use Rattle.lio_host_main.specs.Answers.{Completes, Follows, Says, journal_with};
ghost use Rattle.lio_host_main.specs.Verdict.{IsJobOfVerdict};

use crate::HostStatus;
use crate::finish::finish_run;
use crate::order::{Order, Way};
use crate::prepare::prepare_order;
use crate::running::run_order;
use lio_events::Journal;
use lio_events_reading::journal_fits;
use lio_front::{Texts, read_command};
use lio_outside::{Say, Store};
use lio_rounds::Ran;
use lio_start::Job;
use lio_task::Config;
use lio_workers::Gate;
use std::alloc::Global;
use std::sync::Wait;
use std::thread::Threads;

/// How a call of the host ended, the journal of what it ran, and what that was and came to.
#[derive(Drop)]
pub struct Outcome {
    pub status: HostStatus,
    pub journal: Journal,
    /// What was run, where the answer is Done, or was to be run, where no run was made of it.
    pub job: Option<Job>,
    /// The configuration in which the run ended, where the answer is Done.
    pub config: Option<Config>,
    /// The bytes of the policy and of the script, as far as they were read.
    pub texts: Texts,
    /// The bytes of the history, where no run was made of it.
    pub history: Option<Vec<u8>>,
}

/// The outcome of a call that gives no journal.
fn refused(alloc: Global, status: HostStatus, texts: Texts) -> Outcome
    ensures status { result.status ≡ status }
    ensures journal { result.journal ≡ [] }
    ensures job { result.job ≡ None }
{
    Outcome {
        status,
        journal: Journal::new(alloc),
        job: None,
        config: None,
        texts,
        history: None,
    }
}

/// The bytes of the history that is taken again, where one is.
fn history_of(way: Way) -> Option<Vec<u8>> {
    match way {
        Way::AsTold(history) => Some(history),
        Way::InRounds | Way::ByWorkers(_) => None,
    }
}

/// The outcome of an order of which no run was made.
fn stopped(alloc: Global, status: HostStatus, order: Order<'_>, texts: Texts) -> Outcome
    ensures status { result.status ≡ status }
    ensures journal { result.journal ≡ [] }
    ensures job { result.job ≡ Some order.entry.job }
{
    let Order {
        job,
        observer,
        way,
        ..
    } = order;
    drop(observer);
    Outcome {
        status,
        journal: Journal::new(alloc),
        job: Some(job),
        config: None,
        texts,
        history: history_of(way),
    }
}

/// The outcome of a run whose files weren't all written, or whose summary wasn't said.
fn unfinished(alloc: Global, status: HostStatus, journal: Journal, texts: Texts) -> Outcome
    ensures status { result.status ≡ status }
    ensures journal { result.journal ≡ journal_with status journal }
    ensures job { result.job ≡ None }
{
    match status {
        HostStatus::NoMemory => refused(alloc, HostStatus::NoMemory, texts),
        status => Outcome {
            status,
            journal,
            job: None,
            config: None,
            texts,
            history: None,
        },
    }
}

/// What `host_main` answers.
fn answer<R: Threads + Wait + Sync, S: Store, W: Say, G: Gate + Sync>(
    rt: &R,
    alloc: Global,
    words: &[String],
    store: &mut S,
    say: &mut W,
    gate: &G,
) -> Outcome
    ensures count { (S.faults store.old).count ≤ (S.faults store.new).count }
    ensures say_count { W.faults say.old ≤ W.faults say.new }
    ensures job { IfSome result.job
        (IsJobOfVerdict (S.holds store.old) (bytes_of_words words.now)) }
    ensures says { Says (record {
      words = bytes_of_words words.now;
      before = outside S.holds S.faults W.said W.faults store.old say.old;
      after = outside S.holds S.faults W.said W.faults store.new say.new;
      journal = result.journal;
    }) result.status }
{
    let mut texts = Texts::none();
    let Some(command) = read_command(words) else {
        return refused(alloc, HostStatus::BadWords, texts);
    };
    let order = match prepare_order(alloc, store, command, &mut texts) {
        Ok(order) => order,
        Err(status) => return refused(alloc, status, texts),
    };
    let ran = match run_order(rt, alloc, &order, gate) {
        Ok(ran) => ran,
        Err(status) => return stopped(alloc, status, order, texts),
    };
    journal_fits(&ran.journal);
    let finished = finish_run(alloc, store, say, &order, &ran);
    let Order {
        job,
        observer,
        way,
        ..
    } = order;
    drop(observer);
    drop(way);
    let Ran { journal, config } = ran;
    match finished {
        Ok(()) => Outcome {
            status: HostStatus::Done,
            journal,
            job: Some(job),
            config: Some(config),
            texts,
            history: None,
        },
        Err(status) => {
            drop(config);
            drop(job);
            unfinished(alloc, status, journal, texts)
        }
    }
}

/// Does what the words ask for: runs the script under the policy, in rounds, by workers or as a
/// history tells, writes the files, and says the summary. The gate is told of each turn of a
/// worker.
pub fn host_main<R: Threads + Wait + Sync, S: Store, W: Say, G: Gate + Sync>(
    rt: &R,
    alloc: Global,
    words: &[String],
    store: &mut S,
    say: &mut W,
    gate: &G,
) -> Outcome
    ensures count { (S.faults store.old).count ≤ (S.faults store.new).count }
    ensures say_count { W.faults say.old ≤ W.faults say.new }
    ensures says { Says (record {
      words = bytes_of_words words.now;
      before = record {
        told = S.holds store.old;
        faults = S.faults store.old;
        said = W.said say.old;
        say_faults = W.faults say.old;
      };
      after = record {
        told = S.holds store.new;
        faults = S.faults store.new;
        said = W.said say.new;
        say_faults = W.faults say.new;
      };
      journal = result.journal;
    }) result.status }
    ensures follows { IfSome (S.holds store.old) (Follows (record {
      words = bytes_of_words words.now;
      before = record {
        told = S.holds store.old;
        faults = S.faults store.old;
        said = W.said say.old;
        say_faults = W.faults say.old;
      };
      after = record {
        told = S.holds store.new;
        faults = S.faults store.new;
        said = W.said say.new;
        say_faults = W.faults say.new;
      };
      journal = result.journal;
    }) result.status) }
    ensures completes { IfSome (S.holds store.old) (Completes (record {
      words = bytes_of_words words.now;
      before = outside S.holds S.faults W.said W.faults store.old say.old;
      after = outside S.holds S.faults W.said W.faults store.new say.new;
      journal = result.journal;
    }) result.status) }
    ensures bad_words { command_of (bytes_of_words words.now) ≡ None
        → result.status ≡ HostStatus.BadWords }
    ensures job { IfSome result.job
        (IsJobOfVerdict (S.holds store.old) (bytes_of_words words.now)) }
{
    answer(rt, alloc, words, store, say, gate)
}
