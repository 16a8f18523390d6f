//! The top call over futures: words, policy, script, inputs, run, view, files, summary.

ghost use Rattle.std.specs.Prelude.{◌≡◌, ◌≤◌, [], IfOk, IfSome};
ghost use Rattle.lio_front.specs.Sorted.{bytes_of_words};
ghost use Rattle.lio_outside.specs.Call.{outside};
ghost use Rattle.lio_start.specs.Job.{IsJob, first_of};
ghost use Rattle.lio_rounds.specs.Runs.{RunsRounds, ran_of};
ghost use Rattle.lio_host_main.specs.Answers.{Completes, Follows, Says, journal_with};
ghost use Rattle.lio_host_main.specs.Order.{seen_by};
ghost use Rattle.lio_async_main.specs.Answers.{GivesRounds};
ghost use Rattle.lio_async_main.specs.Words.{host_words};

use crate::CoopStatus;
use crate::running::{run_polled, seen_polled};
use crate::words::read_words;
use lio_clauses::NoMemory;
use lio_events::Journal;
use lio_events_reading::journal_fits;
use lio_front::Texts;
use lio_host_main::{Order, finish_seen, prepare_order};
use lio_labels::Label;
use lio_outside::{Say, Store};
use lio_rounds::Ran;
use lio_start::Job;
use lio_task::Config;
use std::alloc::{AllocGlobal, Global};
use std::random::RandomSource;
use std::sync::Wait;
use std::thread::Threads;

/// How a call of the host over futures ended, and the journal of what it ran.
#[derive(Drop)]
pub struct CoopOutcome {
    pub status: CoopStatus,
    pub journal: Journal,
    /// What was run, where the answer is Done. No clause speaks of it.
    pub job: Option<Job>,
    /// The last configuration of the run, where the answer is Done. No clause speaks of it.
    pub config: Option<Config>,
    /// The bytes of the policy and of the script, as far as they were read.
    pub texts: Texts,
}

/// The outcome of a call that gives no journal.
fn refused(alloc: Global, status: CoopStatus, texts: Texts) -> CoopOutcome
    ensures status { result.status ≡ status }
    ensures journal { result.journal ≡ [] }
{
    CoopOutcome {
        status,
        journal: Journal::new(alloc),
        job: None,
        config: None,
        texts,
    }
}

/// The outcome of a run whose files weren't all written, or whose summary wasn't said.
fn unfinished(alloc: Global, status: CoopStatus, journal: Journal, texts: Texts) -> CoopOutcome
    ensures status { result.status ≡ status }
    ensures journal { result.journal ≡ journal_with status journal }
{
    match status {
        CoopStatus::NoMemory => refused(alloc, CoopStatus::NoMemory, texts),
        status => CoopOutcome {
            status,
            journal,
            job: None,
            config: None,
            texts,
        },
    }
}

/// Runs a job by rounds, and gives what its observer sees of them, where there is one.
fn run_seen<R: Wait + RandomSource + AllocGlobal>(
    rt: &R,
    alloc: Global,
    job: &Job,
    observer: &Option<Label>,
) -> Result<(Ran, Journal), NoMemory>
    ensures rounds { IfOk result
        (λ both. RunsRounds (first_of job.now) (ran_of job.now.script both.0)) }
    ensures job { IfOk result (λ both. IsJob job.now) }
    ensures seen { IfOk result (λ both. both.1 ≡ seen_by observer.now both.0.journal) }
{
    let ran = run_polled(rt, alloc, job)?;
    match seen_polled(rt, alloc, job, observer, &ran) {
        Ok(seen) => Ok((ran, seen)),
        Err(NoMemory) => Err(NoMemory),
    }
}

/// Gives up what was to be run.
fn give_up(_order: Order<'_>) {}

/// What `coop_main` answers.
fn answer<R: Wait + RandomSource + AllocGlobal, S: Store, W: Say>(
    rt: &R,
    alloc: Global,
    words: &[String],
    store: &mut S,
    say: &mut W,
) -> CoopOutcome
    ensures count { (S.faults store.old).count ≤ (S.faults store.new).count }
    ensures say_count { W.faults say.old ≤ W.faults say.new }
    ensures says { Says (record {
      words = host_words (bytes_of_words words.now);
      before = outside S.holds S.faults W.said W.faults store.old say.old;
      after = outside S.holds S.faults W.said W.faults store.new say.new;
      journal = result.journal;
    }) result.status }
{
    let mut texts = Texts::none();
    let Some(command) = read_words(words) else {
        return refused(alloc, CoopStatus::BadWords, texts);
    };
    let order = match prepare_order(alloc, store, command, &mut texts) {
        Ok(order) => order,
        Err(status) => return refused(alloc, status, texts),
    };
    let (ran, seen) = match run_seen(rt, alloc, &order.job, &order.observer) {
        Ok(both) => both,
        Err(NoMemory) => {
            give_up(order);
            return refused(alloc, CoopStatus::NoMemory, texts);
        }
    };
    journal_fits(&ran.journal);
    let finished = finish_seen(alloc, store, say, &order, &ran, &seen);
    let Order {
        job,
        observer,
        way,
        ..
    } = order;
    drop(observer);
    drop(way);
    drop(seen);
    let Ran { journal, config } = ran;
    match finished {
        Ok(()) => CoopOutcome {
            status: CoopStatus::Done,
            journal,
            job: Some(job),
            config: Some(config),
            texts,
        },
        Err(status) => {
            drop(config);
            drop(job);
            unfinished(alloc, status, journal, texts)
        }
    }
}

/// Does what the words ask for: runs the script under the policy in rounds, as a future that is
/// polled by hand, writes the files, and says the summary. What is promised is what `host_main`
/// promises of the words of the host that ask for the same. It may wait, and then doesn't return.
pub fn coop_main<R, S: Store, W: Say>(
    rt: &R,
    alloc: Global,
    words: &[String],
    store: &mut S,
    say: &mut W,
) -> CoopOutcome
where
    R: Threads + Wait + Sync + RandomSource + AllocGlobal,
    ensures count { (S.faults store.old).count ≤ (S.faults store.new).count }
    ensures say_count { W.faults say.old ≤ W.faults say.new }
    ensures says { Says (record {
      words = host_words (bytes_of_words words.now);
      before = outside S.holds S.faults W.said W.faults store.old say.old;
      after = outside S.holds S.faults W.said W.faults store.new say.new;
      journal = result.journal;
    }) result.status }
    ensures follows { IfSome (S.holds store.old) (Follows (record {
      words = host_words (bytes_of_words words.now);
      before = outside S.holds S.faults W.said W.faults store.old say.old;
      after = outside S.holds S.faults W.said W.faults store.new say.new;
      journal = result.journal;
    }) result.status) }
    ensures completes { IfSome (S.holds store.old) (Completes (record {
      words = host_words (bytes_of_words words.now);
      before = outside S.holds S.faults W.said W.faults store.old say.old;
      after = outside S.holds S.faults W.said W.faults store.new say.new;
      journal = result.journal;
    }) result.status) }
    ensures rounds { GivesRounds (record {
      words = host_words (bytes_of_words words.now);
      before = outside S.holds S.faults W.said W.faults store.old say.old;
      after = outside S.holds S.faults W.said W.faults store.new say.new;
      journal = result.journal;
    }) result.status }
    ensures bad_words { host_words (bytes_of_words words.now) ≡ []
        → result.status ≡ CoopStatus.BadWords }
{
    answer(rt, alloc, words, store, say)
}
