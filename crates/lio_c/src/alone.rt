//! A call of the host on one thread.

ghost use Rattle.std.specs.Prelude.{◌≡◌, ◌≤◌, [], None, Some, IfErr, IfOk, IfSome, MatchOption};
ghost use Rattle.lio_front.specs.Command.{IsCounted, IsSized, command_of};
ghost use Rattle.lio_front.specs.Sorted.{bytes_of_words, mode_named, named, source_named};
ghost use Rattle.lio_outside.specs.Call.{outside};
ghost use Rattle.lio_start.specs.Job.{first_of};
ghost use Rattle.lio_audit.specs.History.{IsHistoryOf, Says as StopsRun};
ghost use Rattle.lio_rounds.specs.Headline.{IsRunOf};
ghost use Rattle.lio_rounds.specs.Runs.{IsMergeOfLogs, ran_of};
ghost use Rattle.lio_host_main.specs.Answers.{Completes, FlowsAs, Follows, RanAs, Says};
ghost use Rattle.lio_host_main.specs.Answers.{StopsTheRun, journal_with};
ghost use Rattle.lio_host_main.specs.Order.{order_of};
ghost use Rattle.lio_host_main.specs.Verdict.{IsJobOfVerdict};
ghost use Rattle.lio_c.specs.Alone as spec;
ghost use Rattle.lio_c.specs.Alone.{alone_words};

use lio_audit::{AuditFault, check_journal};
use lio_clauses::NoMemory;
use lio_events::Journal;
use lio_events_reading::journal_fits;
use lio_front::{Command, Mode, Status, Texts, read_command};
use lio_host_main::{Order, Outcome, Way, begin, finish_run, prepare_order};
use lio_outside::{Say, Store};
use lio_rounds::{Ran, run};
use lio_start::Job;
use std::alloc::Global;

/// Whether the turns are taken on one thread.
fn is_alone(mode: Mode<'_>) -> bool
    ensures { result ≡ spec.is_alone (mode_named mode.entry) }
{
    match mode {
        Mode::Rounds | Mode::Replay(_) => true,
        Mode::Workers(_) => false,
    }
}

/// The command that the words give, if they give one that asks for no workers.
pub(crate) fn read_alone(words: &[String]) -> Option<Command<'_>>
    ensures command { MatchOption result (command_of (alone_words (bytes_of_words words.now)) ≡ None)
        (λ c. command_of (alone_words (bytes_of_words words.now)) ≡ Some (named c)) }
    ensures sized { IfSome result (λ c. IsSized (source_named c.source)) }
    ensures counted { IfSome result (λ c. IsCounted (mode_named c.mode)) }
{
    let command = read_command(words)?;
    if is_alone(command.mode) {
        Some(command)
    } else {
        None
    }
}

/// Runs a job again as its history tells.
fn replay(alloc: Global, job: &Job, history: &[u8]) -> Result<Ran, AuditFault>
    ensures run { IfOk result (λ ran. IsRunOf job.now (ran_of job.now.script ran)) }
    ensures history { IfOk result (λ ran. IsHistoryOf job.now.policy.names (first_of job.now)
        history.now (ran_of job.now.script ran)) }
    ensures err { IfErr result (StopsRun job.now.policy.names (first_of job.now) history.now) }
{
    let config = begin(alloc, job)?;
    let script = job.script();
    let policy = job.policy();
    let (journal, config) = check_journal(alloc, config, script, history, &policy.names)?;
    Ok(Ran { journal, config })
}

/// Runs a job in rounds, which is one of the orders in which workers come to take turns.
fn run_merged(alloc: Global, job: &Job) -> Result<Ran, NoMemory>
    ensures run { IfOk result (λ ran. IsRunOf job.now (ran_of job.now.script ran)) }
    ensures merge { IfOk result (λ ran. IsMergeOfLogs (first_of job.now)
        (ran_of job.now.script ran)) }
{
    let ran = run(alloc, job)?;
    Ok(ran)
}

/// Runs the job of an order to the end, on this thread.
fn run_order(alloc: Global, order: &Order<'_>) -> Result<Ran, Status>
    ensures run { IfOk result (λ ran. IsRunOf order.now.job (ran_of order.now.job.script ran)) }
    ensures ran_as { IfOk result
        (λ ran. RanAs (order_of order.now) (ran_of order.now.job.script ran)) }
    ensures flows { IfOk result
        (λ ran. FlowsAs (order_of order.now) (ran_of order.now.job.script ran)) }
    ensures err { IfErr result (StopsTheRun (order_of order.now)) }
{
    match &order.way {
        Way::InRounds => Ok(run(alloc, &order.job)?),
        Way::ByWorkers(_) => Ok(run_merged(alloc, &order.job)?),
        Way::AsTold(history) => match replay(alloc, &order.job, history.as_slice()) {
            Ok(ran) => Ok(ran),
            Err(AuditFault::NotARun(line)) => Err(Status::NotARun(line)),
            Err(AuditFault::NoMemory) => Err(Status::NoMemory),
        },
    }
}

/// The outcome of a call that gives no journal.
fn refused(alloc: Global, status: Status, texts: Texts) -> Outcome
    ensures status { result.status ≡ status }
    ensures journal { result.journal ≡ [] }
    ensures job { result.job ≡ None }
{
    Outcome {
        status,
        journal: Journal::new(alloc),
        job: None,
        config: None,
        texts,
        history: None,
    }
}

/// The bytes of the history that is taken again, where one is.
fn history_of(way: Way) -> Option<Vec<u8>> {
    match way {
        Way::AsTold(history) => Some(history),
        Way::InRounds | Way::ByWorkers(_) => None,
    }
}

/// The outcome of an order of which no run was made.
fn stopped(alloc: Global, status: Status, order: Order<'_>, texts: Texts) -> Outcome
    ensures status { result.status ≡ status }
    ensures journal { result.journal ≡ [] }
    ensures job { result.job ≡ Some order.entry.job }
{
    let Order {
        job,
        observer: _observer,
        way,
        ..
    } = order;
    Outcome {
        status,
        journal: Journal::new(alloc),
        job: Some(job),
        config: None,
        texts,
        history: history_of(way),
    }
}

/// The outcome of a run whose files were all written, and whose summary was said.
fn done(order: Order<'_>, ran: Ran, texts: Texts) -> Outcome
    ensures status { result.status ≡ Status.Done }
    ensures journal { result.journal ≡ ran.journal }
    ensures job { result.job ≡ Some order.entry.job }
{
    let Order {
        job,
        observer: _observer,
        way: _way,
        ..
    } = order;
    let Ran { journal, config } = ran;
    Outcome {
        status: Status::Done,
        journal,
        job: Some(job),
        config: Some(config),
        texts,
        history: None,
    }
}

/// The outcome of a run whose files weren't all written, or whose summary wasn't said.
fn unfinished(alloc: Global, status: Status, ran: Ran, texts: Texts) -> Outcome
    ensures status { result.status ≡ status }
    ensures journal { result.journal ≡ journal_with status ran.journal }
    ensures job { result.job ≡ None }
{
    let Ran {
        journal,
        config: _config,
    } = ran;
    match status {
        Status::NoMemory => refused(alloc, Status::NoMemory, texts),
        status => Outcome {
            status,
            journal,
            job: None,
            config: None,
            texts,
            history: None,
        },
    }
}

/// What `call_alone` answers.
fn answer<S: Store, W: Say>(alloc: Global, words: &[String], store: &mut S, say: &mut W) -> Outcome
    ensures count { (S.faults store.old).count ≤ (S.faults store.new).count }
    ensures say_count { W.faults say.old ≤ W.faults say.new }
    ensures job { IfSome result.job
        (IsJobOfVerdict (S.holds store.old) (alone_words (bytes_of_words words.now))) }
    ensures says { Says (record {
      words = alone_words (bytes_of_words words.now);
      before = outside S.holds S.faults W.said W.faults store.old say.old;
      after = outside S.holds S.faults W.said W.faults store.new say.new;
      journal = result.journal;
    }) result.status }
{
    let mut texts = Texts::none();
    let Some(command) = read_alone(words) else {
        return refused(alloc, Status::BadWords, texts);
    };
    let order = match prepare_order(alloc, store, command, &mut texts) {
        Ok(order) => order,
        Err(status) => return refused(alloc, status, texts),
    };
    let ran = match run_order(alloc, &order) {
        Ok(ran) => ran,
        Err(status) => return stopped(alloc, status, order, texts),
    };
    journal_fits(&ran.journal);
    let finished = finish_run(alloc, store, say, &order, &ran);
    match finished {
        Ok(()) => done(order, ran, texts),
        Err(status) => unfinished(alloc, status, ran, texts),
    }
}

/// Does what the words ask for on this thread: runs the script under the policy, in rounds or as a
/// history tells, writes the files, and says the summary. What is promised is what `host_main`
/// promises of these words, or of none where they ask for workers.
pub(crate) fn call_alone<S: Store, W: Say>(
    alloc: Global,
    words: &[String],
    store: &mut S,
    say: &mut W,
) -> Outcome
    ensures count { (S.faults store.old).count ≤ (S.faults store.new).count }
    ensures says { Says (record {
      words = alone_words (bytes_of_words words.now);
      before = outside S.holds S.faults W.said W.faults store.old say.old;
      after = outside S.holds S.faults W.said W.faults store.new say.new;
      journal = result.journal;
    }) result.status }
    ensures follows { IfSome (S.holds store.old) (Follows (record {
      words = alone_words (bytes_of_words words.now);
      before = outside S.holds S.faults W.said W.faults store.old say.old;
      after = outside S.holds S.faults W.said W.faults store.new say.new;
      journal = result.journal;
    }) result.status) }
    ensures completes { IfSome (S.holds store.old) (Completes (record {
      words = alone_words (bytes_of_words words.now);
      before = outside S.holds S.faults W.said W.faults store.old say.old;
      after = outside S.holds S.faults W.said W.faults store.new say.new;
      journal = result.journal;
    }) result.status) }
    ensures bad_words { command_of (alone_words (bytes_of_words words.now)) ≡ None
        → result.status ≡ Status.BadWords }
    ensures job { IfSome result.job
        (IsJobOfVerdict (S.holds store.old) (alone_words (bytes_of_words words.now))) }
{
    answer(alloc, words, store, say)
}
