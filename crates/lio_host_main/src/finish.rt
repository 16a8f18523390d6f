//! What is done of a run: its files are written, and its summary is said.

ghost use Rattle.std.specs.Prelude.{◌≡◌, ◌≤◌, All, IfOk, IfErr, OnOk};
ghost use Rattle.lio_events.specs.Printable.{IsPrintable};
ghost use Rattle.lio_outside.specs.Call.{outside};
ghost use Rattle.lio_rounds.specs.Runs.{ran_of};
ghost use Rattle.lio_host_main.specs.Answers.{Finishes};
ghost use Rattle.lio_host_main.specs.Order.{order_of, seen_by};
ghost use Rattle.lio_front.specs.declared.status.Status.TheVariants.{Done as done};

use crate::order::Order;
use crate::prepare::view_of;
use lio_clauses::NoMemory;
use lio_events::{Journal, view};
use lio_front::{Status, summary, write_out};
use lio_labels::Label;
use lio_outside::{Say, Store};
use lio_rounds::Ran;
use std::alloc::Global;

/// What an observer sees of a journal, where there is one.
fn seen(alloc: Global, journal: &Journal, observer: &Option<Label>) -> Result<Journal, NoMemory>
    ensures { IfOk result (λ seen. seen ≡ seen_by observer.now journal.now) }
{
    match observer {
        Some(observer) => view(alloc, journal, observer),
        None => Ok(Journal::new(alloc)),
    }
}

/// Writes the files of an order out of a run, with what its observer sees of it, and says the
/// summary. After want of memory a first part of the files is written, none or all of them
/// included.
pub fn finish_seen<S: Store, W: Say>(
    alloc: Global,
    store: &mut S,
    say: &mut W,
    order: &Order<'_>,
    ran: &Ran,
    seen: &Journal,
) -> Result<(), Status>
    requires printable { All (IsPrintable order.now.job.policy.names) ran.now.journal }
    requires seen { seen.now ≡ seen_by order.now.observer ran.now.journal }
    ensures count { (S.faults store.old).count ≤ (S.faults store.new).count }
    ensures say_count { W.faults say.old ≤ W.faults say.new }
    ensures ok { OnOk result (Finishes (order_of order.now) (ran_of order.now.job.script ran.now)
        (outside S.holds S.faults W.said W.faults store.old say.old)
        (outside S.holds S.faults W.said W.faults store.new say.new) done) }
    ensures err { IfErr result (Finishes (order_of order.now) (ran_of order.now.job.script ran.now)
        (outside S.holds S.faults W.said W.faults store.old say.old)
        (outside S.holds S.faults W.said W.faults store.new say.new)) }
{
    let policy = order.job.policy();
    let text = summary(alloc, policy, &ran.config, &ran.journal)?;
    let history = order.command.history;
    let file = view_of(order.command);
    write_out(alloc, store, policy, &ran.journal, history, file, seen)?;
    say.say(alloc, text.as_slice())?;
    Ok(())
}

/// The same, with the view that its observer has of the journal.
pub fn finish_run<S: Store, W: Say>(
    alloc: Global,
    store: &mut S,
    say: &mut W,
    order: &Order<'_>,
    ran: &Ran,
) -> Result<(), Status>
    requires { All (IsPrintable order.now.job.policy.names) ran.now.journal }
    ensures count { (S.faults store.old).count ≤ (S.faults store.new).count }
    ensures say_count { W.faults say.old ≤ W.faults say.new }
    ensures ok { OnOk result (Finishes (order_of order.now) (ran_of order.now.job.script ran.now)
        (outside S.holds S.faults W.said W.faults store.old say.old)
        (outside S.holds S.faults W.said W.faults store.new say.new) done) }
    ensures err { IfErr result (Finishes (order_of order.now) (ran_of order.now.job.script ran.now)
        (outside S.holds S.faults W.said W.faults store.old say.old)
        (outside S.holds S.faults W.said W.faults store.new say.new)) }
{
    let seen = seen(alloc, &ran.journal, &order.observer)?;
    finish_seen(alloc, store, say, order, ran, &seen)
}
