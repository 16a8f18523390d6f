//! What the last configuration tells of a trouble: where its task stood, and why it ended.

use crate::help::help_of;
use crate::printer::Printer;
use crate::reason::{kind_word, print_reason};
use crate::trace::{fault_of, told_fault};
use crate::troubles::{Ending, Trouble};
use lio_clauses::NoMemory;
use lio_messages_hints::Piece;
use lio_start::Job;
use lio_task::{Config, Task};
use lio_task_control::Stood;
use lio_values::{Entry, Fault, FaultKind};
use std::alloc::Global;

/// A trouble, and what was found of it. A line is named by its place in the script.
#[derive(Drop)]
pub(crate) struct Found {
    pub trouble: Trouble,
    /// The line at which the task stood.
    pub line: Option<usize>,
    /// The line at which it was started, where it is a child.
    pub born: Option<usize>,
    /// Why it ended so, in words, where there is something to say.
    pub reason: String,
    /// The line at which the task stood whose fault it was told, where it waited for one.
    pub waited: Option<usize>,
    /// What helps, where there is something to say.
    pub help: &'static str,
}

/// The fault that a task was told in its turn before its end, if it was told one.
fn told_before(ending: Ending, entries: &[Entry]) -> Option<&Fault> {
    told_fault(entries.get(ending.before?)?)
}

/// Writes why a task that ended by a fault threw it, or what it threw in its last turn.
fn print_thrown(printer: &mut Printer<'_>, job: &Job, stood: &Stood, kind: &FaultKind) {
    match kind {
        FaultKind::NoTurns => printer.fill(
            "its last turn threw {}",
            Piece::Words(kind_word(stood.kind())),
            Piece::Nothing,
        ),
        _ => print_reason(printer, job, stood),
    }
}

/// Why a task ended by a fault of a kind, in words.
fn reason(
    alloc: Global,
    job: &Job,
    task: &Task,
    ending: Ending,
    kind: &FaultKind,
    entries: &[Entry],
) -> Result<String, NoMemory> {
    let mut printer = Printer::new(alloc, &job.policy().names);
    match (ending.source, told_before(ending, entries), task.stood()) {
        (Some(source), Some(told), _) => printer.fill(
            "it waited for task {}, which ended with {}",
            Piece::Number(u64::from(source)),
            Piece::Words(kind_word(&told.kind)),
        ),
        (_, _, Some(stood)) => print_thrown(&mut printer, job, stood, kind),
        _ => {}
    }
    printer.finish()
}

/// The line at which a task stands, or stood when it threw a fault that nothing caught.
pub(crate) fn line_of(job: &Job, task: &Task) -> usize {
    match task.stood() {
        Some(stood) => stood.line(job.script()),
        None => task.line(job.script()),
    }
}

/// The line at which the task stood whose fault a task was told, where it waited for one.
fn waited_line(job: &Job, config: &Config, ending: Ending) -> Option<usize> {
    let source = config.task(ending.source?)?;
    Some(line_of(job, source))
}

/// What helps where a task ended by a fault of a kind that it threw itself.
fn help(job: &Job, task: &Task, ending: Ending, kind: &FaultKind) -> &'static str {
    match (ending.source, kind, task.stood()) {
        (Some(_), _, _) | (_, FaultKind::NoTurns, _) | (_, _, None) => "",
        (None, _, Some(stood)) => help_of(job, stood),
    }
}

impl Found {
    /// What is found of a trouble in the last configuration of a run with these entries.
    pub fn of(
        alloc: Global,
        job: &Job,
        config: &Config,
        entries: &[Entry],
        trouble: Trouble,
    ) -> Result<Found, NoMemory> {
        let mut found = Found {
            trouble,
            line: None,
            born: None,
            reason: String::new(alloc),
            waited: None,
            help: "",
        };
        match trouble {
            Trouble::Ended(ending) => found.look_at_end(alloc, job, config, ending, entries)?,
            Trouble::Waits(number) => {
                if let Some(task) = config.task(number) {
                    found.line = Some(line_of(job, task));
                }
            }
            Trouble::Silent(_) => {}
        }
        Ok(found)
    }

    /// Looks at a task that ended by a fault.
    fn look_at_end(
        &mut self,
        alloc: Global,
        job: &Job,
        config: &Config,
        ending: Ending,
        entries: &[Entry],
    ) -> Result<(), NoMemory> {
        if let Some(task) = config.task(ending.task)
            && let Some(end) = entries.get(ending.end)
            && let Some(fault) = fault_of(end)
        {
            self.line = Some(line_of(job, task));
            self.born = task.born();
            self.reason = reason(alloc, job, task, ending, &fault.kind, entries)?;
            self.waited = waited_line(job, config, ending);
            self.help = help(job, task, ending, &fault.kind);
        }
        Ok(())
    }
}
