//! Rule 7: arguments.
#![tactic(auto, unfolding(crate::specs::Rules::task_entry))]

ghost use Rattle.std.specs.Prelude.{◌≡◌, IfOk, map};
ghost use Rattle.std.specs.List.{filter_map};
ghost use Rattle.lio_policy_draft.specs.Failing.{entries, Passes};
ghost use Rattle.lio_policy.specs.Rules as spec;
ghost use Rattle.lio_policy.specs.Rules.{all_there, arguments_fail, tasks_of};

use crate::copies::{copied_labels, copied_texts};
use crate::labelled::{LabelledArg, LabelledTask};
use crate::policy::{Arg, Args, FileEntries, TaskEntries, TaskEntry};
use crate::table::Table;
use lio_clauses::NoMemory;
use lio_labels::Label;
use lio_policy_draft::{Conversion, Draft, PolicyFault, each, each_entry, first_task, shown};
use lio_values::{Handle, Plain, Text};
use std::alloc::Global;

/// The rule's number.
const RULE: u32 = 7;

/// What an argument may name.
#[derive(Drop)]
pub(crate) struct Known {
    pub(crate) channel_names: Table,
    pub(crate) channels: FileEntries,
    pub(crate) input_names: Table,
}

impl Known {
    /// The argument that is the channel with this name.
    fn channel(&self, alloc: Global, name: &Text) -> Result<Option<Arg>, NoMemory>
        ensures { IfOk result
            (λ arg. arg ≡ spec.arg_entry self.now (LabelledArg.Channel name.now)) }
    {
        let Some(number) = self.channel_names.find(name.bytes()) else {
            return Ok(None);
        };
        let Some(channel) = self.channels.as_slice().get(number) else {
            return Ok(None);
        };
        let label = channel.label.copy(alloc)?;
        let number = shown(number as u128);
        Ok(Some(Arg::Fixed(Plain::ChanOf(Handle { number, label }))))
    }
}

impl Known {
    /// The channels.
    pub(crate) fn into_channels(self) -> FileEntries
        ensures { result ≡ self.channels }
    {
        self.channels
    }
}

/// The argument, if what it names is known.
#[cycle(known)]
fn known_arg(alloc: Global, from: &LabelledArg, known: &Known) -> Result<Option<Arg>, NoMemory>
    ensures { IfOk result (λ made. made ≡ spec.arg_entry known.now from.now) }
{
    match from {
        LabelledArg::Input(name) => match known.input_names.find(name.bytes()) {
            Some(number) => Ok(Some(Arg::Input(shown(number as u128)))),
            None => Ok(None),
        },
        LabelledArg::Channel(name) => known.channel(alloc, name),
        LabelledArg::Fixed(value) => Ok(Some(Arg::Fixed(value.copy(alloc)?))),
        LabelledArg::Items(args) => match known_args(alloc, args.as_slice(), known)? {
            Some(args) => Ok(Some(Arg::Items(args))),
            None => Ok(None),
        },
    }
}

/// The arguments, if what they name is known.
#[cycle(known)]
fn known_args(alloc: Global, args: &[LabelledArg], known: &Known) -> Result<Option<Args>, NoMemory>
    ensures { IfOk result (λ made. made ≡ all_there (map (spec.arg_entry known.now) args.now)) }
{
    let mut made = Args::new(alloc);
    for arg in args {
        let Some(one) = known_arg(alloc, arg, known)? else {
            return Ok(None);
        };
        made.push(one)?;
    }
    Ok(Some(made))
}

impl Conversion<LabelledArg, Arg> for Known {
    ghost gives = { spec.arg_entry };

    fn convert(&self, alloc: Global, from: &LabelledArg) -> Result<Option<Arg>, NoMemory> {
        known_arg(alloc, from, self)
    }
}

impl Conversion<LabelledTask, TaskEntry> for Known {
    ghost gives = { spec.task_entry };

    fn convert(&self, alloc: Global, from: &LabelledTask) -> Result<Option<TaskEntry>, NoMemory> {
        task_entry(alloc, from, self)
    }
}

/// Copies of the names of a task and of its procedure, of its label and of its clearance.
fn copied_parts(alloc: Global, task: &LabelledTask) -> Result<(Text, Text, Label, Label), NoMemory>
    ensures { IfOk result (λ parts. (parts.0 ≡ task.now.name) × (parts.1 ≡ task.now.proc_name)
        × (parts.2 ≡ task.now.label) × (parts.3 ≡ task.now.clearance)) }
{
    let (name, proc_name) = copied_texts(alloc, &task.name, &task.proc_name)?;
    let (label, clearance) = copied_labels(alloc, task)?;
    Ok((name, proc_name, label, clearance))
}

/// A task with its arguments, if what they name is known.
fn task_entry(
    alloc: Global,
    task: &LabelledTask,
    known: &Known,
) -> Result<Option<TaskEntry>, NoMemory>
    ensures { IfOk result (λ made. made ≡ spec.task_entry known.now task.now) }
{
    let Ok(args) = each(alloc, known, task.args.as_slice())? else {
        return Ok(None);
    };
    let (name, proc_name, label, clearance) = copied_parts(alloc, task)?;
    Ok(Some(TaskEntry {
        name,
        proc_name,
        label,
        clearance,
        turns: task.turns,
        cells: task.cells,
        args,
    }))
}

/// The tasks of a draft with their arguments.
pub(crate) fn read_arguments(
    alloc: Global,
    draft: &Draft,
    known: &Known,
    tasks: &[LabelledTask],
) -> Result<TaskEntries, PolicyFault>
    requires same { known.now ≡ spec.known draft.now }
    requires labelled { tasks.now ≡ tasks_of draft.now }
    ensures { Passes RULE 0 (entries (arguments_fail draft.now)) result
        (λ made. made ≡ filter_map (spec.task_entry (spec.known draft.now)) (tasks_of draft.now)) }
{
    each_entry(alloc, known, tasks, RULE, first_task(draft))
}
