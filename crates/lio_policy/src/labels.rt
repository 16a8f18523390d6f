//! Rules 5 and 6: labels, and their flow.
ghost use Rattle.std.specs.Prelude.{◌≡◌, IfOk, map, position};
ghost use Rattle.std.specs.List.{filter_map};
ghost use Rattle.std.specs.Result.{result_ok};
ghost use Rattle.lio_clauses.specs.FormulaText.{reading};
ghost use Rattle.lio_policy_draft.specs.Failing.{entries, Passes};
ghost use Rattle.lio_policy.specs.Rules as spec;
ghost use Rattle.lio_policy.specs.Rules.{labels_fail, flow_fails, tasks_of, file_entry, is_above};
ghost use Rattle.lio_policy.specs.Rules.{all_there};

use crate::copies::copied_texts;
use crate::labelled::{LabelledArg, LabelledTask};
use crate::policy::{FileEntries, FileEntry};
use lio_clauses::{Formula, Names, NoMemory, TextFault};
use lio_labels::{Label, Priv};
use lio_policy_draft::{
    ArgDraft, Conversion, Draft, FileDraft, PolicyFault, TaskDraft, each, each_entry, fault_at,
    first_channel, first_input, first_task,
};
use lio_values::{List, Plain, Text};
use std::alloc::Global;

/// The number of the rule on labels, and of the rule on their flow.
const LABELS: u32 = 5;

const FLOW: u32 = 6;

/// The label of a text, if it has one.
fn label_of(alloc: Global, text: &Text, names: &Names) -> Result<Option<Label>, NoMemory>
    ensures { IfOk result (λ label. label ≡ spec.label_of names.now text.now) }
{
    match Label::read(alloc, text.bytes(), names) {
        Ok(label) => Ok(Some(label)),
        Err(TextFault::NoMemory) => Err(NoMemory),
        Err(_fault) => Ok(None),
    }
}

/// The formula of a text, if it has one.
fn formula_of(alloc: Global, text: &Text, names: &Names) -> Result<Option<Formula>, NoMemory>
    ensures { IfOk result (λ formula. formula ≡ result_ok (reading names.now text.now)) }
{
    match Formula::read(alloc, text.bytes(), names) {
        Ok(formula) => Ok(Some(formula)),
        Err(TextFault::NoMemory) => Err(NoMemory),
        Err(_fault) => Ok(None),
    }
}

impl Conversion<FileDraft, FileEntry> for Names {
    ghost gives = { file_entry };

    fn convert(&self, alloc: Global, from: &FileDraft) -> Result<Option<FileEntry>, NoMemory> {
        let (name, file) = copied_texts(alloc, &from.name, &from.file)?;
        let Some(label) = label_of(alloc, &from.label, self)? else {
            return Ok(None);
        };
        Ok(Some(FileEntry { name, label, file }))
    }
}

/// An argument with its labels and formulas, if they can be read.
#[cycle(labelled)]
fn labelled_arg(
    alloc: Global,
    from: &ArgDraft,
    names: &Names,
) -> Result<Option<LabelledArg>, NoMemory>
    ensures { IfOk result (λ made. made ≡ spec.labelled_arg names.now from.now) }
{
    match from {
        ArgDraft::Input(name) => Ok(Some(LabelledArg::Input(name.copy(alloc)?))),
        ArgDraft::Channel(name) => Ok(Some(LabelledArg::Channel(name.copy(alloc)?))),
        ArgDraft::Label(text) => match label_of(alloc, text, names)? {
            Some(label) => Ok(Some(LabelledArg::Fixed(Plain::Lab(label)))),
            None => Ok(None),
        },
        ArgDraft::Power(text) => match formula_of(alloc, text, names)? {
            Some(power) => Ok(Some(LabelledArg::Fixed(Plain::Power(Priv { power })))),
            None => Ok(None),
        },
        ArgDraft::Bytes(text) => Ok(Some(LabelledArg::Fixed(Plain::Bytes(text.copy(alloc)?)))),
        ArgDraft::Whole(number) => Ok(Some(LabelledArg::Fixed(Plain::Whole(*number)))),
        ArgDraft::Flag(flag) => Ok(Some(LabelledArg::Fixed(Plain::Flag(*flag)))),
        ArgDraft::Unit => Ok(Some(LabelledArg::Fixed(Plain::Unit))),
        ArgDraft::Items(args) => match labelled_args(alloc, args.as_slice(), names)? {
            Some(args) => Ok(Some(LabelledArg::Items(args))),
            None => Ok(None),
        },
    }
}

/// Arguments with their labels and formulas, if they can be read.
#[cycle(labelled)]
fn labelled_args(
    alloc: Global,
    args: &[ArgDraft],
    names: &Names,
) -> Result<Option<List<LabelledArg>>, NoMemory>
    ensures { IfOk result
        (λ made. made ≡ all_there (map (spec.labelled_arg names.now) args.now)) }
{
    let mut made = List::new(alloc);
    for arg in args {
        let Some(one) = labelled_arg(alloc, arg, names)? else {
            return Ok(None);
        };
        made.push(one)?;
    }
    Ok(Some(made))
}

impl Conversion<ArgDraft, LabelledArg> for Names {
    ghost gives = { spec.labelled_arg };

    fn convert(&self, alloc: Global, from: &ArgDraft) -> Result<Option<LabelledArg>, NoMemory> {
        labelled_arg(alloc, from, self)
    }
}

impl Conversion<TaskDraft, LabelledTask> for Names {
    ghost gives = { spec.labelled_task };

    fn convert(&self, alloc: Global, from: &TaskDraft) -> Result<Option<LabelledTask>, NoMemory> {
        labelled_task(alloc, from, self)
    }
}

/// The label and the clearance of a task, if they can be read.
fn labels_of(
    alloc: Global,
    task: &TaskDraft,
    names: &Names,
) -> Result<Option<(Label, Label)>, NoMemory>
    ensures { IfOk result (λ labels. labels ≡ spec.labels_of names.now task.now) }
{
    let Some(label) = label_of(alloc, &task.label, names)? else {
        return Ok(None);
    };
    let Some(clearance) = label_of(alloc, &task.clearance, names)? else {
        return Ok(None);
    };
    Ok(Some((label, clearance)))
}

/// A task with these labels and arguments.
fn with_args(
    alloc: Global,
    task: &TaskDraft,
    label: Label,
    clearance: Label,
    args: List<LabelledArg>,
) -> Result<LabelledTask, NoMemory>
    ensures { IfOk result (λ made. made ≡ spec.with_args task.now label clearance args) }
{
    let (name, proc_name) = copied_texts(alloc, &task.name, &task.proc_name)?;
    Ok(LabelledTask {
        name,
        proc_name,
        label,
        clearance,
        turns: task.turns,
        cells: task.cells,
        args,
    })
}

/// A task with its labels, if they can be read.
#[tactic(auto, unfolding(crate::specs::Rules::labelled_task))]
fn labelled_task(
    alloc: Global,
    task: &TaskDraft,
    names: &Names,
) -> Result<Option<LabelledTask>, NoMemory>
    ensures { IfOk result (λ made. made ≡ spec.labelled_task names.now task.now) }
{
    let Some((label, clearance)) = labels_of(alloc, task, names)? else {
        return Ok(None);
    };
    let Ok(args) = each(alloc, names, task.args.as_slice())? else {
        return Ok(None);
    };
    Ok(Some(with_args(alloc, task, label, clearance, args)?))
}

/// The channels, inputs and tasks of a draft with their labels.
#[derive(Drop)]
pub(crate) struct Labelled {
    pub(crate) channels: FileEntries,
    pub(crate) inputs: FileEntries,
    pub(crate) tasks: List<LabelledTask>,
}

/// The labels of a draft.
pub(crate) fn read_labels(
    alloc: Global,
    draft: &Draft,
    names: &Names,
) -> Result<Labelled, PolicyFault>
    requires { names.now ≡ draft.now.principals }
    ensures { Passes LABELS 0 (entries (labels_fail draft.now)) result
        (λ labelled. (labelled.channels
        ≡ filter_map (file_entry draft.now.principals) draft.now.channels)
        × (labelled.inputs ≡ filter_map (file_entry draft.now.principals) draft.now.inputs)
        × (labelled.tasks ≡ tasks_of draft.now)) }
{
    let files = draft.channels.as_slice();
    let channels = each_entry(alloc, names, files, LABELS, first_channel(draft))?;
    let files = draft.inputs.as_slice();
    let inputs = each_entry(alloc, names, files, LABELS, first_input(draft))?;
    let drafts = draft.tasks.as_slice();
    let tasks = each_entry(alloc, names, drafts, LABELS, first_task(draft))?;
    Ok(Labelled {
        channels,
        inputs,
        tasks,
    })
}

/// Whether a task's label does not flow to its clearance.
fn is_above(task: &LabelledTask) -> bool
    ensures { result ≡ is_above task.now }
{
    !task.label.flows(&task.clearance)
}

/// The first task whose label does not flow to its clearance.
fn first_above(tasks: &[LabelledTask]) -> Option<usize>
    ensures { result ≡ position is_above tasks.now }
{
    tasks.iter().position(is_above)
}

/// Tests that the tasks' labels flow to their clearances.
pub(crate) fn check_flow(draft: &Draft, tasks: &[LabelledTask]) -> Result<(), PolicyFault>
    requires { tasks.now ≡ tasks_of draft.now }
    ensures { Passes FLOW 0 (entries (flow_fails draft.now)) result (λ _. Unit {0}) }
{
    match first_above(tasks) {
        Some(place) => Err(fault_at(FLOW, first_task(draft) + place as u128)),
        None => Ok(()),
    }
}
