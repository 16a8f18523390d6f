//! Copies of parts of tasks and files.
ghost use Rattle.std.specs.Prelude.{◌≡◌, IfOk};

use crate::labelled::LabelledTask;
use lio_clauses::NoMemory;
use lio_labels::Label;
use lio_values::Text;
use std::alloc::Global;

/// Copies of two texts.
pub(crate) fn copied_texts(
    alloc: Global,
    first: &Text,
    second: &Text,
) -> Result<(Text, Text), NoMemory>
    ensures { IfOk result (λ texts. (texts.0 ≡ first.now) × (texts.1 ≡ second.now)) }
{
    let first = first.copy(alloc)?;
    let second = second.copy(alloc)?;
    Ok((first, second))
}

/// Copies of the label and the clearance of a task.
pub(crate) fn copied_labels(alloc: Global, task: &LabelledTask) -> Result<(Label, Label), NoMemory>
    ensures { IfOk result (λ labels. (labels.0 ≡ task.now.label)
        × (labels.1 ≡ task.now.clearance)) }
{
    let label = task.label.copy(alloc)?;
    let clearance = task.clearance.copy(alloc)?;
    Ok((label, clearance))
}
