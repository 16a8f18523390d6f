//! Labels and privileges.
ghost use Rattle.std.specs.Prelude.{◌≡◌, ◌≤◌, length, IfOk};
ghost use Rattle.lio_clauses.specs.FormulaText.{reading};
ghost use Rattle.lio_labels.specs.LabelText as label;
ghost use Rattle.lio_values.specs.PlainText.{label_in_brackets};
ghost use Rattle.lio_events_reading.specs.Over.{IsLabelOver, IsPowerOver};
ghost use Rattle.lio_events_reading.specs.Labels as spec;
ghost use Rattle.lio_events_reading.specs.Labels.{AreLabelsOver, blank_power, both_text};
ghost use Rattle.lio_events_reading.specs.Labels.{power_inside};
ghost use Rattle.lio_events_reading.specs.Reading.{Finds};

use crate::cursor::Cursor;
use lio_clauses::{Formula, Names, NoMemory, TextFault};
use lio_labels::laws::label_is_canonical;
use lio_labels::{Label, Priv};
use std::alloc::Global;

/// A label that stands for none.
fn other_label(alloc: Global, names: &Names) -> Result<Label, NoMemory>
    ensures { IfOk result (IsLabelOver names.now) }
{
    let label = Label::public(alloc)?;
    label_is_canonical(&label);
    Ok(label)
}

/// The label of a text, or another one where it has none.
fn label_of(alloc: Global, text: &[u8], names: &Names) -> Result<Label, NoMemory>
    ensures found { IfOk result (λ found.
        IfOk (label.reading names.now text.now) (λ label. found ≡ label)) }
    ensures over { IfOk result (IsLabelOver names.now) }
{
    let _ = names.len();
    match Label::read(alloc, text, names) {
        Ok(label) => {
            label_is_canonical(&label);
            Ok(label)
        }
        Err(TextFault::NoMemory) => Err(NoMemory),
        Err(_) => other_label(alloc, names),
    }
}

/// Takes a label in brackets.
pub(crate) fn label(text: &mut Cursor, alloc: Global, names: &Names) -> Result<Label, NoMemory>
    ensures finds { IfOk result (λ found. Finds (label_in_brackets names.now)
        (IsLabelOver names.now) text.old found text.new) }
    ensures over { IfOk result (IsLabelOver names.now) }
    ensures shorter { length text.new ≤ length text.old }
{
    let _ = names.len();
    label_of(alloc, text.bracketed(), names)
}

/// Takes two labels, each behind a blank.
pub(crate) fn two_labels(
    text: &mut Cursor,
    alloc: Global,
    names: &Names,
) -> Result<(Label, Label), NoMemory>
    ensures finds { IfOk result (λ found. Finds (both_text names.now)
        (AreLabelsOver names.now) text.old found text.new) }
    ensures over { IfOk result (AreLabelsOver names.now) }
    ensures shorter { length text.new ≤ length text.old }
{
    text.skip(1);
    let first = label(text, alloc, names)?;
    text.skip(1);
    let second = label(text, alloc, names)?;
    Ok((first, second))
}

/// A privilege that stands for none.
fn other_power(alloc: Global, names: &Names) -> Priv
    ensures { IsPowerOver names.now result }
{
    let power = Formula::truth(alloc);
    let _ = power.clauses();
    Priv { power }
}

/// The privilege of a formula's text, or another one where it has none.
fn power_of(alloc: Global, text: &[u8], names: &Names) -> Result<Priv, NoMemory>
    ensures found { IfOk result (λ found.
        IfOk (reading names.now text.now) (λ power. found.power ≡ power)) }
    ensures over { IfOk result (IsPowerOver names.now) }
{
    let _ = names.len();
    match Formula::read(alloc, text, names) {
        Ok(power) => {
            let _ = power.clauses();
            Ok(Priv { power })
        }
        Err(TextFault::NoMemory) => Err(NoMemory),
        Err(_) => Ok(other_power(alloc, names)),
    }
}

/// Takes the formula of a privilege in brackets, behind the word `power`.
pub(crate) fn power_behind(
    text: &mut Cursor,
    alloc: Global,
    names: &Names,
) -> Result<Priv, NoMemory>
    ensures finds { IfOk result (λ found. Finds (power_inside names.now)
        (IsPowerOver names.now) text.old found text.new) }
    ensures over { IfOk result (IsPowerOver names.now) }
    ensures shorter { length text.new ≤ length text.old }
{
    let _ = names.len();
    power_of(alloc, text.bracketed(), names)
}

/// Takes a privilege behind a blank.
pub(crate) fn power(text: &mut Cursor, alloc: Global, names: &Names) -> Result<Priv, NoMemory>
    ensures finds { IfOk result (λ found. Finds (blank_power names.now)
        (IsPowerOver names.now) text.old found text.new) }
    ensures over { IfOk result (IsPowerOver names.now) }
    ensures shorter { length text.new ≤ length text.old }
{
    text.skip(6);
    power_behind(text, alloc, names)
}

/// Takes a label behind a blank.
pub(crate) fn blank_label(
    text: &mut Cursor,
    alloc: Global,
    names: &Names,
) -> Result<Label, NoMemory>
    ensures finds { IfOk result (λ found. Finds (spec.blank_label names.now)
        (IsLabelOver names.now) text.old found text.new) }
    ensures over { IfOk result (IsLabelOver names.now) }
{
    text.skip(1);
    label(text, alloc, names)
}
