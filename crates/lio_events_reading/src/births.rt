//! Births.
ghost use Rattle.std.specs.Prelude.{◌≡◌, codes, IfOk};
ghost use Rattle.lio_events.specs.EntryText.{args_text};
ghost use Rattle.lio_events_reading.specs.Births.{birth_behind};
ghost use Rattle.lio_events_reading.specs.Births as spec;
ghost use Rattle.lio_events_reading.specs.Over.{AreValuesOver, IsBirthOver};
ghost use Rattle.lio_events_reading.specs.Reading.{FindsBefore};

use crate::cursor::Cursor;
use crate::labels::two_labels;
use crate::numbers::blank_number;
use crate::values::value;
use lio_clauses::{Names, NoMemory};
use lio_values::{Birth, Held, List, Values};
use std::alloc::Global;

/// Takes the arguments of a birth, each behind a blank, up to the colon.
fn args(text: &mut Cursor, alloc: Global, names: &Names) -> Result<Values, NoMemory>
    ensures finds { IfOk result (λ found. FindsBefore (codes " : ") (args_text names.now)
        (AreValuesOver names.now) text.old found text.new) }
    ensures over { IfOk result (AreValuesOver names.now) }
{
    let mut args = List::new(alloc);
    'arguments: while begins_argument(text.rest()) {
        text.skip(1);
        args.push(value(text, alloc, names)?)?;
    }
    Ok(args)
}

/// Whether an argument stands at the front: a blank, and no colon behind it.
fn begins_argument(bytes: &[u8]) -> bool
    ensures { result ≡ spec.begins_argument bytes.now }
{
    match bytes {
        [b' ', b':', ..] => false,
        [b' ', ..] => true,
        _ => false,
    }
}

/// Takes a birth behind its word.
pub(crate) fn birth_behind(
    text: &mut Cursor,
    alloc: Global,
    names: &Names,
) -> Result<Held<Birth>, NoMemory>
    ensures finds { IfOk result (λ found. FindsBefore (codes " : ") (birth_behind names.now)
        (IsBirthOver names.now) text.old found text.new) }
    ensures over { IfOk result (IsBirthOver names.now) }
{
    let proc_at = blank_number(text);
    let (result, clearance) = two_labels(text, alloc, names)?;
    let turns = blank_number(text);
    let first = blank_number(text);
    let cells = blank_number(text);
    let args = args(text, alloc, names)?;
    Held::new(
        alloc,
        Birth {
            proc_at,
            args,
            result,
            clearance,
            turns,
            first,
            cells,
        },
    )
}
