//! Faults.
ghost use Rattle.std.specs.Prelude.{◌≡◌, ◌≤◌, length, IfOk};
ghost use Rattle.lio_values.specs.ValueText.{fault_text, kind_text};
ghost use Rattle.lio_events_reading.specs.Behind as spec;
ghost use Rattle.lio_events_reading.specs.Behind.{word_of_kind};
ghost use Rattle.lio_events_reading.specs.Over.{IsFaultOver, IsKindOver};
ghost use Rattle.lio_events_reading.specs.Reading.{Finds};

use crate::cursor::Cursor;
use crate::labels::{label, power, two_labels};
use crate::numbers::two_longs;
use crate::plain::plain;
use crate::words::KindWord;
use lio_clauses::{Names, NoMemory};
use lio_values::{Fault, FaultKind};
use std::alloc::Global;

/// Takes what stands behind the first word of a kind of fault.
fn kind_behind(
    word: KindWord,
    text: &mut Cursor,
    alloc: Global,
    names: &Names,
) -> Result<FaultKind, NoMemory>
    ensures finds { IfOk result (λ found. Finds (spec.kind_behind names.now)
        (λ kind. IsKindOver names.now kind × (word_of_kind kind ≡ word)) text.old found text.new) }
    ensures over { IfOk result (IsKindOver names.now) }
    ensures shorter { length text.new ≤ length text.old }
{
    match word {
        KindWord::FlowCurrent => {
            let (current, target) = two_labels(text, alloc, names)?;
            Ok(FaultKind::FlowCurrent(current, target))
        }
        KindWord::FlowClearance => {
            let (target, clearance) = two_labels(text, alloc, names)?;
            Ok(FaultKind::FlowClearance(target, clearance))
        }
        KindWord::FlowRaise => {
            let (raised, clearance) = two_labels(text, alloc, names)?;
            Ok(FaultKind::FlowRaise(raised, clearance))
        }
        KindWord::FlowPrivilege => {
            let power = power(text, alloc, names)?;
            let (source, target) = two_labels(text, alloc, names)?;
            Ok(FaultKind::FlowPrivilege(power, source, target))
        }
        KindWord::BadType => Ok(FaultKind::BadType),
        KindWord::Overflow => Ok(FaultKind::Overflow),
        KindWord::DivZero => Ok(FaultKind::DivZero),
        KindWord::TooLong => Ok(FaultKind::TooLong),
        KindWord::NoTurns => Ok(FaultKind::NoTurns),
        KindWord::NoCells => {
            let (asked, left) = two_longs(text);
            Ok(FaultKind::NoCells(asked, left))
        }
        KindWord::ChildTurns => {
            let (asked, left) = two_longs(text);
            Ok(FaultKind::ChildTurns(asked, left))
        }
        KindWord::Depth => Ok(FaultKind::Depth),
        KindWord::LabelWide => {
            let (left, right) = two_labels(text, alloc, names)?;
            Ok(FaultKind::LabelWide(left, right))
        }
        KindWord::User => {
            text.skip(1);
            Ok(FaultKind::User(plain(text, alloc, names)?))
        }
    }
}

/// Takes a kind of fault.
fn kind(text: &mut Cursor, alloc: Global, names: &Names) -> Result<FaultKind, NoMemory>
    ensures finds { IfOk result (λ found. Finds (kind_text names.now)
        (IsKindOver names.now) text.old found text.new) }
    ensures over { IfOk result (IsKindOver names.now) }
    ensures shorter { length text.new ≤ length text.old }
{
    match KindWord::find(text.word()) {
        Some(word) => kind_behind(word, text, alloc, names),
        None => Ok(FaultKind::BadType),
    }
}

/// Takes a fault.
pub(crate) fn fault(text: &mut Cursor, alloc: Global, names: &Names) -> Result<Fault, NoMemory>
    ensures finds { IfOk result (λ found. Finds (fault_text names.now)
        (IsFaultOver names.now) text.old found text.new) }
    ensures over { IfOk result (IsFaultOver names.now) }
    ensures shorter { length text.new ≤ length text.old }
{
    let kind = kind(text, alloc, names)?;
    text.skip(4);
    let at = label(text, alloc, names)?;
    Ok(Fault { kind, at })
}
