//! Fields that write formulas, labels and sets of principals.
ghost use Rattle.std.specs.Prelude.{IfOk};
ghost use Rattle.lio_clauses.specs.FormulaPrint as formula;
ghost use Rattle.lio_labels.specs.LabelPrint as label;

use lio_clauses::{Formula, Names, TextFault, beside};
use lio_labels::Label;
use std::alloc::Global;

/// The formulas of two texts.
pub fn read_formulas(
    alloc: Global,
    names: &Names,
    one: &[u8],
    other: &[u8],
) -> Result<(Formula, Formula), TextFault>
    ensures one { IfOk result (λ both. formula.AreNamed names.now both.0) }
    ensures other { IfOk result (λ both. formula.AreNamed names.now both.1) }
{
    let one = Formula::read(alloc, one, names)?;
    beside(one, Formula::read(alloc, other, names))
}

/// The labels of two texts.
pub fn read_labels(
    alloc: Global,
    names: &Names,
    one: &[u8],
    other: &[u8],
) -> Result<(Label, Label), TextFault>
    ensures one { IfOk result (λ both. label.AreNamed names.now both.0) }
    ensures other { IfOk result (λ both. label.AreNamed names.now both.1) }
{
    let one = Label::read(alloc, one, names)?;
    beside(one, Label::read(alloc, other, names))
}

/// The set of the principals with these names; bit n of it stands for principal n.
pub fn read_set(names: &Names, who: &[u8]) -> Result<u64, TextFault> {
    let mut set = 0;
    if who.is_empty() {
        return Ok(set);
    }
    let mut place = 0usize;
    for name in who.split(|byte| *byte == b' ') {
        let Some(number) = names.find(name) else {
            return Err(TextFault::Unknown(u32::try_from(place).unwrap_or(u32::MAX)));
        };
        set |= 1u64 << number;
        place = place.saturating_add(name.len()).saturating_add(1);
    }
    Ok(set)
}
