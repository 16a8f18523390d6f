//! The tests of guards: each gives the fault of the first that fails.
#![tactic(auto, unfolding(crate::specs::Guard::write_fault, crate::specs::Guard::release_fault))]

ghost use Rattle.std.specs.Prelude.{◌≡◌, ◌||◌, IfOk, Some, None, if◌then◌else◌};
ghost use Rattle.lio_labels.specs.Bounds.{join};
ghost use Rattle.lio_guards.specs.Width.{is_wide};
ghost use Rattle.lio_labels.specs.Privilege.{downgraded};
ghost use Rattle.lio_guards.specs.Guard.{exposed, release_fault, write_fault};

use lio_clauses::{FormFault, NoMemory};
use lio_labels::{Label, Priv};
use lio_values::FaultKind;
use std::alloc::Global;

/// The fault of making a target or of writing to it, if it may not be.
pub fn write_fault(
    alloc: Global,
    current: &Label,
    clearance: &Label,
    target: &Label,
) -> Result<Option<FaultKind>, NoMemory>
    ensures { IfOk result (λ fault. fault ≡ write_fault current.now clearance.now target.now) }
{
    if !current.flows(target) {
        Ok(Some(FaultKind::FlowCurrent(current.copy(alloc)?, target.copy(alloc)?)))
    } else if !target.flows(clearance) {
        Ok(Some(FaultKind::FlowClearance(target.copy(alloc)?, clearance.copy(alloc)?)))
    } else {
        Ok(None)
    }
}

/// The fault of a release from one label to another by a privilege, if it may not be.
pub fn release_fault(
    alloc: Global,
    source: &Label,
    target: &Label,
    power: &Priv,
) -> Result<Option<FaultKind>, NoMemory>
    ensures { IfOk result (λ fault. fault ≡ release_fault source.now target.now power.now) }
{
    if source.flows_with(power, target) {
        Ok(None)
    } else {
        Ok(Some(FaultKind::FlowPrivilege(
            power.copy(alloc)?,
            source.copy(alloc)?,
            target.copy(alloc)?,
        )))
    }
}

/// The join of two labels, unless it is wide.
pub fn narrow_join(
    alloc: Global,
    current: &Label,
    target: &Label,
) -> Result<Option<Label>, NoMemory>
    ensures { IfOk result (λ label. label ≡ (if is_wide (join current.now target.now) then None
        else Some (join current.now target.now))) }
{
    match current.join(alloc, target) {
        Ok(label) => Ok(Some(label)),
        Err(FormFault::Wide) => Ok(None),
        Err(FormFault::NoMemory) => Err(NoMemory),
    }
}

/// The current label at which a task goes on that exposes by a privilege what has the label
/// `source`, unless it is wide, or that label is as the privilege lowers it.
#[tactic(auto, unfolding(crate::specs::Guard::exposed))]
pub fn narrow_exposed(
    alloc: Global,
    current: &Label,
    source: &Label,
    power: &Priv,
) -> Result<Option<Label>, NoMemory>
    ensures { IfOk result (λ label. label ≡ (if is_wide (downgraded power.now source.now)
        || is_wide (exposed current.now source.now power.now) then None
        else Some (exposed current.now source.now power.now))) }
{
    match source.downgraded(alloc, power) {
        Ok(lowered) => narrow_join(alloc, current, &lowered),
        Err(FormFault::Wide) => Ok(None),
        Err(FormFault::NoMemory) => Err(NoMemory),
    }
}
