//! The guards.
#![tactic(auto, unfolding(crate::specs::Guard::guarded, crate::specs::Guard::guarded_relabel))]

ghost use Rattle.std.specs.Prelude.{◌≡◌, IfOk, IsTrue};
ghost use Rattle.lio_labels.specs.Flow.{flows};
ghost use Rattle.lio_labels.specs.Bounds.{join};
ghost use Rattle.lio_guards.specs.Guard.{go_unless, guarded, guarded_expose, guarded_relabel};
ghost use Rattle.lio_guards.specs.Guard.{raise_fault, write_fault};
ghost use Rattle.std.specs.Option.{is_none};

use crate::class::Class;
use crate::faults::{narrow_exposed, narrow_join, release_fault, write_fault};
use crate::verdict::Verdict;
use lio_clauses::NoMemory;
use lio_labels::{Label, Priv};
use lio_values::{FaultKind, Op};
use std::alloc::Global;

/// Whether a target may be made or written to: the current label flows to it, and it to the
/// clearance. It takes no memory.
#[inline(always)]
#[tactic(auto, unfolding(crate::specs::Guard::write_fault))]
pub fn may_write(current: &Label, clearance: &Label, target: &Label) -> bool
    ensures { result ≡ is_none (write_fault current.now clearance.now target.now) }
{
    current.flows(target) && target.flows(clearance)
}

/// The verdict on an operation that makes the target or writes to it, and goes on at `label`.
fn write(
    alloc: Global,
    current: &Label,
    clearance: &Label,
    target: &Label,
    label: &Label,
) -> Result<Verdict, NoMemory>
    ensures { IfOk result (λ verdict. verdict
        ≡ go_unless (write_fault current.now clearance.now target.now) label.now) }
{
    match write_fault(alloc, current, clearance, target)? {
        Some(kind) => Ok(Verdict::No(kind)),
        None => Ok(Verdict::Go(label.copy(alloc)?)),
    }
}

/// The verdict on an operation that learns from the target.
#[tactic(auto, unfolding(crate::specs::Guard::raise_fault))]
fn raise(
    alloc: Global,
    current: &Label,
    clearance: &Label,
    target: &Label,
) -> Result<Verdict, NoMemory>
    ensures { IfOk result (λ verdict. verdict ≡ go_unless (raise_fault current.now
        clearance.now target.now) (join current.now target.now)) }
{
    match narrow_join(alloc, current, target)? {
        Some(label) => {
            if label.flows(clearance) {
                Ok(Verdict::Go(label))
            } else {
                Ok(Verdict::No(FaultKind::FlowRaise(label, clearance.copy(alloc)?)))
            }
        }
        None => Ok(Verdict::No(FaultKind::LabelWide(current.copy(alloc)?, target.copy(alloc)?))),
    }
}

/// Whether a task with this current label and clearance may do the operation on a target with this
/// label, and the current label at which it goes on. For `Lower` the target is the new clearance.
pub fn guard(
    alloc: Global,
    op: Op,
    current: &Label,
    clearance: &Label,
    target: &Label,
) -> Result<Verdict, NoMemory>
    requires { IsTrue (flows current.now clearance.now) }
    ensures { IfOk result (λ verdict. verdict ≡ guarded op current.now clearance.now target.now) }
{
    match Class::of(op) {
        Class::Write => write(alloc, current, clearance, target, current),
        Class::Raise => raise(alloc, current, clearance, target),
        Class::Exchange => write(alloc, current, clearance, target, target),
    }
}

/// Whether a task with this current label and clearance may release to `target`, by a privilege,
/// what has the label `source`.
pub fn guard_relabel(
    alloc: Global,
    current: &Label,
    clearance: &Label,
    source: &Label,
    target: &Label,
    power: &Priv,
) -> Result<Verdict, NoMemory>
    requires { IsTrue (flows current.now clearance.now) }
    ensures { IfOk result (λ verdict. verdict
        ≡ guarded_relabel current.now clearance.now source.now target.now power.now) }
{
    if let Some(kind) = write_fault(alloc, current, clearance, target)? {
        return Ok(Verdict::No(kind));
    }
    if let Some(kind) = release_fault(alloc, source, target, power)? {
        return Ok(Verdict::No(kind));
    }
    Ok(Verdict::Go(current.copy(alloc)?))
}

/// Whether a task with this current label and clearance may expose, by a privilege, what has the
/// label `source`, and the current label at which it goes on: raised by what the privilege doesn't
/// cover.
#[tactic(auto, unfolding(crate::specs::Guard::expose_fault, crate::specs::Guard::guarded_expose))]
pub fn guard_expose(
    alloc: Global,
    current: &Label,
    clearance: &Label,
    source: &Label,
    power: &Priv,
) -> Result<Verdict, NoMemory>
    requires { IsTrue (flows current.now clearance.now) }
    ensures { IfOk result (λ verdict. verdict
        ≡ guarded_expose current.now clearance.now source.now power.now) }
{
    match narrow_exposed(alloc, current, source, power)? {
        Some(raised) => {
            if raised.flows(clearance) {
                Ok(Verdict::Go(raised))
            } else {
                Ok(Verdict::No(FaultKind::FlowRaise(raised, clearance.copy(alloc)?)))
            }
        }
        None => Ok(Verdict::No(FaultKind::LabelWide(current.copy(alloc)?, source.copy(alloc)?))),
    }
}
