//! An operation on labels, and how often it is repeated.
ghost use Rattle.std.specs.Prelude.{◌≡◌, ◌≤◌, IfOk};
ghost use Rattle.lio_labels.specs.IsLabel.{IsLabel};

use lio_clauses::{FormFault, Formula, NoMemory};
use lio_labels::{Label, laws};
use std::alloc::Global;

/// The most clauses of a formula.
const MOST_CLAUSES: u32 = 64;

/// An operation on labels.
#[derive(Clone, Copy)]
pub enum Operation {
    /// Whether one label flows to the other.
    Flows,
    /// The join of both.
    Join,
    /// A copy of one.
    Copy,
}

/// An operation on two equal labels, repeated.
#[derive(Clone, Copy)]
pub struct LabelWork {
    operation: Operation,
    /// The clauses of each part of the labels.
    clauses: u32,
    times: u32,
    ghost few: { clauses ≤ 64 },
}

impl Operation {
    /// The operation of a name.
    fn of_name(name: &str) -> Option<Operation> {
        match name {
            "flows" => Some(Operation::Flows),
            "join" => Some(Operation::Join),
            "copy" => Some(Operation::Copy),
            _ => None,
        }
    }
}

/// Gives clauses of one principal each, as sets of principals.
fn clauses_of(alloc: Global, count: u32) -> Result<Vec<u64>, NoMemory>
    requires { count ≤ 64 }
{
    let mut clauses = Vec::new(alloc);
    for principal in 0..count {
        clauses.push(1 << principal)?;
    }
    Ok(clauses)
}

/// Gives a formula of clauses of one principal each.
fn formula_of(alloc: Global, count: u32) -> Result<Formula, FormFault>
    requires { count ≤ 64 }
{
    let clauses = clauses_of(alloc, count)?;
    Formula::of_clauses(alloc, clauses.as_slice())
}

/// The operation on two equal labels, which makes an equal one.
fn once(
    alloc: Global,
    operation: Operation,
    label: &Label,
    other: Label,
) -> Result<Label, FormFault>
    requires equal { other ≡ label.now }
    requires canonical { IsLabel label.now }
    ensures { IfOk result (λ made. made ≡ label.now) }
{
    match operation {
        Operation::Flows => {
            let _ = label.flows(&other);
            Ok(other)
        }
        Operation::Join => label.join(alloc, &other),
        Operation::Copy => Ok(other.copy(alloc)?),
    }
}

impl LabelWork {
    /// The operation of a name on labels with so many clauses a part, at most 64.
    pub fn new(name: &str, clauses: u32, times: u32) -> Option<LabelWork> {
        let operation = Operation::of_name(name)?;
        if clauses <= MOST_CLAUSES {
            Some(LabelWork {
                operation,
                clauses,
                times,
            })
        } else {
            None
        }
    }

    /// Makes two equal labels, and repeats the operation on them.
    pub fn run(&self, alloc: Global) -> Result<(), FormFault> {
        let label = Label {
            secrecy: formula_of(alloc, self.clauses)?,
            integrity: formula_of(alloc, self.clauses)?,
        };
        laws::label_is_canonical(&label);
        let mut other = label.copy(alloc)?;
        for _ in 0..self.times {
            other = once(alloc, self.operation, &label, other)?;
        }
        Ok(())
    }
}
