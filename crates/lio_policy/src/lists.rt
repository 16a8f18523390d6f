//! How deep and how large arguments are, and how many inputs stand in them. Where a number doesn't
//! fit into 64 bits it is the greatest that does.
ghost use Rattle.std.specs.Prelude.{◌≡◌, ◌<◌, ◌^◌, length, map};
ghost use Rattle.lio_values.specs.Measures.{label_size};
ghost use Rattle.lio_policy.specs.Lists as spec;
ghost use Rattle.lio_policy.specs.Lists.{IsExtent, in_all};

use crate::policy::{Arg, FileEntry};
use lio_clauses::Formula;
use lio_labels::Label;

/// How deep and how large an argument is, and how many inputs it has.
#[derive(Clone, Copy, Debug)]
pub(crate) struct ArgExtent {
    /// 0, and of a list one more than the depth of its deepest item.
    pub(crate) depth: u64,
    /// That of its value: an input is as large as its label, and a list has 1 and the sizes of its
    /// items.
    pub(crate) size: u64,
    /// How many inputs it is or has, at every depth of a list.
    pub(crate) inputs: u64,
}

/// The number of a formula's clauses.
fn clauses(formula: &Formula) -> u64
    ensures count { result ≡ length formula.now }
    ensures few { result < 2 ^ 7 }
{
    formula.clauses().len() as u64
}

/// The size of what keeps a label.
fn label_size(label: &Label) -> u64
    ensures size { result ≡ label_size label.now }
    ensures fits { result < 2 ^ 16 }
{
    8 * (clauses(&label.secrecy) + clauses(&label.integrity)) + 1
}

/// The size of an input.
fn input_size(inputs: &[FileEntry], place: u32) -> u64
    ensures size { result ≡ spec.input_size inputs.now place }
    ensures fits { result < 2 ^ 16 }
{
    match inputs.get(place as usize) {
        Some(input) => label_size(&input.label),
        None => 0,
    }
}

/// How deep and how large an argument is, and how many inputs it has.
#[cycle(extent)]
pub(crate) fn extent(inputs: &[FileEntry], arg: &Arg) -> ArgExtent
    ensures { IsExtent (spec.extent inputs.now arg.now) result }
{
    match arg {
        Arg::Input(place) => ArgExtent {
            depth: 0,
            size: input_size(inputs, *place),
            inputs: 1,
        },
        Arg::Fixed(value) => ArgExtent {
            depth: 0,
            size: value.size(),
            inputs: 0,
        },
        Arg::Items(args) => {
            let items = extent_in_all(inputs, args.as_slice());
            ArgExtent {
                depth: items.depth.saturating_add(1),
                size: items.size.saturating_add(1),
                inputs: items.inputs,
            }
        }
    }
}

/// The greatest depth of some arguments, their sizes in all, and the inputs of all.
#[cycle(extent)]
fn extent_in_all(inputs: &[FileEntry], args: &[Arg]) -> ArgExtent
    ensures { IsExtent (in_all (map (spec.extent inputs.now) args.now)) result }
{
    let mut all = ArgExtent {
        depth: 0,
        size: 0,
        inputs: 0,
    };
    for arg in args {
        let one = extent(inputs, arg);
        all.depth = all.depth.max(one.depth);
        all.size = all.size.saturating_add(one.size);
        all.inputs = all.inputs.saturating_add(one.inputs);
    }
    all
}
