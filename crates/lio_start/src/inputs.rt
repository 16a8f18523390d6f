//! The inputs of a policy with their texts, sealed, and what the arguments of a task stand for.
ghost use Rattle.std.specs.Prelude.{◌≡◌, ◌<◌, ◌≤◌, All, IfOk, map};
ghost use Rattle.lio_values.specs.Measures.{value_depth};
ghost use Rattle.lio_values.specs.Views.{forest_of};
ghost use Rattle.lio_start.specs.Start.{argument_of, input_content, sealed_input, sealed_inputs};

use lio_clauses::NoMemory;
use lio_labels::Label;
use lio_policy::{Arg, FileEntry};
use lio_values::{Content, Fault, FaultKind, Held, Items, Plain, Text, Value, Values};
use std::alloc::Global;

/// What is in an input: its text, or a fault at its label where the text is longer than texts may
/// be.
fn input_content(
    alloc: Global,
    longest: u32,
    label: &Label,
    text: &Text,
) -> Result<Content, NoMemory>
    ensures { IfOk result (λ content. content ≡ input_content longest label.now text.now) }
{
    if text.bytes().len() <= longest as usize {
        return Ok(Content::Kept(Plain::Bytes(text.copy(alloc)?)));
    }
    let at = label.copy(alloc)?;
    let fault = Fault {
        kind: FaultKind::TooLong,
        at,
    };
    Ok(Content::Faulted(Held::new(alloc, fault)?))
}

/// An input with its text, sealed under its label.
fn sealed_input(
    alloc: Global,
    longest: u32,
    input: &FileEntry,
    text: &Text,
) -> Result<Value, NoMemory>
    ensures { IfOk result (λ value. value ≡ sealed_input longest input.now text.now) }
{
    let label = input.label.copy(alloc)?;
    let content = input_content(alloc, longest, &input.label, text)?;
    Ok(Value::Sealed(label, Held::new(alloc, content)?))
}

/// The inputs with their texts, as far as there are texts, each sealed under its label.
pub(crate) fn sealed_inputs(
    alloc: Global,
    longest: u32,
    inputs: &[FileEntry],
    texts: &[Text],
) -> Result<Values, NoMemory>
    ensures { IfOk result (λ values. values ≡ sealed_inputs longest inputs.now texts.now) }
{
    let mut values = Values::new(alloc);
    for (place, input) in inputs.iter().enumerate() {
        let Some(text) = texts.get(place) else {
            return Ok(values);
        };
        values.push(sealed_input(alloc, longest, input, text)?)?;
    }
    Ok(values)
}

/// What an argument is, over the sealed inputs.
#[cycle(argument)]
fn argument(alloc: Global, arg: &Arg, inputs: &Values) -> Result<Value, NoMemory>
    requires { value_depth (argument_of inputs.now arg.now) ≤ 8 }
    ensures { IfOk result (λ value. value ≡ argument_of inputs.now arg.now) }
{
    match arg {
        Arg::Input(place) => match inputs.as_slice().get(*place as usize) {
            Some(value) => value.copy(alloc),
            None => Ok(Value::Bare(Plain::Unit)),
        },
        Arg::Fixed(plain) => Ok(Value::Bare(plain.copy(alloc)?)),
        Arg::Items(args) => {
            let items = items(alloc, args.as_slice(), inputs)?;
            Ok(Value::Bare(Plain::Items(items)))
        }
    }
}

/// The list of what the arguments are, over the sealed inputs.
#[cycle(argument)]
fn items(alloc: Global, args: &[Arg], inputs: &Values) -> Result<Items, NoMemory>
    requires { All (λ arg. value_depth (argument_of inputs.now arg) < 8) args.now }
    ensures { IfOk result
        (λ items. items ≡ forest_of (map (argument_of inputs.now) args.now)) }
{
    let mut items = Items::new(alloc);
    for arg in args {
        items.push(argument(alloc, arg, inputs)?)?;
    }
    Ok(items)
}

/// What the arguments are, over the sealed inputs.
pub(crate) fn arguments(alloc: Global, inputs: &Values, args: &[Arg]) -> Result<Values, NoMemory>
    requires { All (λ arg. value_depth (argument_of inputs.now arg) ≤ 8) args.now }
    ensures { IfOk result (λ values. values ≡ map (argument_of inputs.now) args.now) }
{
    let mut values = Values::new(alloc);
    for arg in args {
        values.push(argument(alloc, arg, inputs)?)?;
    }
    Ok(values)
}
