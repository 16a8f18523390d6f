//! What operands stand for, and views of it by kind.
ghost use Rattle.std.specs.Prelude.{◌≡◌, IfOk, Some, is_some, option_and_then};
ghost use Rattle.std.specs.Option.{option_copied};
ghost use Rattle.lio_syntax.specs.Environment.{Environment};
ghost use Rattle.lio_calculus.specs.Operands.{bound, all_bound, bare_of, pure_of, seen_as};
ghost use Rattle.lio_calculus.specs.Operands.{flag_of};
ghost use Rattle.lio_calculus.specs.Operands.{label_of, power_of, text_of, count_of, reference_of};
ghost use Rattle.lio_calculus.specs.Operands.{variable_of, result_of, channel_of, sealed_of};
ghost use Rattle.lio_task_turns.specs.Operands.{sealed_now, sealed_value_of, literal_of};

use lio_clauses::NoMemory;
use lio_labels::{Label, Priv};
use lio_syntax_lines::{Operand, Operands};
use lio_task_control::Environment;
use lio_values::{Content, Handle, Plain, Text, Value, Values};
use std::alloc::Global;

/// A plain value, if it is pure.
#[inline(always)]
fn pure_of(plain: &Plain) -> Option<&Plain>
    ensures { option_copied result ≡ pure_of plain.now }
{
    if plain.is_pure() { Some(plain) } else { None }
}

/// The plain value that an operand stands for, if it is bare.
#[inline(always)]
pub fn bare<'a>(environment: &'a Environment, operand: &'a Operand) -> Option<&'a Plain>
    ensures { option_copied result ≡ seen_as Some environment.now operand.now }
{
    match operand {
        Operand::Name(name) => match environment.get(name)? {
            Value::Bare(plain) => Some(plain),
            Value::Sealed(_, _) => None,
        },
        Operand::Literal(plain) => pure_of(plain),
    }
}

/// The plain value that an operand stands for, if it is pure.
pub fn pure<'a>(environment: &'a Environment, operand: &'a Operand) -> Option<&'a Plain>
    ensures { option_copied result ≡ seen_as pure_of environment.now operand.now }
{
    pure_of(bare(environment, operand)?)
}

/// The value that an operand stands for, where a name is bound to a sealed one.
pub fn sealed_value<'a>(environment: &'a Environment, operand: &Operand) -> Option<&'a Value>
    ensures { option_copied result ≡ option_and_then sealed_value_of
        (bound environment.now operand.now) }
{
    match operand {
        Operand::Name(name) => match environment.get(name)? {
            Value::Bare(_) => None,
            sealed => Some(sealed),
        },
        Operand::Literal(_) => None,
    }
}

/// The label and the content of a sealed value.
pub fn sealed<'a>(
    environment: &'a Environment,
    operand: &'a Operand,
) -> Option<(&'a Label, &'a Content)>
    ensures { sealed_now result ≡ option_and_then sealed_of (bound environment.now operand.now) }
{
    match operand {
        Operand::Name(name) => match environment.get(name)? {
            Value::Bare(_) => None,
            Value::Sealed(label, content) => Some((label, content.get())),
        },
        Operand::Literal(_) => None,
    }
}

/// A copy of the value that an operand stands for.
pub fn value(
    alloc: Global,
    environment: &Environment,
    operand: &Operand,
) -> Result<Option<Value>, NoMemory>
    ensures { IfOk result (λ value. value ≡ bound environment.now operand.now) }
{
    match operand {
        Operand::Name(name) => match environment.get(name) {
            Some(value) => Ok(Some(value.copy(alloc)?)),
            None => Ok(None),
        },
        Operand::Literal(_) => literal(alloc, operand),
    }
}

/// The value of a literal.
pub fn literal(alloc: Global, operand: &Operand) -> Result<Option<Value>, NoMemory>
    ensures { IfOk result (λ value. value ≡ literal_of operand.now) }
{
    match operand {
        Operand::Name(_) => Ok(None),
        Operand::Literal(plain) => match pure_of(plain) {
            Some(plain) => Ok(Some(Value::Bare(plain.copy(alloc)?))),
            None => Ok(None),
        },
    }
}

/// The value that an operand stands for, where it stands: in the environment, or as the value of
/// the literal.
pub fn bound<'a>(
    environment: &'a Environment,
    operand: &Operand,
    literal: &'a Option<Value>,
) -> Option<&'a Value>
    requires { literal.now ≡ literal_of operand.now }
    ensures { option_copied result ≡ bound environment.now operand.now }
{
    match operand {
        Operand::Name(name) => environment.get(name),
        Operand::Literal(_) => literal.as_ref(),
    }
}

/// Whether an operand stands for a value.
pub fn is_bound(environment: &Environment, operand: &Operand) -> bool
    ensures { result ≡ is_some (bound environment.now operand.now) }
{
    match operand {
        Operand::Name(name) => environment.get(name).is_some(),
        Operand::Literal(plain) => plain.is_pure(),
    }
}

/// Copies of the values that operands stand for, where each is bound.
pub fn values(
    alloc: Global,
    environment: &Environment,
    operands: &Operands,
) -> Result<Option<Values>, NoMemory>
    ensures { IfOk result (λ values. values ≡ all_bound environment.now operands.now) }
{
    let mut values = Values::new(alloc);
    for operand in operands.as_slice() {
        let Some(value) = value(alloc, environment, operand)? else {
            return Ok(None);
        };
        values.push(value)?;
    }
    Ok(Some(values))
}

/// A flag.
pub fn flag(environment: &Environment, operand: &Operand) -> Option<bool>
    ensures { result ≡ seen_as flag_of environment.now operand.now }
{
    match bare(environment, operand)? {
        Plain::Flag(flag) => Some(*flag),
        _ => None,
    }
}

/// A label.
pub fn label<'a>(environment: &'a Environment, operand: &'a Operand) -> Option<&'a Label>
    ensures { option_copied result ≡ seen_as label_of environment.now operand.now }
{
    match bare(environment, operand)? {
        Plain::Lab(label) => Some(label),
        _ => None,
    }
}

/// A privilege.
pub fn power<'a>(environment: &'a Environment, operand: &'a Operand) -> Option<&'a Priv>
    ensures { option_copied result ≡ seen_as power_of environment.now operand.now }
{
    match bare(environment, operand)? {
        Plain::Power(power) => Some(power),
        _ => None,
    }
}

/// A text.
pub fn text<'a>(environment: &'a Environment, operand: &'a Operand) -> Option<&'a Text>
    ensures { option_copied result ≡ seen_as text_of environment.now operand.now }
{
    match bare(environment, operand)? {
        Plain::Bytes(text) => Some(text),
        _ => None,
    }
}

/// A whole from 0 to 4,294,967,295.
pub fn count(environment: &Environment, operand: &Operand) -> Option<u32>
    ensures { result ≡ seen_as count_of environment.now operand.now }
{
    match bare(environment, operand)? {
        Plain::Whole(number) => u32::try_from(*number).ok(),
        _ => None,
    }
}

/// A reference.
pub fn reference<'a>(environment: &'a Environment, operand: &'a Operand) -> Option<&'a Handle>
    ensures { option_copied result ≡ seen_as reference_of environment.now operand.now }
{
    match bare(environment, operand)? {
        Plain::RefOf(handle) => Some(handle),
        _ => None,
    }
}

/// A variable.
pub fn variable<'a>(environment: &'a Environment, operand: &'a Operand) -> Option<&'a Handle>
    ensures { option_copied result ≡ seen_as variable_of environment.now operand.now }
{
    match bare(environment, operand)? {
        Plain::VarOf(handle) => Some(handle),
        _ => None,
    }
}

/// A task's result.
pub fn task_result<'a>(environment: &'a Environment, operand: &'a Operand) -> Option<&'a Handle>
    ensures { option_copied result ≡ seen_as result_of environment.now operand.now }
{
    match bare(environment, operand)? {
        Plain::ResultOf(handle) => Some(handle),
        _ => None,
    }
}

/// A channel.
pub fn channel<'a>(environment: &'a Environment, operand: &'a Operand) -> Option<&'a Handle>
    ensures { option_copied result ≡ seen_as channel_of environment.now operand.now }
{
    match bare(environment, operand)? {
        Plain::ChanOf(handle) => Some(handle),
        _ => None,
    }
}
