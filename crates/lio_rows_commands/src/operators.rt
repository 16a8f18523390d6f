//! Commands on operators.
ghost use Rattle.lio_values.specs.Named.{IsFaultNamed, IsKindNamed, IsValueNamed};
ghost use Rattle.lio_rows_commands.specs.Given.{IsGivenNamed};

use crate::answers::{Answer, Answered, finished};
use crate::refusal::Refusal;
use lio_clauses::Names;
use lio_events::{print_content, print_value};
use lio_labels::Label;
use lio_operators::{OpFault, operate1, operate2};
use lio_rows_fields::{Words, read_value};
use lio_syntax_lines::{One, Two};
use lio_values::{Content, Fault, FaultKind, Held, Value};
use std::alloc::Global;

/// What a command on operators answers, if the word is that of one.
pub fn answer(alloc: Global, names: &Names, word: &str, fields: &[Vec<u8>]) -> Answered {
    let mut words = Words::new(fields);
    match word {
        "operate1" => Some(finished(one(&mut words, alloc, names), &words)),
        "operate2" => Some(finished(two(&mut words, alloc, names), &words)),
        _ => None,
    }
}

/// `operate1 LONGEST OP VALUE`: what the operator gives, where texts may have so many bytes.
fn one(words: &mut Words, alloc: Global, names: &Names) -> Result<Answer, Refusal> {
    let longest = words.number()?;
    let Some(op) = One::find(words.next()?) else {
        return Err(Refusal::NoCommand);
    };
    let a = read_value(words, alloc, names)?;
    let answer = on_one(alloc, names, op, &a, longest);
    drop(a);
    answer
}

/// `operate2 LONGEST OP VALUE VALUE`: what the operator gives, where texts may have so many bytes.
fn two(words: &mut Words, alloc: Global, names: &Names) -> Result<Answer, Refusal> {
    let longest = words.number()?;
    let Some(op) = Two::find(words.next()?) else {
        return Err(Refusal::NoCommand);
    };
    let a = read_value(words, alloc, names)?;
    let answer = with_next(words, alloc, names, &a, op, longest);
    drop(a);
    answer
}

/// What an operator gives on a value and the next one.
fn with_next(
    words: &mut Words,
    alloc: Global,
    names: &Names,
    a: &Value,
    op: Two,
    longest: u32,
) -> Result<Answer, Refusal>
    requires { IsValueNamed names.now a.now }
{
    let b = read_value(words, alloc, names)?;
    let answer = on_two(alloc, names, op, a, &b, longest);
    drop(b);
    answer
}

/// What an operator on one value gives.
fn on_one(alloc: Global, names: &Names, op: One, a: &Value, longest: u32) -> Result<Answer, Refusal>
    requires { IsValueNamed names.now a.now }
{
    given(alloc, names, operate1(alloc, op, a, longest))
}

/// What an operator on two values gives.
fn on_two(
    alloc: Global,
    names: &Names,
    op: Two,
    a: &Value,
    b: &Value,
    longest: u32,
) -> Result<Answer, Refusal>
    requires left { IsValueNamed names.now a.now }
    requires right { IsValueNamed names.now b.now }
{
    given(alloc, names, operate2(alloc, op, a, b, longest))
}

/// The text of the content with which a public task ends that returns what an operator gives.
fn given(alloc: Global, names: &Names, given: Result<Value, OpFault>) -> Result<Answer, Refusal>
    requires { IsGivenNamed names.now given }
{
    match given {
        Ok(value) => returned(alloc, names, value),
        Err(OpFault::Kind(kind)) => faulted(alloc, names, kind),
        Err(OpFault::NoMemory) => Err(Refusal::NoMemory),
    }
}

/// The text of the content with which a public task ends that returns a value: of a fault where the
/// value isn't pure.
fn returned(alloc: Global, names: &Names, value: Value) -> Result<Answer, Refusal>
    requires { IsValueNamed names.now value }
{
    let text = if value.is_pure() {
        Some(print_value(alloc, &value, names))
    } else {
        None
    };
    drop(value);
    match text {
        Some(text) => Ok(Answer::Text(text?)),
        None => faulted(alloc, names, FaultKind::BadType),
    }
}

/// The text of a fault that a public task ends with.
fn faulted(alloc: Global, names: &Names, kind: FaultKind) -> Result<Answer, Refusal>
    requires { IsKindNamed names.now kind }
{
    match Label::public(alloc) {
        Ok(at) => thrown(alloc, names, Fault { kind, at }),
        Err(_) => {
            drop(kind);
            Err(Refusal::NoMemory)
        }
    }
}

/// The text of a content that is a fault.
fn thrown(alloc: Global, names: &Names, fault: Fault) -> Result<Answer, Refusal>
    requires { IsFaultNamed names.now fault }
{
    let content = Content::Faulted(Held::new(alloc, fault)?);
    let text = print_content(alloc, &content, names);
    drop(content);
    Ok(Answer::Text(text?))
}
