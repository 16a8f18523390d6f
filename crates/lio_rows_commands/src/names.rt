//! Commands on the list of principals.
ghost use Rattle.std.specs.Prelude.{◌≡◌, ◌++◌, length, map, IfOk, OnOk, OnErr};

use crate::answers::{Answer, Answered};
use crate::refusal::Refusal;
use lio_clauses::Names;
use std::alloc::Global;

/// What a command on the list answers that changes nothing, if the word and the number of fields
/// are those of one.
pub fn answer(alloc: Global, names: &Names, word: &str, fields: &[Vec<u8>]) -> Answered {
    match (word, fields) {
        ("find", [name]) => Some(find(alloc, names, name)),
        _ => None,
    }
}

/// `names NAME..`: begins a new list with these names, and answers their count. The names before a
/// refused one stay.
pub fn begin(alloc: Global, names: &mut Names, fields: &[Vec<u8>]) -> Result<Answer, Refusal>
    ensures count { IfOk result (λ answer. answer ≡ Answer.Number (length fields.now)) }
    ensures names { OnOk result (names.new ≡ map (λ field. field.items) fields.now) }
{
    *names = Names::new(alloc)?;
    for name in fields {
        names.add(alloc, name.as_slice())?;
    }
    Ok(Answer::Number(names.len()))
}

/// `add NAME`: adds a name, and answers its number.
pub fn add(alloc: Global, names: &mut Names, fields: &[Vec<u8>]) -> Result<Answer, Refusal>
    ensures number { IfOk result (λ answer. answer ≡ Answer.Number (length names.old)) }
    ensures added { OnOk result (names.new ≡ names.old ++ map (λ field. field.items) fields.now) }
    ensures unchanged { OnErr result (names.new ≡ names.old) }
{
    match fields {
        [name] => Ok(Answer::Number(names.add(alloc, name.as_slice())?)),
        _ => Err(Refusal::NoCommand),
    }
}

/// `find NAME`: the number of the principal with this name, or `none`.
fn find(alloc: Global, names: &Names, name: &[u8]) -> Result<Answer, Refusal> {
    match names.find(name) {
        Some(number) => Ok(Answer::Number(number)),
        None => Ok(Answer::Text(Vec::from_slice(alloc, b"none")?)),
    }
}
