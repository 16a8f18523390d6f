//! Commands on formulas.
ghost use Rattle.std.specs.Prelude.{IfOk};
ghost use Rattle.lio_clauses.specs.FormulaPrint.{AreNamed};

use crate::answers::{Answer, Answered};
use crate::refusal::Refusal;
use lio_clauses::laws::{conjunction_is_named, disjunction_is_named};
use lio_clauses::{FormFault, Formula, Names, TextFault};
use lio_rows_fields::{read_formulas, read_set};
use std::alloc::Global;
use std::fmt::Write;
use std::str;

/// What a command on formulas answers, if the word and the number of fields are those of one.
pub fn answer(alloc: Global, names: &Names, word: &str, fields: &[Vec<u8>]) -> Answered {
    match (word, fields) {
        ("formula", [text]) => Some(formula(alloc, names, text)),
        ("and", [one, other]) => Some(and(alloc, names, one, other)),
        ("or", [one, other]) => Some(or(alloc, names, one, other)),
        ("implies", [one, other]) => Some(implies(alloc, names, one, other)),
        ("satisfied", [text, who]) => Some(satisfied(alloc, names, text, who)),
        ("equal", [one, other]) => Some(equal(alloc, names, one, other)),
        ("copy", [text]) => Some(copy(alloc, names, text)),
        ("constant", [name]) => Some(constant(alloc, names, name)),
        ("principal", [name]) => Some(principal(alloc, names, name)),
        ("clauses", clauses) => Some(of_clauses(alloc, names, clauses)),
        _ => None,
    }
}

/// The answer with the text of a formula.
pub fn shown(alloc: Global, names: &Names, formula: &Formula) -> Result<Answer, Refusal>
    requires { AreNamed names.now formula.now }
{
    Ok(Answer::Text(formula.print(alloc, names)?))
}

/// The answer with the text of a formula, if it was made.
fn made(
    alloc: Global,
    names: &Names,
    formula: Result<Formula, FormFault>,
) -> Result<Answer, Refusal>
    requires { IfOk formula (AreNamed names.now) }
{
    let formula = formula?;
    shown(alloc, names, &formula)
}

/// `formula TEXT`: the formula of the text.
fn formula(alloc: Global, names: &Names, text: &[u8]) -> Result<Answer, Refusal> {
    let formula = Formula::read(alloc, text, names)?;
    shown(alloc, names, &formula)
}

/// `and F G`: the conjunction.
fn and(alloc: Global, names: &Names, one: &[u8], other: &[u8]) -> Result<Answer, Refusal> {
    let (one, other) = read_formulas(alloc, names, one, other)?;
    conjunction_is_named();
    made(alloc, names, one.and(alloc, &other))
}

/// `or F G`: the disjunction.
fn or(alloc: Global, names: &Names, one: &[u8], other: &[u8]) -> Result<Answer, Refusal> {
    let (one, other) = read_formulas(alloc, names, one, other)?;
    disjunction_is_named();
    made(alloc, names, one.or(alloc, &other))
}

/// `implies F G`: whether the one implies the other.
fn implies(alloc: Global, names: &Names, one: &[u8], other: &[u8]) -> Result<Answer, Refusal> {
    let (one, other) = read_formulas(alloc, names, one, other)?;
    Ok(Answer::Truth(one.implies(&other)))
}

/// `satisfied F NAMES`: whether the set of principals with these names, with one blank between two,
/// satisfies the formula.
fn satisfied(alloc: Global, names: &Names, text: &[u8], who: &[u8]) -> Result<Answer, Refusal> {
    let formula = Formula::read(alloc, text, names)?;
    match read_set(names, who) {
        Ok(set) => Ok(Answer::Truth(formula.satisfied_by(set))),
        Err(fault) => Err(Refusal::Text(fault)),
    }
}

/// `equal F G`: whether the two formulas are equal.
fn equal(alloc: Global, names: &Names, one: &[u8], other: &[u8]) -> Result<Answer, Refusal> {
    let (one, other) = read_formulas(alloc, names, one, other)?;
    Ok(Answer::Truth(one == other))
}

/// The answer with the text of a copy of a formula.
fn copied(alloc: Global, names: &Names, formula: &Formula) -> Result<Answer, Refusal>
    requires { AreNamed names.now formula.now }
{
    let copy = formula.copy(alloc)?;
    shown(alloc, names, &copy)
}

/// `copy F`: a copy of the formula.
fn copy(alloc: Global, names: &Names, text: &[u8]) -> Result<Answer, Refusal> {
    let formula = Formula::read(alloc, text, names)?;
    copied(alloc, names, &formula)
}

/// `constant NAME`: the formula `truth` or `falsity`.
fn constant(alloc: Global, names: &Names, name: &[u8]) -> Result<Answer, Refusal> {
    let formula = match str::from_utf8(name).unwrap_or("") {
        "truth" => Formula::truth(alloc),
        "falsity" => Formula::falsity(alloc)?,
        _ => return Err(Refusal::NoCommand),
    };
    shown(alloc, names, &formula)
}

/// `principal NAME`: the formula of the principal with this name.
fn principal(alloc: Global, names: &Names, name: &[u8]) -> Result<Answer, Refusal> {
    let number = names.find(name).ok_or(TextFault::Unknown(0))?;
    let formula = Formula::of_one(alloc, number)?;
    shown(alloc, names, &formula)
}

/// `clauses NAMES..`: the clauses, as numbers whose bit n stands for principal n, of the canonical
/// form of these.
fn of_clauses(alloc: Global, names: &Names, fields: &[Vec<u8>]) -> Result<Answer, Refusal> {
    let mut masks = Vec::new(alloc);
    for field in fields {
        masks.push(read_set(names, field)?)?;
    }
    let formula = Formula::of_clauses(alloc, masks.as_slice())?;
    let mut text = String::new(alloc);
    for clause in formula.clauses() {
        if !text.is_empty() {
            text.push_str(" ")?;
        }
        write!(text, "{clause}")?;
    }
    Ok(Answer::Text(text.into_bytes()))
}
