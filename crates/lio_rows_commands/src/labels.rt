//! Commands on labels and privileges.
ghost use Rattle.std.specs.Prelude.{IfOk};
ghost use Rattle.lio_clauses.specs.FormulaPrint as formula;
ghost use Rattle.lio_labels.specs.LabelPrint.{AreNamed};

use crate::answers::{Answer, Answered};
use crate::formulas;
use crate::refusal::Refusal;
use lio_clauses::{FormFault, Formula, Names, TextFault};
use lio_labels::laws::{join_is_named, meet_is_named};
use lio_labels::{Label, Priv};
use lio_rows_fields::read_labels;
use std::alloc::Global;
use std::str;

/// What a command on labels answers, if the word and the number of fields are those of one.
pub fn answer(alloc: Global, names: &Names, word: &str, fields: &[Vec<u8>]) -> Answered {
    match (word, fields) {
        ("label", [text]) => Some(label(alloc, names, text)),
        ("flows", [from, to]) => Some(flows(alloc, names, from, to)),
        ("with", [power, from, to]) => Some(flows_with(alloc, names, power, from, to)),
        ("join", [one, other]) => Some(join(alloc, names, one, other)),
        ("meet", [one, other]) => Some(meet(alloc, names, one, other)),
        ("equal_labels", [one, other]) => Some(equal(alloc, names, one, other)),
        ("copy_label", [text]) => Some(copy(alloc, names, text)),
        ("constant_label", [name]) => Some(constant(alloc, names, name)),
        ("copy_privilege", [power]) => Some(copy_privilege(alloc, names, power)),
        ("equal_privileges", [one, other]) => Some(equal_privileges(alloc, names, one, other)),
        _ => None,
    }
}

/// The answer with the text of a label.
fn shown(alloc: Global, names: &Names, label: &Label) -> Result<Answer, Refusal>
    requires { AreNamed names.now label.now }
{
    Ok(Answer::Text(label.print(alloc, names)?))
}

/// The answer with the text of a label, if it was made.
fn made(alloc: Global, names: &Names, label: Result<Label, FormFault>) -> Result<Answer, Refusal>
    requires { IfOk label (AreNamed names.now) }
{
    let label = label?;
    shown(alloc, names, &label)
}

/// `label TEXT`: the label of the text.
fn label(alloc: Global, names: &Names, text: &[u8]) -> Result<Answer, Refusal> {
    let label = Label::read(alloc, text, names)?;
    shown(alloc, names, &label)
}

/// `flows L M`: whether the one flows to the other.
fn flows(alloc: Global, names: &Names, from: &[u8], to: &[u8]) -> Result<Answer, Refusal> {
    let (from, to) = read_labels(alloc, names, from, to)?;
    Ok(Answer::Truth(from.flows(&to)))
}

/// The privilege of a formula's text.
fn read_privilege(alloc: Global, names: &Names, power: &[u8]) -> Result<Priv, TextFault>
    ensures { IfOk result (λ privilege. formula.AreNamed names.now privilege.power) }
{
    Ok(Priv {
        power: Formula::read(alloc, power, names)?,
    })
}

/// `with P L M`: whether the one flows to the other with the privilege.
fn flows_with(
    alloc: Global,
    names: &Names,
    power: &[u8],
    from: &[u8],
    to: &[u8],
) -> Result<Answer, Refusal> {
    let privilege = read_privilege(alloc, names, power)?;
    match read_labels(alloc, names, from, to) {
        Ok((from, to)) => Ok(Answer::Truth(from.flows_with(&privilege, &to))),
        Err(fault) => Err(Refusal::Text(fault)),
    }
}

/// `join L M`: the least label to which both flow.
fn join(alloc: Global, names: &Names, one: &[u8], other: &[u8]) -> Result<Answer, Refusal> {
    let (one, other) = read_labels(alloc, names, one, other)?;
    join_is_named();
    made(alloc, names, one.join(alloc, &other))
}

/// `meet L M`: the greatest label that flows to both.
fn meet(alloc: Global, names: &Names, one: &[u8], other: &[u8]) -> Result<Answer, Refusal> {
    let (one, other) = read_labels(alloc, names, one, other)?;
    meet_is_named();
    made(alloc, names, one.meet(alloc, &other))
}

/// `equal_labels L M`: whether the two labels are equal.
fn equal(alloc: Global, names: &Names, one: &[u8], other: &[u8]) -> Result<Answer, Refusal> {
    let (one, other) = read_labels(alloc, names, one, other)?;
    Ok(Answer::Truth(one == other))
}

/// The answer with the text of a copy of a label.
fn copied(alloc: Global, names: &Names, label: &Label) -> Result<Answer, Refusal>
    requires { AreNamed names.now label.now }
{
    let copy = label.copy(alloc)?;
    shown(alloc, names, &copy)
}

/// `copy_label L`: a copy of the label.
fn copy(alloc: Global, names: &Names, text: &[u8]) -> Result<Answer, Refusal> {
    let label = Label::read(alloc, text, names)?;
    copied(alloc, names, &label)
}

/// `constant_label NAME`: the label `least`, `greatest` or `public`.
fn constant(alloc: Global, names: &Names, name: &[u8]) -> Result<Answer, Refusal> {
    let label = match str::from_utf8(name).unwrap_or("") {
        "least" => Label::least(alloc)?,
        "greatest" => Label::greatest(alloc)?,
        "public" => Label::public(alloc)?,
        _ => return Err(Refusal::NoCommand),
    };
    shown(alloc, names, &label)
}

/// `copy_privilege P`: a copy of the privilege.
fn copy_privilege(alloc: Global, names: &Names, power: &[u8]) -> Result<Answer, Refusal> {
    let copy = read_privilege(alloc, names, power)?.copy(alloc)?;
    formulas::shown(alloc, names, &copy.power)
}

/// `equal_privileges P Q`: whether the two privileges are equal.
fn equal_privileges(
    alloc: Global,
    names: &Names,
    one: &[u8],
    other: &[u8],
) -> Result<Answer, Refusal> {
    let one = read_privilege(alloc, names, one)?;
    let other = read_privilege(alloc, names, other)?;
    Ok(Answer::Truth(one == other))
}
