//! Which operand of a statement is wrong.

use crate::seen::{Kind, Seen, Want, value_seen};
use lio_syntax_lines::{One, Operand, Operands, Simple, Two};
use lio_task_control::{Environment, Front};

/// An operand that isn't what it is to be.
#[derive(Clone, Copy)]
pub(crate) struct Wrong<'a> {
    pub operand: &'a Operand,
    pub seen: Seen<'a>,
    pub want: Want,
}

/// An operand, unless it is what it is to be.
fn check<'a>(names: &'a Environment, operand: &'a Operand, want: Want) -> Option<Wrong<'a>> {
    let seen = value_seen(names, operand);
    if want.is_met(seen) {
        return None;
    }
    Some(Wrong {
        operand,
        seen,
        want,
    })
}

/// The first of two operands that isn't what it is to be.
fn check_two<'a>(
    names: &'a Environment,
    (first, wanted): (&'a Operand, Want),
    (second, want): (&'a Operand, Want),
) -> Option<Wrong<'a>> {
    check(names, first, wanted).or(check(names, second, want))
}

/// The first operand that isn't bound.
fn check_all<'a>(names: &'a Environment, operands: &'a Operands) -> Option<Wrong<'a>> {
    for operand in operands.as_slice() {
        let found = check(names, operand, Want::Bound);
        if found.is_some() {
            return found;
        }
    }
    None
}

/// What is of the kind of an operand.
fn want_like(names: &Environment, operand: &Operand) -> Want {
    match value_seen(names, operand).kind() {
        Some(kind) => Want::Of(kind),
        None => Want::Bound,
    }
}

/// The first of two operands that isn't what it is to be, where both are to be of one kind: that of
/// a name, where the other is a literal.
fn check_alike<'a>(
    names: &'a Environment,
    first: &'a Operand,
    second: &'a Operand,
    want: Want,
) -> Option<Wrong<'a>> {
    let (model, other) = match (first, second) {
        (Operand::Literal(_), Operand::Name(_)) => (second, first),
        _ => (first, second),
    };
    check_two(names, (model, want), (other, want_like(names, model)))
}

/// What the operand of an operator is to be.
fn want_of(operator: One) -> Want {
    match operator {
        One::Not => Want::Of(Kind::Flag),
        One::Neg => Want::Of(Kind::Whole),
        One::Len => Want::TextOrList,
        One::Num => Want::Of(Kind::Text),
        One::Str => Want::Writable,
        One::LabelOf => Want::Labelled,
    }
}

/// The wrong operand of an operator on two values.
fn check_operator<'a>(
    names: &'a Environment,
    first: &'a Operand,
    operator: Two,
    second: &'a Operand,
) -> Option<Wrong<'a>> {
    let whole = Want::Of(Kind::Whole);
    let flag = Want::Of(Kind::Flag);
    let label = Want::Of(Kind::Label);
    let text = Want::Of(Kind::Text);
    let list = Want::Of(Kind::List);
    let (wanted, want) = match operator {
        Two::Eq | Two::Ne => return check_alike(names, first, second, Want::Comparable),
        Two::Add => return check_alike(names, first, second, Want::Addable),
        Two::Lt | Two::Le => return check_alike(names, first, second, Want::WholeOrText),
        Two::Sub | Two::Mul | Two::Div | Two::Rem => (whole, whole),
        Two::And | Two::Or => (flag, flag),
        Two::Join | Two::Meet | Two::Flows => (label, label),
        Two::From | Two::Upto => (Want::TextOrList, whole),
        Two::Find => (text, text),
        Two::Push => (list, Want::Bound),
        Two::At => (list, whole),
    };
    check_two(names, (first, wanted), (second, want))
}

/// The wrong operand of a statement that starts a child.
fn check_birth<'a>(
    names: &'a Environment,
    turns: &'a Operand,
    cells: &'a Operand,
    arguments: &'a Operands,
) -> Option<Wrong<'a>> {
    check_two(names, (turns, Want::Count), (cells, Want::Count)).or(check_all(names, arguments))
}

/// The wrong operand of a statement that opens no block.
fn check_simple<'a>(names: &'a Environment, simple: &'a Simple) -> Option<Wrong<'a>> {
    let label = Want::Of(Kind::Label);
    let reference = Want::Of(Kind::Reference);
    let variable = Want::Of(Kind::Variable);
    match simple {
        Simple::Stop => None,
        Simple::Let(_, a) => check(names, a, Want::Bound),
        Simple::LetOne(_, operator, a) => check(names, a, want_of(*operator)),
        Simple::LetTwo(_, a, operator, b) => check_operator(names, a, *operator, b),
        Simple::Call(_, _, arguments) => check_all(names, arguments),
        Simple::Return(a) | Simple::Throw(a) => check(names, a, Want::Pure),
        Simple::Label(_, l, a) => check_two(names, (l, label), (a, Want::Pure)),
        Simple::Unlabel(_, a) => check(names, a, Want::Of(Kind::Sealed)),
        Simple::UnlabelUsing(_, a, p) => {
            let power = Want::Of(Kind::Privilege);
            check_two(names, (a, Want::Of(Kind::Sealed)), (p, power))
        }
        Simple::Taint(l) | Simple::Lower(l) | Simple::NewVar(_, l) => check(names, l, label),
        Simple::Relabel(_, a, l, p) => {
            let power = check(names, p, Want::Of(Kind::Privilege));
            check_two(names, (a, Want::Of(Kind::Sealed)), (l, label)).or(power)
        }
        Simple::NewRef(_, l, a) | Simple::FullVar(_, l, a) => {
            check_two(names, (l, label), (a, Want::Bound))
        }
        Simple::Read(_, r) => check(names, r, reference),
        Simple::Write(r, a) => check_two(names, (r, reference), (a, Want::Bound)),
        Simple::Take(_, v) => check(names, v, variable),
        Simple::Put(v, a) => check_two(names, (v, variable), (a, Want::Bound)),
        Simple::Fork(_, l, turns, cells, _, arguments) => {
            check(names, l, label).or(check_birth(names, turns, cells, arguments))
        }
        Simple::Spawn(turns, cells, _, arguments) => check_birth(names, turns, cells, arguments),
        Simple::Wait(_, r) => check(names, r, Want::Of(Kind::TaskResult)),
        Simple::Send(c, a) => {
            check_two(
                names,
                (c, Want::Of(Kind::Channel)),
                (a, Want::Of(Kind::Text)),
            )
        }
    }
}

/// The operand that is wrong in what comes first, if one is.
pub(crate) fn wrong_operand<'a>(
    names: &'a Environment,
    front: &Front<'_, 'a>,
) -> Option<Wrong<'a>> {
    match front {
        Front::Simple(simple) | Front::Access(simple) => check_simple(names, simple),
        Front::Choice(condition) | Front::Loop(condition) => {
            check(names, condition, Want::Of(Kind::Flag))
        }
        Front::Nothing | Front::Back | Front::Mark | Front::Fail(_) | Front::Guarded => None,
    }
}
