//! What operators give without memory: which of the tables is asked, by the kinds of the operands.
#![tactic(auto, unfolding(crate::specs::Operators::operate2, crate::specs::Operators::operate1))]

ghost use Rattle.std.specs.Prelude.{◌≡◌, ℕ};
ghost use Rattle.lio_values.specs.declared.value.Value.TheVariants.{Bare};
ghost use Rattle.lio_operators.specs.Operators as spec;
ghost use Rattle.lio_operators.specs.Operators.{bare, not_of, neg_of, len_of, num_of, str_of};
ghost use Rattle.lio_operators.specs.Operators.{label_of, on_plain, on_sealed, flag_and, unit_and};
ghost use Rattle.lio_operators.specs.Operators.{whole_and, text_and, label_and};
ghost use Rattle.lio_operators.specs.Outcomes.{Tells, given_by, is_handle, is_large, is_printed};
ghost use Rattle.lio_operators.specs.Outcomes.{label_makes_large, makes_large1, makes_large2};
ghost use Rattle.lio_operators.specs.Outcomes.{plain_makes_large, sealed_makes_large};
ghost use Rattle.lio_operators.specs.Outcomes.{text_makes_large};

use crate::flags::{on_flags, on_units};
use crate::labels::small_of_labels;
use crate::lists::small_of_list;
use crate::outcome::{Outcome, outcome_of};
use crate::texts::{small_of_text_at, small_of_texts};
use crate::wholes::{negative, on_wholes};
use lio_labels::Label;
use lio_syntax_lines::{One, Two, read_whole};
use lio_values::{Plain, Small, Trap, Value};

/// The other flag.
#[inline(always)]
fn not_of(plain: &Plain) -> Result<Small, Trap>
    ensures { given_by result ≡ not_of plain.now }
{
    match plain {
        Plain::Flag(flag) => Ok(Small::Flag(!*flag)),
        _ => Err(Trap::BadType),
    }
}

/// The negative of a whole.
#[inline(always)]
fn neg_of(plain: &Plain) -> Result<Small, Trap>
    ensures { given_by result ≡ neg_of plain.now }
{
    match plain {
        Plain::Whole(number) => negative(*number),
        _ => Err(Trap::BadType),
    }
}

/// The number of bytes of a text, or of items of a list.
#[inline(always)]
fn len_of(plain: &Plain) -> Result<Small, Trap>
    ensures { given_by result ≡ len_of plain.now }
{
    match plain {
        Plain::Bytes(text) => Ok(Small::Whole(text.bytes().len() as i64)),
        Plain::Items(items) => Ok(Small::Whole(items.as_slice().len() as i64)),
        _ => Err(Trap::BadType),
    }
}

/// The whole that a text says.
fn num_of(plain: &Plain) -> Result<Small, Trap>
    ensures { given_by result ≡ num_of plain.now }
{
    match plain {
        Plain::Bytes(text) => match read_whole(text.bytes()) {
            Some(number) => Ok(Small::Whole(number)),
            None => Err(Trap::BadType),
        },
        _ => Err(Trap::BadType),
    }
}

/// The outcome of printing a plain value.
#[inline(always)]
fn printed(plain: &Plain) -> Outcome
    ensures large { is_large result ≡ is_printed plain.now }
    ensures given { (longest : ℕ) → Tells result (bare (str_of longest plain.now)) }
{
    match plain {
        Plain::Unit | Plain::Flag(_) | Plain::Whole(_) => Outcome::Large,
        _ => Outcome::Fault(Trap::BadType),
    }
}

/// The outcome of asking a plain value for its label.
#[inline(always)]
fn labelled(plain: &Plain) -> Outcome
    ensures large { is_large result ≡ is_handle plain.now }
    ensures given { Tells result (bare (label_of plain.now)) }
{
    match plain {
        Plain::RefOf(_) | Plain::VarOf(_) | Plain::ResultOf(_) | Plain::ChanOf(_) => Outcome::Large,
        _ => Outcome::Fault(Trap::BadType),
    }
}

/// What an operator on one bare value gives without memory: a small value or a fault, or that it
/// makes a text or a label.
#[inline(always)]
pub fn plain_outcome(op: One, plain: &Plain) -> Outcome
    ensures large { is_large result ≡ plain_makes_large op plain.now }
    ensures given { (longest : ℕ) → Tells result (spec.operate1 longest op (Bare plain.now)) }
{
    match op {
        One::Not => outcome_of(not_of(plain)),
        One::Neg => outcome_of(neg_of(plain)),
        One::Len => outcome_of(len_of(plain)),
        One::Num => outcome_of(num_of(plain)),
        One::Str => printed(plain),
        One::LabelOf => labelled(plain),
    }
}

/// An operator on a sealed value.
#[inline(always)]
fn on_sealed(op: One) -> Outcome
    ensures large { is_large result ≡ sealed_makes_large op }
    ensures given { (label : Label) → Tells result (bare (on_sealed op label)) }
{
    match op {
        One::LabelOf => Outcome::Large,
        _ => Outcome::Fault(Trap::BadType),
    }
}

/// What an operator on one value gives without memory: a small value or a fault, or that it makes a
/// text or a label.
#[inline(always)]
pub fn outcome1(op: One, a: &Value) -> Outcome
    ensures large { is_large result ≡ makes_large1 op a.now }
    ensures given { (longest : ℕ) → Tells result (spec.operate1 longest op a.now) }
{
    match a {
        Value::Bare(plain) => plain_outcome(op, plain),
        Value::Sealed(_, _) => on_sealed(op),
    }
}

/// An operator on a flag and another value.
#[inline(always)]
fn flag_and(op: Two, a: bool, b: &Plain) -> Result<Small, Trap>
    ensures { given_by result ≡ flag_and op a b.now }
{
    match b {
        Plain::Flag(b) => on_flags(op, a, *b),
        _ => Err(Trap::BadType),
    }
}

/// An operator on unit and another value.
#[inline(always)]
fn unit_and(op: Two, b: &Plain) -> Result<Small, Trap>
    ensures { given_by result ≡ unit_and op b.now }
{
    match b {
        Plain::Unit => on_units(op),
        _ => Err(Trap::BadType),
    }
}

/// An operator on a whole and another value.
#[inline(always)]
fn whole_and(op: Two, a: i64, b: &Plain) -> Result<Small, Trap>
    ensures { given_by result ≡ whole_and op a b.now }
{
    match b {
        Plain::Whole(b) => on_wholes(op, a, *b),
        _ => Err(Trap::BadType),
    }
}

/// An operator on a text and another value.
fn text_and(op: Two, a: &[u8], b: &Plain) -> Outcome
    ensures large { is_large result ≡ text_makes_large op b.now }
    ensures given { (longest : ℕ) → Tells result (bare (text_and longest op a.now b.now)) }
{
    match b {
        Plain::Bytes(b) => small_of_texts(op, a, b.bytes()),
        Plain::Whole(_) => small_of_text_at(op),
        _ => Outcome::Fault(Trap::BadType),
    }
}

/// An operator on a label and another value.
fn label_and(op: Two, a: &Label, b: &Plain) -> Outcome
    ensures large { is_large result ≡ label_makes_large op b.now }
    ensures given { Tells result (bare (label_and op a.now b.now)) }
{
    match b {
        Plain::Lab(b) => small_of_labels(op, a, b),
        _ => Outcome::Fault(Trap::BadType),
    }
}

/// What an operator on two bare values gives without memory: a small value or a fault, or that it
/// makes a text, a label or a list, or gives an item of one.
#[inline(always)]
pub fn outcome2(op: Two, a: &Plain, b: &Plain) -> Outcome
    ensures large { is_large result ≡ makes_large2 op a.now b.now }
    ensures given { (longest : ℕ)
        → Tells result (spec.operate2 longest op (Bare a.now) (Bare b.now)) }
{
    match a {
        Plain::Unit => outcome_of(unit_and(op, b)),
        Plain::Flag(a) => outcome_of(flag_and(op, *a, b)),
        Plain::Whole(a) => outcome_of(whole_and(op, *a, b)),
        Plain::Bytes(a) => text_and(op, a.bytes(), b),
        Plain::Lab(a) => label_and(op, a, b),
        Plain::Items(_) => small_of_list(op, b),
        _ => Outcome::Fault(Trap::BadType),
    }
}
