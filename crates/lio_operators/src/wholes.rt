//! Operators on wholes.
ghost use Rattle.std.specs.Prelude.{◌≡◌, ◌+ℤ◌, ◌-ℤ◌, ◌*ℤ◌, neg_ℤ, int_div, int_rem, Ok, Err};
ghost use Rattle.std.specs.Prelude.{MatchOption};
ghost use Rattle.lio_values.specs.declared.value.Plain.TheVariants.{Whole};
ghost use Rattle.lio_values.specs.declared.fault.FaultKind.TheVariants.{Overflow};
ghost use Rattle.lio_operators.specs.Outcomes.{given_by};
ghost use Rattle.lio_operators.specs.Wholes as spec;
ghost use Rattle.lio_operators.specs.Wholes.{fitting, divided};

use lio_syntax_lines::Two;
use lio_values::{Small, Trap};

/// A whole, or overflow where there is none.
#[inline(always)]
fn whole(number: Option<i64>) -> Result<Small, Trap>
    ensures { MatchOption number (given_by result ≡ Err Overflow)
        (λ n. given_by result ≡ Ok (Whole n)) }
{
    match number {
        Some(number) => Ok(Small::Whole(number)),
        None => Err(Trap::Overflow),
    }
}

/// The negative.
#[inline(always)]
pub(crate) fn negative(number: i64) -> Result<Small, Trap>
    ensures { given_by result ≡ fitting (neg_ℤ number) }
{
    whole(number.checked_neg())
}

/// The sum.
#[inline(always)]
fn sum(a: i64, b: i64) -> Result<Small, Trap>
    ensures { given_by result ≡ fitting (a +ℤ b) }
{
    whole(a.checked_add(b))
}

/// The difference.
#[inline(always)]
fn difference(a: i64, b: i64) -> Result<Small, Trap>
    ensures { given_by result ≡ fitting (a -ℤ b) }
{
    whole(a.checked_sub(b))
}

/// The product.
#[inline(always)]
fn product(a: i64, b: i64) -> Result<Small, Trap>
    ensures { given_by result ≡ fitting (a *ℤ b) }
{
    whole(a.checked_mul(b))
}

/// The quotient, cut towards zero.
#[inline(always)]
fn quotient(a: i64, b: i64) -> Result<Small, Trap>
    ensures { given_by result ≡ divided a b (int_div a b) }
{
    if b == 0 {
        return Err(Trap::DivZero);
    }
    whole(a.checked_div(b))
}

/// The rest of a division, with the sign of the left one.
#[inline(always)]
fn rest(a: i64, b: i64) -> Result<Small, Trap>
    ensures { given_by result ≡ divided a b (int_rem a b) }
{
    if b == 0 {
        return Err(Trap::DivZero);
    }
    whole(a.checked_rem(b))
}

/// An operator on two wholes.
#[inline(always)]
pub(crate) fn on_wholes(op: Two, a: i64, b: i64) -> Result<Small, Trap>
    ensures { given_by result ≡ spec.on_wholes op a b }
{
    match op {
        Two::Add => sum(a, b),
        Two::Sub => difference(a, b),
        Two::Mul => product(a, b),
        Two::Div => quotient(a, b),
        Two::Rem => rest(a, b),
        Two::Eq => Ok(Small::Flag(a == b)),
        Two::Ne => Ok(Small::Flag(a != b)),
        Two::Lt => Ok(Small::Flag(a < b)),
        Two::Le => Ok(Small::Flag(a <= b)),
        _ => Err(Trap::BadType),
    }
}
