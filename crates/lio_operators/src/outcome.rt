//! What an operator gives without memory.
ghost use Rattle.std.specs.Prelude.{◌≡◌, false};
ghost use Rattle.lio_operators.specs.Operators.{bare};
ghost use Rattle.lio_operators.specs.Outcomes.{given_by, is_large, Tells};

use lio_values::{Small, Trap};

/// What an operator gives without memory.
#[derive(Clone, Copy)]
pub enum Outcome {
    /// A small value.
    Value(Small),
    /// A fault in place of a value.
    Fault(Trap),
    /// It makes a text, a label or a list, or gives an item of one, which takes memory.
    Large,
}

/// The outcome that is a small value or a trap.
#[inline(always)]
pub(crate) fn outcome_of(given: Result<Small, Trap>) -> Outcome
    ensures large { is_large result ≡ false }
    ensures given { Tells result (bare (given_by given)) }
{
    match given {
        Ok(small) => Outcome::Value(small),
        Err(trap) => Outcome::Fault(trap),
    }
}
