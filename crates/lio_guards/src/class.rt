//! Classes of operations.
ghost use Rattle.std.specs.Prelude.{◌≡◌};

use lio_values::Op;

/// What an operation does with its target, which decides what is tested.
#[derive(Clone, Copy)]
pub enum Class {
    /// It makes the target, or writes to it.
    Write,
    /// It learns from the target.
    Raise,
    /// It learns from the target and writes to it.
    Exchange,
}

impl Class {
    ghost use Rattle.lio_guards.specs.Class.{class_of};

    /// The class of an operation.
    pub fn of(op: Op) -> Class
        ensures { result ≡ class_of op }
    {
        match op {
            Op::Seal => Class::Write,
            Op::NewRef => Class::Write,
            Op::NewVar => Class::Write,
            Op::Write => Class::Write,
            Op::Send => Class::Write,
            Op::Fork => Class::Write,
            Op::Lower => Class::Write,
            Op::Unlabel => Class::Raise,
            Op::Taint => Class::Raise,
            Op::Read => Class::Raise,
            Op::Wait => Class::Raise,
            Op::Take => Class::Exchange,
            Op::Put => Class::Exchange,
        }
    }
}
