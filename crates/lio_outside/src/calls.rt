//! Calls that can be made to fail.
ghost use Rattle.std.specs.Prelude.{◌≡◌, ◌≤◌};
ghost use Rattle.lio_outside.specs.CallsByList.{fails_next, no_calls, with_call, with_failure};

use std::marker::Model;

/// Counts of calls, numbered from 0, of which those in a list are to fail, and of their faults.
#[derive(Debug, Drop)]
pub(crate) struct CallsByList {
    failing: Vec<u64>,
    answered: u64,
    faults: u64,
}

impl Model for CallsByList {
    ghost use Rattle.lio_outside.specs.CallsByList as spec;
    ghost use Rattle.lio_outside.specs.CallsByList.{calls_code};

    ghost Value = { spec.CallsByList };

    ghost coded = { calls_code };

    ghost view = { λ a.
        record { failing = a.failing.items; answered = a.answered; faults = a.faults } };
}

impl CallsByList {
    /// No calls so far; those with the numbers `failing` are to fail.
    pub(crate) fn new(failing: Vec<u64>) -> Self
        ensures { result ≡ no_calls failing.items }
    {
        CallsByList {
            failing,
            answered: 0,
            faults: 0,
        }
    }

    /// How many calls were answered. It stands still at the greatest number.
    pub(crate) fn answered(&self) -> u64
        ensures { result ≡ self.now.answered }
    {
        self.answered
    }

    /// How many faults were counted. It stands still at the greatest number.
    pub(crate) fn faults(&self) -> u64
        ensures { result ≡ self.now.faults }
    {
        self.faults
    }

    /// Whether the next call is to fail.
    pub(crate) fn fails_next(&self) -> bool
        ensures { result ≡ fails_next self.now }
    {
        self.failing.contains(&self.answered)
    }

    /// Counts a call that was carried out.
    pub(crate) fn count_call(&mut self)
        ensures { self.new ≡ with_call self.old }
    {
        self.answered = self.answered.saturating_add(1);
    }

    /// Counts a call that failed.
    pub(crate) fn count_failure(&mut self)
        ensures counted { self.new ≡ with_failure self.old }
        ensures never_falls { self.old.faults ≤ self.new.faults }
    {
        self.count_call();
        self.faults = self.faults.saturating_add(1);
    }
}
