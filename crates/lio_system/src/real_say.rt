//! Standard output.
ghost use Rattle.std.specs.Prelude.{◌≡◌, ◌≢◌, ◌≤◌, None, IsErrOf, OnOk};
ghost use Rattle.lio_outside.specs.Count.{counted};

use crate::pieces::write_whole;
use lio_outside::{Say, SayFault, Trouble};
use std::alloc::Global;
use std::io;
use std::marker::Model;

/// The standard output of a runtime. It tells nothing of what was said, and counts a fault at each
/// answer `Failed`. It is seen as that count.
#[derive(Drop)]
pub struct RealSay<R> {
    rt: R,
    faults: u64,
    error: Option<io::Error>,
}

impl<R> Model for RealSay<R> {
    ghost use Rattle.std.specs.Prelude.{ℕ};

    ghost Value = { ℕ };

    ghost view = { λ a. a.faults };
}

impl<R> RealSay<R> {
    /// The standard output of a runtime.
    pub fn new(rt: R) -> Self
        ensures { result ≡ 0 }
    {
        RealSay {
            rt,
            faults: 0,
            error: None,
        }
    }

    /// How many faults were counted. It stands still at the greatest number.
    pub fn fault_count(&self) -> u64
        ensures { result ≡ self.now }
    {
        self.faults
    }

    /// Counts a fault, and keeps its error.
    fn count_fault(&mut self, error: io::Error)
        ensures counted { self.new ≡ counted self.old }
        ensures never_falls { self.old ≤ self.new }
    {
        self.faults = self.faults.saturating_add(1);
        self.error = Some(error);
    }
}

impl<R: Print> Say for RealSay<R> {
    ghost said = { λ _. None };

    ghost faults = { λ s. s };

    fn say(&mut self, _alloc: Global, bytes: &[u8]) -> Result<(), SayFault>
        ensures ok { OnOk result (self.new ≡ self.old) }
        ensures failed_counted { IsErrOf result SayFault.Failed → self.new ≡ counted self.old }
        ensures never_no_memory { result ≢ Err SayFault.NoMemory }
        ensures count_never_falls { self.old ≤ self.new }
    {
        let written = write_whole(&mut io::writer(&self.rt), bytes);
        if let Err(error) = written {
            self.count_fault(error);
            return Err(SayFault::Failed);
        }
        Ok(())
    }

    fn trouble(&self) -> Option<Trouble<'_>> {
        Some(Trouble::System(self.error?))
    }
}
