//! An output in memory whose calls can be made to fail.
ghost use Rattle.std.specs.Prelude.{◌≡◌, ◌↔◌, ◌≤◌, Some, OnOk, IsErrOf, IsTrue};
ghost use Rattle.lio_outside.specs.CallsByList.{fails_next};
ghost use Rattle.lio_outside.specs.MemState.{silent, after_saying, after_silence};

use crate::calls::CallsByList;
use crate::say::{Say, SayFault};
use std::alloc::Global;
use std::marker::Model;

/// An output in memory that tells what was said to it. It numbers its calls of `say` from 0, and
/// fails those in its list. A call that fails says nothing, and raises the count of faults by one.
/// A call that runs out of memory is not numbered.
#[derive(Debug, Drop)]
pub struct MemSay {
    said: Vec<u8>,
    calls: CallsByList,
}

impl Model for MemSay {
    ghost use Rattle.lio_outside.specs.MemState.{MemSaid, mem_said_code};

    ghost Value = { MemSaid };

    ghost coded = { mem_said_code };

    ghost view = { λ a. record { said = a.said.items; calls = a.calls } };
}

impl MemSay {
    /// An output to which nothing was said, whose calls with the numbers `failing` are to fail.
    pub fn new(alloc: Global, failing: Vec<u64>) -> Self
        ensures { result ≡ silent failing.items }
    {
        MemSay {
            said: Vec::new(alloc),
            calls: CallsByList::new(failing),
        }
    }

    /// What was said.
    pub fn said(&self) -> &[u8]
        ensures { result.now ≡ self.now.said }
    {
        self.said.as_slice()
    }

    /// How many calls were answered. It stands still at the greatest number.
    pub fn call_count(&self) -> u64
        ensures { result ≡ self.now.calls.answered }
    {
        self.calls.answered()
    }

    /// How many faults were counted. It stands still at the greatest number.
    pub fn fault_count(&self) -> u64
        ensures { result ≡ self.now.calls.faults }
    {
        self.calls.faults()
    }
}

impl Say for MemSay {
    ghost said = { λ s. Some s.said };

    ghost faults = { λ s. s.calls.faults };

    fn say(&mut self, _alloc: Global, bytes: &[u8]) -> Result<(), SayFault>
        // When it fails.
        ensures failed { IsErrOf result SayFault.Failed ↔ IsTrue (fails_next self.old.calls) }

        // The output after each answer.
        ensures after_ok { OnOk result (self.new ≡ after_saying self.old bytes.now) }
        ensures after_failed { IsErrOf result SayFault.Failed → self.new ≡ after_silence self.old }
        ensures after_no_memory { IsErrOf result SayFault.NoMemory → self.new ≡ self.old }
        ensures count_never_falls { self.old.calls.faults ≤ self.new.calls.faults }
    {
        if self.calls.fails_next() {
            self.calls.count_failure();
            return Err(SayFault::Failed);
        }
        if self.said.extend_from_slice(bytes).is_err() {
            return Err(SayFault::NoMemory);
        }
        self.calls.count_call();
        Ok(())
    }
}
