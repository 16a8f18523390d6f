//! An output, to which bytes are said.
ghost use Rattle.std.specs.Prelude.{◌≡◌, ℕ, List, ◌≤◌, Option, OnOk, IsErrOf};
ghost use Rattle.lio_outside.specs.Count.{Rose};
ghost use Rattle.lio_outside.specs.Said.{said_with, SaidPartly};

use crate::store::Trouble;
use std::alloc::Global;
use thiserror::Error;

/// Why bytes were not said.
#[derive(Clone, Copy, Debug, PartialEq, Eq, Error)]
pub enum SayFault {
    /// The output could not be written. It may have taken a first part of the bytes.
    #[error("the output could not be written")]
    Failed,
    /// No memory was left. The output is as before the call.
    #[error("out of memory")]
    NoMemory,
}

/// An output, to which bytes are said. Its meanings are `said`, the bytes that it tells were said
/// to it, or `None` where it tells nothing of them, and `faults`, a count that never falls.
pub trait Say {
    ghost said: { Self → Option (List ℕ) };

    ghost faults: { Self → ℕ };

    /// Says `bytes`, behind what was said before.
    fn say(&mut self, alloc: Global, bytes: &[u8]) -> Result<(), SayFault>
        // Whatever the answer.
        ensures count_never_falls { faults self.old ≤ faults self.new }

        // What was said after each answer, and when `Failed` comes.
        ensures ok { OnOk result (said self.new ≡ said_with (said self.old) bytes.now) }
        ensures failed_partly { IsErrOf result SayFault.Failed
            → SaidPartly (said self.old) (said self.new) bytes.now }
        ensures failed_counted { IsErrOf result SayFault.Failed
            → Rose (faults self.old) (faults self.new) }
        ensures no_memory { IsErrOf result SayFault.NoMemory → said self.new ≡ said self.old }
        ensures no_memory_count { IsErrOf result SayFault.NoMemory
            → faults self.new ≡ faults self.old };

    /// Why the last call failed, where that is known: for messages.
    fn trouble(&self) -> Option<Trouble<'_>> {
        None
    }
}
