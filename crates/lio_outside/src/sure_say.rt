//! An output in memory that has no faults.
ghost use Rattle.std.specs.Prelude.{◌≡◌, ◌++◌, Some, [], OnOk, OnErr, IsOkUnless};

use crate::say::{Say, SayFault};
use std::alloc::Global;
use std::marker::Model;

/// An output in memory that tells what was said to it and never fails, so its count of faults is
/// always 0. It is seen as what was said.
#[derive(Debug, Drop)]
pub struct SureSay {
    said: Vec<u8>,
}

impl Model for SureSay {
    ghost use Rattle.std.specs.Prelude.{ℕ, List};
    ghost use Rattle.std.specs.Coded.{coded_ℕ, coded_list};

    ghost Value = { List ℕ };

    ghost coded = { coded_list coded_ℕ };

    ghost view = { λ a. a.said.items };
}

impl SureSay {
    /// An output to which nothing was said.
    pub fn new(alloc: Global) -> Self
        ensures { result ≡ [] }
    {
        SureSay {
            said: Vec::new(alloc),
        }
    }

    /// What was said.
    pub fn said(&self) -> &[u8]
        ensures { result.now ≡ self.now }
    {
        self.said.as_slice()
    }
}

impl Say for SureSay {
    ghost said = { λ s. Some s };

    ghost faults = { λ _. 0 };

    fn say(&mut self, _alloc: Global, bytes: &[u8]) -> Result<(), SayFault>
        ensures ok { OnOk result (self.new ≡ self.old ++ bytes.now) }
        ensures no_memory { OnErr result (self.new ≡ self.old) }
        ensures never_failed { IsOkUnless result SayFault.NoMemory }
    {
        self.said
            .extend_from_slice(bytes)
            .map_err(|_| SayFault::NoMemory)
    }
}
