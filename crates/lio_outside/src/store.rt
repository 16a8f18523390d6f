//! A store of named bytes.
ghost use Rattle.std.specs.Prelude.{◌≡◌, ◌+◌, ◌≤◌, Option, IfOk, IfSome, OnOk, IsErrOf, vec_len};
ghost use Rattle.lio_outside.specs.FileMap.{FileMap};
ghost use Rattle.lio_outside.specs.Count.{Faults, FailedAt};
ghost use Rattle.lio_outside.specs.Fetch.{IsGiven, IsMissing};
ghost use Rattle.lio_outside.specs.Keep.{told_with, PartlyKept};

use std::alloc::Global;
use std::io;
use thiserror::Error;

/// Why a file was not fetched.
#[derive(Clone, Copy, Debug, PartialEq, Eq, Error)]
pub enum FetchFault {
    /// No file has that name.
    #[error("no file has that name")]
    Missing,
    /// The file could not be read.
    #[error("the file could not be read")]
    Failed,
    /// No memory was left. The store is as before the call.
    #[error("out of memory")]
    NoMemory,
}

/// Why bytes were not kept.
#[derive(Clone, Copy, Debug, PartialEq, Eq, Error)]
pub enum KeepFault {
    /// The file could not be written. It may hold a first part of the bytes.
    #[error("the file could not be written")]
    Failed,
    /// No memory was left. The store is as before the call.
    #[error("out of memory")]
    NoMemory,
}

/// Why the last call of a store failed, in words for people.
#[derive(Clone, Copy, Debug)]
pub enum Trouble<'a> {
    /// What the system said.
    System(io::Error),
    /// The name isn't UTF-8.
    NotText,
    /// The file is one that was fetched or kept under this other name.
    SameFile(&'a [u8]),
    /// Standard output goes to the file.
    StandardOutput,
    /// What the system said of a new file beside it, into which the bytes were to go.
    Beside(io::Error),
    /// The names of new files beside it are all taken.
    NamesTaken,
}

/// Who may read the file that bytes are kept in, where it is new.
#[derive(Clone, Copy, Debug, PartialEq, Eq)]
pub enum Readers {
    /// Its owner alone.
    Owner,
    /// Whom the system lets read new files.
    Everyone,
}

/// A store of named bytes. Its meanings are `holds`, the files that it tells of, or `None` where it
/// tells nothing of them, and `faults`: how many of its calls failed, a count that never falls, and
/// the name for which the last of these was made. A call failed where it answers `Failed`, or
/// `Missing` where the store tells nothing of its files.
pub trait Store {
    ghost holds: { Self → Option FileMap };

    ghost faults: { Self → Faults };

    /// The first `limit + 1` bytes under `name`, or all where there are fewer.
    fn fetch(&mut self, alloc: Global, name: &[u8], limit: u32) -> Result<Vec<u8>, FetchFault>
        // Whatever the answer.
        ensures files_stay { holds self.new ≡ holds self.old }
        ensures count_never_falls { (faults self.old).count ≤ (faults self.new).count }

        // When each answer comes.
        ensures ok { IfOk result (λ v. IsGiven (holds self.old) name.now limit v.items) }
        ensures ok_within_limit { IfOk result (λ v. vec_len v ≤ limit + 1) }
        ensures missing { IsErrOf result FetchFault.Missing
            → IsMissing (holds self.old) name.now (faults self.old) (faults self.new) }
        ensures failed_counted { IsErrOf result FetchFault.Failed
            → FailedAt name.now (faults self.old) (faults self.new) }

        // Where it didn't fail.
        ensures ok_faults { OnOk result (faults self.new ≡ faults self.old) }
        ensures missing_faults { IsErrOf result FetchFault.Missing
            → IfSome (holds self.old) (λ _. faults self.new ≡ faults self.old) }
        ensures no_memory { IsErrOf result FetchFault.NoMemory
            → faults self.new ≡ faults self.old };

    /// Puts `bytes` under `name`, in place of what was there. Who may read them where nothing was
    /// there has no meaning in a store that nobody else reads.
    fn keep(
        &mut self,
        alloc: Global,
        name: &[u8],
        bytes: &[u8],
        readers: Readers,
    ) -> Result<(), KeepFault>
        // Whatever the answer.
        ensures count_never_falls { (faults self.old).count ≤ (faults self.new).count }

        // What the store holds after each answer, and when `Failed` comes.
        ensures ok { OnOk result (holds self.new ≡ told_with (holds self.old) name.now bytes.now) }
        ensures failed_partly { IsErrOf result KeepFault.Failed
            → PartlyKept (holds self.old) (holds self.new) name.now bytes.now }
        ensures failed_counted { IsErrOf result KeepFault.Failed
            → FailedAt name.now (faults self.old) (faults self.new) }
        ensures ok_faults { OnOk result (faults self.new ≡ faults self.old) }
        ensures no_memory { IsErrOf result KeepFault.NoMemory → holds self.new ≡ holds self.old }
        ensures no_memory_count { IsErrOf result KeepFault.NoMemory
            → faults self.new ≡ faults self.old };

    /// Why the last call failed, where that is known: for messages.
    fn trouble(&self) -> Option<Trouble<'_>> {
        None
    }
}
