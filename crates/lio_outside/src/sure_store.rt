//! A store in memory that has no faults.
ghost use Rattle.std.specs.Prelude.{◌≡◌, ◌≢◌, ◌↔◌, ◌+◌, ◌≤◌, Some, None, IfOk, OnOk, OnErr};
ghost use Rattle.std.specs.Prelude.{IsErrOf, IsOkUnless, vec_len};
ghost use Rattle.std.specs.Option.{option_copied};
ghost use Rattle.lio_outside.specs.FileMap.{no_files, bytes_of, with_file};
ghost use Rattle.lio_outside.specs.Fetch.{given};
ghost use Rattle.lio_outside.specs.Count.{no_faults};

use crate::files::NamedFiles;
use crate::store::{FetchFault, KeepFault, Readers, Store};
use std::alloc::Global;
use std::marker::Model;

/// A store in memory that tells its files and never fails, so it has no faults. It is seen as its
/// files.
#[derive(Debug, Drop)]
pub struct SureStore {
    files: NamedFiles,
}

impl Model for SureStore {
    ghost use Rattle.std.specs.Coded.{coded_ℕ, coded_list};
    ghost use Rattle.std.specs.FinMap as map;
    ghost use Rattle.lio_outside.specs.FileMap.{FileMap};

    ghost Value = { FileMap };

    ghost coded = { map.code (coded_list coded_ℕ) (coded_list coded_ℕ) };

    ghost view = { λ a. a.files };
}

impl SureStore {
    /// A store without files.
    pub fn new(alloc: Global) -> Self
        ensures { result ≡ no_files }
    {
        SureStore {
            files: NamedFiles::new(alloc),
        }
    }

    /// The bytes of a file, `None` where no file has that name.
    pub fn get(&self, name: &[u8]) -> Option<&[u8]>
        ensures { option_copied result ≡ bytes_of self.now name.now }
    {
        self.files.get(name)
    }
}

impl Store for SureStore {
    ghost holds = { λ s. Some s };

    ghost faults = { λ _. no_faults };

    fn fetch(&mut self, alloc: Global, name: &[u8], limit: u32) -> Result<Vec<u8>, FetchFault>
        ensures files_stay { self.new ≡ self.old }
        ensures ok { IfOk result (λ v. given self.old name.now limit ≡ Some v.items) }
        ensures ok_within_limit { IfOk result (λ v. vec_len v ≤ limit + 1) }
        ensures missing { IsErrOf result FetchFault.Missing ↔ (bytes_of self.old name.now ≡ None) }
        ensures never_failed { result ≢ Err FetchFault.Failed }
    {
        self.files.fetch(alloc, name, limit)
    }

    fn keep(
        &mut self,
        alloc: Global,
        name: &[u8],
        bytes: &[u8],
        _readers: Readers,
    ) -> Result<(), KeepFault>
        ensures ok { OnOk result (self.new ≡ with_file self.old name.now bytes.now) }
        ensures no_memory { OnErr result (self.new ≡ self.old) }
        ensures never_failed { IsOkUnless result KeepFault.NoMemory }
    {
        self.files.put(alloc, name, bytes)
    }
}
