//! Files in memory.
ghost use Rattle.std.specs.Prelude.{◌≡◌, ◌≢◌, ◌↔◌, None, Some, IfOk, OnOk, OnErr, IsErrOf};
ghost use Rattle.std.specs.Prelude.{IsOkUnless};
ghost use Rattle.std.specs.Option.{option_map};
ghost use Rattle.lio_outside.specs.FileMap.{no_files, bytes_of, with_file};
ghost use Rattle.lio_outside.specs.Fetch.{given};

use crate::store::{FetchFault, KeepFault};
use std::alloc::Global;
use std::collections::BTreeMap;
use std::marker::Model;

/// Files in memory, seen as the map from their names to their bytes.
#[derive(Debug, Drop)]
pub(crate) struct NamedFiles {
    entries: BTreeMap<Vec<u8>, Vec<u8>>,
}

impl Model for NamedFiles {
    ghost use Rattle.std.specs.Coded.{coded_ℕ, coded_list};
    ghost use Rattle.std.specs.FinMap as map;
    ghost use Rattle.lio_outside.specs.FileMap.{FileMap};
    ghost use Rattle.lio_outside.specs.Entries.{files_of};

    ghost Value = { FileMap };

    ghost coded = { map.code (coded_list coded_ℕ) (coded_list coded_ℕ) };

    ghost view = { λ a. files_of a.entries };
}

impl NamedFiles {
    /// No files.
    pub(crate) fn new(alloc: Global) -> Self
        ensures { result ≡ no_files }
    {
        NamedFiles {
            entries: BTreeMap::new(alloc),
        }
    }

    /// The bytes under a name.
    pub(crate) fn get(&self, name: &[u8]) -> Option<&[u8]>
        ensures { option_map (λ bytes. bytes.now) result ≡ bytes_of self.now name.now }
    {
        let bytes = self.entries.get(name)?;
        Some(bytes.as_slice())
    }

    /// A copy of the first `limit + 1` bytes under a name.
    pub(crate) fn fetch(
        &self,
        alloc: Global,
        name: &[u8],
        limit: u32,
    ) -> Result<Vec<u8>, FetchFault>
        ensures ok { IfOk result (λ v. given self.now name.now limit ≡ Some v.items) }
        ensures missing { IsErrOf result FetchFault.Missing ↔ (bytes_of self.now name.now ≡ None) }
        ensures never_failed { result ≢ Err FetchFault.Failed }
    {
        let bytes = self.get(name).ok_or(FetchFault::Missing)?;
        let most = bytes.len().min(limit as usize + 1);
        Vec::from_slice(alloc, &bytes[..most]).map_err(|_| FetchFault::NoMemory)
    }

    /// Puts a copy of `bytes` under a name, in place of what was there.
    pub(crate) fn put(&mut self, alloc: Global, name: &[u8], bytes: &[u8]) -> Result<(), KeepFault>
        ensures ok { OnOk result (self.new ≡ with_file self.old name.now bytes.now) }
        ensures err { OnErr result (self.new ≡ self.old) }
        ensures only_error { IsOkUnless result KeepFault.NoMemory }
    {
        let name = Vec::from_slice(alloc, name).map_err(|_| KeepFault::NoMemory)?;
        let bytes = Vec::from_slice(alloc, bytes).map_err(|_| KeepFault::NoMemory)?;
        match self.entries.insert(name, bytes) {
            Ok(_) => Ok(()),
            Err(_) => Err(KeepFault::NoMemory),
        }
    }
}
