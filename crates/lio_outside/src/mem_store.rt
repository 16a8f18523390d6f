//! A store in memory whose calls can be made to fail.
ghost use Rattle.std.specs.Prelude.{◌≡◌, ◌+◌, ◌≤◌, ◌⊎◌, None, Some, IfOk, OnOk, OnErr, IsErrOf};
ghost use Rattle.std.specs.Prelude.{IsOkUnless, IsTrue, vec_len};
ghost use Rattle.std.specs.Option.{option_copied};
ghost use Rattle.lio_outside.specs.FileMap.{bytes_of};
ghost use Rattle.lio_outside.specs.Fetch.{given};
ghost use Rattle.lio_outside.specs.CallsByList.{fails_next};
ghost use Rattle.lio_outside.specs.MemState.{fresh, with_mem_file, after_call, after_failure};
ghost use Rattle.lio_outside.specs.MemState.{mem_faults};

use crate::calls::CallsByList;
use crate::files::NamedFiles;
use crate::store::{FetchFault, KeepFault, Readers, Store};
use std::alloc::Global;
use std::marker::Model;

/// A store in memory that tells its files. It numbers its calls of `fetch` and `keep` from 0, and
/// fails those in its list. A call that fails changes no file, raises the count of faults by one,
/// and leaves its name as that of the last one. A call that runs out of memory is not numbered.
#[derive(Debug, Drop)]
pub struct MemStore {
    files: NamedFiles,
    calls: CallsByList,
    /// The name of the last call that failed.
    failed: Option<Vec<u8>>,
}

impl Model for MemStore {
    ghost use Rattle.std.specs.Option.{option_map};
    ghost use Rattle.lio_outside.specs.MemState.{MemState, mem_state_code};

    ghost Value = { MemState };

    ghost coded = { mem_state_code };

    ghost view = { λ a. record {
      files = a.files;
      calls = a.calls;
      failed = option_map (λ name. name.items) a.failed;
    } };
}

impl MemStore {
    /// A store without files, whose calls with the numbers `failing` are to fail.
    pub fn new(alloc: Global, failing: Vec<u64>) -> Self
        ensures { result ≡ fresh failing.items }
    {
        MemStore {
            files: NamedFiles::new(alloc),
            calls: CallsByList::new(failing),
            failed: None,
        }
    }

    /// Puts a file in, in place of what was under its name. This is no numbered call.
    pub fn put(&mut self, alloc: Global, name: &[u8], bytes: &[u8]) -> Result<(), KeepFault>
        ensures ok { OnOk result (self.new ≡ with_mem_file self.old name.now bytes.now) }
        ensures err { OnErr result (self.new ≡ self.old) }
        ensures only_error { IsOkUnless result KeepFault.NoMemory }
    {
        self.files.put(alloc, name, bytes)
    }

    /// The bytes of a file, `None` where no file has that name.
    pub fn get(&self, name: &[u8]) -> Option<&[u8]>
        ensures { option_copied result ≡ bytes_of self.now.files name.now }
    {
        self.files.get(name)
    }

    /// How many calls were answered. It stands still at the greatest number.
    pub fn call_count(&self) -> u64
        ensures { result ≡ self.now.calls.answered }
    {
        self.calls.answered()
    }

    /// How many faults were counted. It stands still at the greatest number.
    pub fn fault_count(&self) -> u64
        ensures { result ≡ self.now.calls.faults }
    {
        self.calls.faults()
    }

    /// The name of the last call that failed, `None` before any did.
    pub fn failed_name(&self) -> Option<&[u8]>
        ensures { option_copied result ≡ self.now.failed }
    {
        let name = self.failed.as_ref()?;
        Some(name.as_slice())
    }
}

impl Store for MemStore {
    ghost holds = { λ s. Some s.files };

    ghost faults = { mem_faults };

    fn fetch(&mut self, alloc: Global, name: &[u8], limit: u32) -> Result<Vec<u8>, FetchFault>
        // When each answer comes.
        ensures ok { IfOk result (λ v. given self.old.files name.now limit ≡ Some v.items) }
        ensures ok_within_limit { IfOk result (λ v. vec_len v ≤ limit + 1) }
        ensures missing { IsErrOf result FetchFault.Missing
            → bytes_of self.old.files name.now ≡ None }
        ensures failed { IsErrOf result FetchFault.Failed → IsTrue (fails_next self.old.calls) }
        ensures fails { IsTrue (fails_next self.old.calls) → IsErrOf result FetchFault.Failed
            ⊎ IsErrOf result FetchFault.NoMemory }

        // The store after each answer.
        ensures after_ok { OnOk result (self.new ≡ after_call self.old) }
        ensures after_missing { IsErrOf result FetchFault.Missing → self.new ≡ after_call self.old }
        ensures after_failed { IsErrOf result FetchFault.Failed
            → self.new ≡ after_failure self.old name.now }
        ensures after_no_memory { IsErrOf result FetchFault.NoMemory → self.new ≡ self.old }
        ensures count_never_falls { self.old.calls.faults ≤ self.new.calls.faults }
    {
        if self.calls.fails_next() {
            self.failed = Some(Vec::from_slice(alloc, name).map_err(|_| FetchFault::NoMemory)?);
            self.calls.count_failure();
            return Err(FetchFault::Failed);
        }
        match self.files.fetch(alloc, name, limit) {
            Err(FetchFault::NoMemory) => Err(FetchFault::NoMemory),
            answer => {
                self.calls.count_call();
                answer
            }
        }
    }

    fn keep(
        &mut self,
        alloc: Global,
        name: &[u8],
        bytes: &[u8],
        _readers: Readers,
    ) -> Result<(), KeepFault>
        // When it fails.
        ensures failed { IsErrOf result KeepFault.Failed → IsTrue (fails_next self.old.calls) }
        ensures fails { IsTrue (fails_next self.old.calls) → IsErrOf result KeepFault.Failed
            ⊎ IsErrOf result KeepFault.NoMemory }

        // The store after each answer.
        ensures after_ok { OnOk result
            (self.new ≡ after_call (with_mem_file self.old name.now bytes.now)) }
        ensures after_failed { IsErrOf result KeepFault.Failed
            → self.new ≡ after_failure self.old name.now }
        ensures after_no_memory { IsErrOf result KeepFault.NoMemory → self.new ≡ self.old }
        ensures count_never_falls { self.old.calls.faults ≤ self.new.calls.faults }
    {
        if self.calls.fails_next() {
            self.failed = Some(Vec::from_slice(alloc, name).map_err(|_| KeepFault::NoMemory)?);
            self.calls.count_failure();
            return Err(KeepFault::Failed);
        }
        self.files.put(alloc, name, bytes)?;
        self.calls.count_call();
        Ok(())
    }
}
