//! A store over the files of the system.
ghost use Rattle.std.specs.Prelude.{◌≡◌, ◌+◌, ◌≤◌, None, IfOk, IsErrOf, OnOk, vec_len};
ghost use Rattle.std.specs.Option.{option_copied};
ghost use Rattle.lio_outside.specs.Count.{no_faults, with_fault};

use crate::disk_store::DiskStore;
use crate::real_disk::RealDisk;
use lio_outside::{FetchFault, KeepFault, Readers, Store, Trouble};
use std::alloc::Global;
use std::marker::Model;
use std::os::fd::AsFd;
use std::rt::Files;

/// A store over files, whose names are paths in UTF-8. It tells nothing of what they hold, counts a
/// fault at each answer `Missing` and `Failed`, and keeps the name of the last of these calls: a
/// copy that it makes before it touches the file. It is seen as these faults.
///
/// `Missing` is the answer for a name that isn't UTF-8 or under which there is no file; `keep`
/// answers `Failed` for a name that isn't UTF-8, and for the file to which standard output went
/// when the store was made. What is kept goes into a new file beside the old one, named with
/// `.part0` at the end, or with `.part1` and so on up to `.part7` where a run that was cut off left
/// such a file, and this then takes the name, the old one's permissions and its group, so that a
/// failure loses nothing. Where the name is no plain file, as a device or a link, it is written in
/// place.
#[derive(Drop)]
pub struct RealStore<R> {
    files: DiskStore<RealDisk<R>>,
    faults: u64,
    /// The name of the last call that failed.
    failed: Option<Vec<u8>>,
}

impl<R> Model for RealStore<R> {
    ghost use Rattle.std.specs.Option.{option_map};
    ghost use Rattle.lio_outside.specs.Count.{Faults, faults_code};

    ghost Value = { Faults };

    ghost coded = { faults_code };

    ghost view = { λ a.
        record { count = a.faults; last = option_map (λ name. name.items) a.failed } };
}

impl<R: Files + Eprint> RealStore<R> {
    /// A store over the files of a runtime.
    pub fn new(alloc: Global, rt: R) -> Self
        ensures { result ≡ no_faults }
    {
        let disk = RealDisk(rt);
        let output = disk.standard_output();
        RealStore {
            files: DiskStore::new(alloc, disk, output),
            faults: 0,
            failed: None,
        }
    }
}

impl<R> RealStore<R> {
    /// How many faults were counted. It stands still at the greatest number.
    pub fn fault_count(&self) -> u64
        ensures { result ≡ self.now.count }
    {
        self.faults
    }

    /// The name of the last call that failed, `None` before any did.
    pub fn failed_name(&self) -> Option<&[u8]>
        ensures { option_copied result ≡ self.now.last }
    {
        let name = self.failed.as_ref()?;
        Some(name.as_slice())
    }

    /// Counts a fault of the call for a name.
    fn count_fault(&mut self, name: Vec<u8>)
        ensures counted { self.new ≡ with_fault self.old name.items }
        ensures never_falls { self.old.count ≤ self.new.count }
    {
        self.faults = self.faults.saturating_add(1);
        self.failed = Some(name);
    }
}

impl<R: Files + Eprint> Store for RealStore<R>
where
    R::File: AsFd,
{
    ghost holds = { λ _. None };

    ghost faults = { λ s. s };

    fn fetch(&mut self, alloc: Global, name: &[u8], limit: u32) -> Result<Vec<u8>, FetchFault>
        ensures ok_within_limit { IfOk result (λ v. vec_len v ≤ limit + 1) }
        ensures ok { OnOk result (self.new ≡ self.old) }
        ensures missing_counted { IsErrOf result FetchFault.Missing
            → self.new ≡ with_fault self.old name.now }
        ensures failed_counted { IsErrOf result FetchFault.Failed
            → self.new ≡ with_fault self.old name.now }
        ensures no_memory { IsErrOf result FetchFault.NoMemory → self.new ≡ self.old }
        ensures count_never_falls { self.old.count ≤ self.new.count }
    {
        let Ok(copy) = Vec::from_slice(alloc, name) else {
            self.files.forget();
            return Err(FetchFault::NoMemory);
        };
        let answer = self.files.fetch(alloc, name, limit);
        if let Err(FetchFault::Missing | FetchFault::Failed) = answer {
            self.count_fault(copy);
        }
        answer
    }

    fn keep(
        &mut self,
        alloc: Global,
        name: &[u8],
        bytes: &[u8],
        readers: Readers,
    ) -> Result<(), KeepFault>
        ensures ok { OnOk result (self.new ≡ self.old) }
        ensures failed_counted { IsErrOf result KeepFault.Failed
            → self.new ≡ with_fault self.old name.now }
        ensures no_memory { IsErrOf result KeepFault.NoMemory → self.new ≡ self.old }
        ensures count_never_falls { self.old.count ≤ self.new.count }
    {
        let Ok(copy) = Vec::from_slice(alloc, name) else {
            self.files.forget();
            return Err(KeepFault::NoMemory);
        };
        let answer = self.files.keep(alloc, name, bytes, readers);
        if let Err(KeepFault::Failed) = answer {
            self.count_fault(copy);
        }
        answer
    }

    fn trouble(&self) -> Option<Trouble<'_>> {
        self.files.trouble()
    }
}
