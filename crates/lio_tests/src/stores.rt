//! The stores in memory on their happy paths.
ghost use Rattle.std.specs.Prelude.{◌≡◌, ◌≤◌, ℕ, List, Some, IfOk, IfSome, IsErrOf, OnOk};
ghost use Rattle.lio_outside.specs.FileMap.{with_file};
ghost use Rattle.lio_outside.specs.Count.{FailedAt};
ghost use Rattle.lio_outside.specs.Fetch.{given};

use crate::check::{check_fetch, check_keep, check_same};
use lio_outside::{FetchFault, KeepFault, MemStore, Readers, Store, SureStore};
use std::alloc::{AllocError, Global};
use std::process::Abort;

/// Why a file was not copied.
#[derive(Debug, PartialEq, Eq, Drop)]
enum CopyFault {
    Fetch(FetchFault),
    Keep(KeepFault),
}

/// Copies a file, or its first `limit + 1` bytes, within any store.
fn copy_file<S: Store>(
    alloc: Global,
    store: &mut S,
    from: &[u8],
    to: &[u8],
    limit: u32,
) -> Result<(), CopyFault>
    ensures copied { OnOk result (IfSome (S.holds store.old) (λ files.
        (bytes : List ℕ) × (given files from.now limit ≡ Some bytes)
        × (S.holds store.new ≡ Some (with_file files to.now bytes)))) }
    ensures read_fault { IsErrOf result (CopyFault.Fetch FetchFault.Failed)
        → FailedAt from.now (S.faults store.old) (S.faults store.new) }
    ensures write_fault { IsErrOf result (CopyFault.Keep KeepFault.Failed)
        → FailedAt to.now (S.faults store.old) (S.faults store.new) }
{
    let bytes = store.fetch(alloc, from, limit).map_err(CopyFault::Fetch)?;
    store
        .keep(alloc, to, bytes.as_slice(), Readers::Owner)
        .map_err(CopyFault::Keep)
}

#[test]
fn mem_store_fails_by_list(rt: HostRuntime) -> Result<(), AllocError> {
    let failing = vec![in rt.alloc(); 2, 4]?;
    let mut store = MemStore::new(rt.alloc(), failing);
    check_put(&rt, rt.alloc(), &mut store);
    check_calls_by_list(&rt, rt.alloc(), &mut store);
    check_end_by_list(&rt, &store);
    Ok(())
}

/// A file that is put in before the first call.
fn check_put(rt: &impl Abort, alloc: Global, store: &mut MemStore) {
    check_same(rt, &store.put(alloc, b"a", b"hello"), &Ok(()));
}

/// Six calls, of which the third and the fifth are to fail.
fn check_calls_by_list<S: Store>(rt: &impl Abort, alloc: Global, store: &mut S) {
    check_fetch(rt, store, alloc, (b"a", 2), Ok(b"hel"));
    check_keep(rt, store, alloc, (b"b", b"new"), Ok(()));
    check_keep(rt, store, alloc, (b"a", b"lost"), Err(KeepFault::Failed));
    check_fetch(rt, store, alloc, (b"c", 9), Err(FetchFault::Missing));
    check_fetch(rt, store, alloc, (b"b", 9), Err(FetchFault::Failed));
    check_fetch(rt, store, alloc, (b"b", 9), Ok(b"new"));
}

/// The store after these six calls.
fn check_end_by_list(rt: &impl Abort, store: &MemStore) {
    check_same(rt, &store.get(b"a"), &Some(b"hello".as_slice()));
    check_same(rt, &(store.call_count(), store.fault_count()), &(6, 2));
    check_same(rt, &store.failed_name(), &Some(b"b".as_slice()));
}

#[test]
fn sure_store_keeps(rt: HostRuntime) {
    let mut store = SureStore::new(rt.alloc());
    check_copy(&rt, rt.alloc(), &mut store);
    check_same(&rt, &store.get(b"b"), &Some(b"hell".as_slice()));
}

/// A file that is kept, its copy, and a name without a file.
fn check_copy<S: Store>(rt: &impl Abort, alloc: Global, store: &mut S) {
    check_keep(rt, store, alloc, (b"a", b"hello"), Ok(()));
    check_same(rt, &copy_file(alloc, store, b"a", b"b", 3), &Ok(()));
    check_fetch(rt, store, alloc, (b"b", u32::MAX), Ok(b"hell"));
    check_fetch(rt, store, alloc, (b"", 0), Err(FetchFault::Missing));
}
