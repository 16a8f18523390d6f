//! The store over the files of the system, over a folder.

use crate::check::{check_fetch, check_keep, check_same};
use lio_outside::{FetchFault, KeepFault, Store};
use lio_system::RealStore;
use std::alloc::{AllocError, Global};
use std::os::fd::AsFd;
use std::process::{Abort, Process};
use std::rt::Files;
use std::{env, fs, io, process};

/// Compares the count of faults of a store over files.
fn check_faults<R>(rt: &impl Abort, store: &RealStore<R>, want: u64) {
    check_same(rt, &store.fault_count(), &want);
}

/// A new folder of the system for this process, for one test.
pub(crate) fn new_folder(rt: &HostRuntime, process: Process, test: &str) -> io::Result<String> {
    let temporary = env::temp_dir(rt)?;
    let number = process::id(process);
    let folder = format!(in rt.alloc(); "{}/lio_system_{test}_{number}", temporary.as_str())?;
    fs::create_dir(rt, folder.as_str())?;
    Ok(folder)
}

#[test]
fn real_store_over_a_folder(rt: HostRuntime) -> io::Result<()> {
    let folder = new_folder(&rt, rt.process(), "files")?;
    check_folder(&rt, rt.alloc(), folder.as_str())?;
    fs::remove_dir_all(&rt, folder.as_str())
}

/// The store over a folder that is there and empty.
fn check_folder<R: Abort + Files + Eprint>(
    rt: &R,
    alloc: Global,
    folder: &str,
) -> Result<(), AllocError>
where
    R::File: AsFd,
{
    let file = format!(in alloc; "{folder}/a.txt")?;
    let part = neighbour(alloc, file.as_str(), 0)?;
    let next_part = neighbour(alloc, file.as_str(), 1)?;
    let store = RealStore::new(alloc, rt);
    check_files(
        rt,
        alloc,
        store,
        (folder.as_bytes(), file.as_bytes()),
        (part.as_str(), next_part.as_str()),
    );
    Ok(())
}

/// The name of a neighbour of a file.
fn neighbour(alloc: Global, file: &str, number: u32) -> Result<String, AllocError> {
    format!(in alloc; "{file}.part{number}")
}

/// A store over a folder, a file in it, and that file's first two neighbours.
fn check_files<R: Files + Eprint + Drop>(
    rt: &(impl Abort + Files + Eprint),
    alloc: Global,
    mut store: RealStore<R>,
    (folder, file): (&[u8], &[u8]),
    (part, next_part): (&str, &str),
)
where
    R::File: AsFd,
{
    check_refused(rt, alloc, &mut store, folder, file);
    check_faults(rt, &store, 4);
    check_replaced(rt, alloc, &mut store, file, part.as_bytes());
    check_written(rt, part);
    check_passed_over(
        rt,
        alloc,
        &mut store,
        file,
        (part.as_bytes(), next_part.as_bytes()),
    );
    check_faults(rt, &store, 6);
}

/// Writes a file past the store.
fn check_written(rt: &(impl Abort + Files + Eprint), path: &str) {
    check_same(rt, &fs::write(rt, path, "mine").is_ok(), &true);
}

/// A name without a file, one that isn't UTF-8, and a folder.
fn check_refused<S: Store>(
    rt: &impl Abort,
    alloc: Global,
    store: &mut S,
    folder: &[u8],
    file: &[u8],
) {
    check_fetch(rt, store, alloc, (file, 9), Err(FetchFault::Missing));
    check_fetch(rt, store, alloc, (b"\xff", 9), Err(FetchFault::Missing));
    check_fetch(rt, store, alloc, (folder, 9), Err(FetchFault::Failed));
    check_keep(rt, store, alloc, (folder, b"x"), Err(KeepFault::Failed));
}

/// A file that is replaced, by way of a neighbour that is not left.
fn check_replaced<S: Store>(
    rt: &impl Abort,
    alloc: Global,
    store: &mut S,
    file: &[u8],
    part: &[u8],
) {
    check_keep(rt, store, alloc, (file, b"a first text"), Ok(()));
    check_keep(rt, store, alloc, (file, b"hello"), Ok(()));
    check_fetch(rt, store, alloc, (file, 9), Ok(b"hello"));
    check_fetch(rt, store, alloc, (file, 2), Ok(b"hel"));
    check_fetch(rt, store, alloc, (part, 9), Err(FetchFault::Missing));
}

/// Where a neighbour's name is taken, that file stays, and another name is tried, under which
/// nothing is left.
fn check_passed_over<S: Store>(
    rt: &impl Abort,
    alloc: Global,
    store: &mut S,
    file: &[u8],
    (part, next_part): (&[u8], &[u8]),
) {
    check_keep(rt, store, alloc, (file, b"bye"), Ok(()));
    check_fetch(rt, store, alloc, (file, 9), Ok(b"bye"));
    check_fetch(rt, store, alloc, (part, 9), Ok(b"mine"));
    check_fetch(rt, store, alloc, (next_part, 9), Err(FetchFault::Missing));
}
