//! Files of the system under two names, and what the system says of those that can't be written.

use crate::check::{check_fetch, check_keep, check_same};
use crate::files::new_folder;
use lio_outside::{FetchFault, KeepFault, Store, Trouble};
use lio_system::RealStore;
use std::alloc::{AllocError, Global};
use std::fs::Files;
use std::io::ErrorKind;
use std::os::unix::fs::symlink;
use std::process::Abort;
use std::{fs, io};

/// The paths of the files of a folder.
#[derive(Drop)]
struct Paths {
    input: String,
    dotted: String,
    link: String,
    script: String,
    hard: String,
    output: String,
    dotted_output: String,
}

impl Paths {
    /// Those of a folder.
    fn of(alloc: Global, folder: &str) -> Result<Paths, AllocError> {
        Ok(Paths {
            input: format!(in alloc; "{folder}/a.txt")?,
            dotted: format!(in alloc; "{folder}/./a.txt")?,
            link: format!(in alloc; "{folder}/link.txt")?,
            script: format!(in alloc; "{folder}/s.lio")?,
            hard: format!(in alloc; "{folder}/hard.lio")?,
            output: format!(in alloc; "{folder}/out.txt")?,
            dotted_output: format!(in alloc; "{folder}/../{}/out.txt", last_part(folder))?,
        })
    }
}

/// The last part of a path.
fn last_part(path: &str) -> &str {
    match path.rsplit_once('/') {
        Some((_, last)) => last,
        None => path,
    }
}

#[test]
fn no_file_of_a_folder_is_written_under_two_names(rt: HostRuntime) -> io::Result<()> {
    let folder = new_folder(&rt, rt.process(), "names")?;
    let paths = Paths::of(rt.alloc(), folder.as_str())?;
    fs::write(&rt, paths.input.as_str(), "input")?;
    fs::write(&rt, paths.script.as_str(), "script")?;
    symlink(&rt, "a.txt", paths.link.as_str())?;
    fs::hard_link(&rt, paths.script.as_str(), paths.hard.as_str())?;
    let mut store = RealStore::new(rt.alloc(), &rt);
    check_two_names(&rt, rt.alloc(), &mut store, &paths);
    check_same(&rt, &store.fault_count(), &5);
    check_same(&rt, &store.failed_name(), &Some(paths.input.as_bytes()));
    fs::remove_dir_all(&rt, folder.as_str())
}

/// What was read or written is refused under another name, and stays as it was.
fn check_two_names<S: Store>(rt: &impl Abort, alloc: Global, store: &mut S, paths: &Paths) {
    let input = paths.input.as_bytes();
    let output = paths.output.as_bytes();
    check_fetch(rt, store, alloc, (input, 9), Ok(b"input"));
    check_fetch(
        rt,
        store,
        alloc,
        (paths.script.as_bytes(), 9),
        Ok(b"script"),
    );
    check_keep(rt, store, alloc, (output, b"public"), Ok(()));
    check_taken(rt, alloc, store, &paths.dotted, input);
    check_taken(rt, alloc, store, &paths.link, input);
    check_taken(rt, alloc, store, &paths.hard, paths.script.as_bytes());
    check_taken(rt, alloc, store, &paths.dotted_output, output);
    check_fetch(rt, store, alloc, (paths.link.as_bytes(), 9), Ok(b"input"));
    check_fetch(rt, store, alloc, (paths.hard.as_bytes(), 9), Ok(b"script"));
    check_fetch(rt, store, alloc, (output, 9), Ok(b"public"));
    check_taken(rt, alloc, store, &paths.input, paths.link.as_bytes());
}

/// Asserts that a keep is refused, since the file has another name.
fn check_taken<S: Store>(
    rt: &impl Abort,
    alloc: Global,
    store: &mut S,
    name: &String,
    other: &[u8],
) {
    let bytes = (name.as_bytes(), b"secret".as_slice());
    check_keep(rt, store, alloc, bytes, Err(KeepFault::Failed));
    match store.trouble() {
        Some(Trouble::SameFile(name)) => check_same(rt, &name, &other),
        _ => panic!(rt; "another trouble"),
    }
}

#[test]
fn the_word_of_the_system_is_told(rt: HostRuntime) -> io::Result<()> {
    let folder = new_folder(&rt, rt.process(), "words")?;
    let lost = format!(in rt.alloc(); "{folder}/lost/a.txt")?;
    let mut store = RealStore::new(rt.alloc(), &rt);
    let alloc = rt.alloc();
    check_word(
        &rt,
        alloc,
        &mut store,
        folder.as_str(),
        ErrorKind::IsADirectory,
    );
    check_word(&rt, alloc, &mut store, lost.as_str(), ErrorKind::NotFound);
    check_word(&rt, alloc, &mut store, "/dev/full", ErrorKind::StorageFull);
    check_fetch(
        &rt,
        &mut store,
        alloc,
        (folder.as_bytes(), 9),
        Err(FetchFault::Failed),
    );
    check_told(&rt, &store, ErrorKind::IsADirectory);
    fs::remove_dir_all(&rt, folder.as_str())
}

/// Asserts that a keep fails, and what the system says.
fn check_word<S: Store>(
    rt: &impl Abort,
    alloc: Global,
    store: &mut S,
    name: &str,
    want: ErrorKind,
) {
    check_keep(
        rt,
        store,
        alloc,
        (name.as_bytes(), b"x"),
        Err(KeepFault::Failed),
    );
    check_told(rt, store, want);
}

/// Compares what the system said of the last call.
fn check_told<S: Store>(rt: &impl Abort, store: &S, want: ErrorKind) {
    match store.trouble() {
        Some(Trouble::System(error)) => check_same(rt, &error.kind(), &want),
        _ => panic!(rt; "another trouble"),
    }
}
