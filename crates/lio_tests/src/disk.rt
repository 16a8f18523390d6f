//! Files under two names, and files that fail, over a disk that isn't there.

use crate::check::check_same;
use crate::fake_disk::{FakeDisk, Step};
use lio_outside::{FetchFault, KeepFault, Readers};
use lio_system::{DiskStore, FileNumber};
use std::alloc::{AllocError, Global};
use std::process::Abort;

/// Fetches and compares the answer.
fn check_fetch(
    rt: &impl Abort,
    store: &mut DiskStore<FakeDisk>,
    alloc: Global,
    (name, limit): (&[u8], u32),
    want: Result<&[u8], FetchFault>,
) {
    match store.fetch(alloc, name, limit) {
        Ok(bytes) => check_same(rt, &Ok(bytes.as_slice()), &want),
        Err(fault) => check_same(rt, &Err(fault), &want),
    }
}

/// Keeps and compares the answer.
fn check_keep(
    rt: &impl Abort,
    store: &mut DiskStore<FakeDisk>,
    alloc: Global,
    (name, bytes): (&[u8], &[u8]),
    want: Result<(), KeepFault>,
) {
    check_same(
        rt,
        &store.keep(alloc, name, bytes, Readers::Everyone),
        &want,
    );
}

/// Asserts that a keep is refused and touches no file.
fn check_untouched(rt: &impl Abort, store: &mut DiskStore<FakeDisk>, alloc: Global, name: &[u8]) {
    let touches = store.disk().touches();
    check_keep(rt, store, alloc, (name, b"secret"), Err(KeepFault::Failed));
    check_same(rt, &store.disk().touches(), &touches);
}

/// An input, a script with a second name, a link to each, a terminal, and neighbours that are
/// there.
fn disk_with_names(alloc: Global) -> Result<FakeDisk, AllocError> {
    let mut disk = FakeDisk::new(alloc);
    for (path, number) in [
        ("a.txt", 1),
        ("s.lio", 2),
        ("hard.lio", 2),
        ("terminal", 50),
        ("tty", 50),
        ("slow", 61),
        ("broken", 62),
        ("busy", 63),
        ("held.part0", 64),
        ("held.part1", 65),
        ("held.part2", 66),
        ("full.part0", 70),
        ("full.part1", 71),
        ("full.part2", 72),
        ("full.part3", 73),
        ("full.part4", 74),
        ("full.part5", 75),
        ("full.part6", 76),
        ("full.part7", 77),
    ] {
        disk.name(path, number)?;
    }
    disk.link("link.txt", "a.txt")?;
    disk.link("new_link.txt", "new.txt")?;
    Ok(disk)
}

#[test]
fn no_file_is_written_under_two_names(rt: HostRuntime) -> Result<(), AllocError> {
    let alloc = rt.alloc();
    let mut store = DiskStore::new(alloc, disk_with_names(alloc)?, None);
    check_read_twice(&rt, alloc, &mut store);
    check_other_names(&rt, alloc, &mut store);
    check_numbers_again(&rt, alloc, &mut store);
    Ok(())
}

/// A file is read under each of its names.
fn check_read_twice(rt: &impl Abort, alloc: Global, store: &mut DiskStore<FakeDisk>) {
    check_fetch(rt, store, alloc, (b"a.txt", 1), Ok(b"xx"));
    check_fetch(rt, store, alloc, (b"link.txt", 1), Ok(b"xx"));
    check_fetch(rt, store, alloc, (b"./a.txt", 1), Ok(b"xx"));
    check_fetch(rt, store, alloc, (b"s.lio", 1), Ok(b"xx"));
    check_fetch(rt, store, alloc, (b"tty", 1), Ok(b"xx"));
}

/// What was read or written under one name isn't written under another.
fn check_other_names(rt: &impl Abort, alloc: Global, store: &mut DiskStore<FakeDisk>) {
    check_untouched(rt, store, alloc, b"a.txt");
    check_untouched(rt, store, alloc, b"./a.txt");
    check_untouched(rt, store, alloc, b"link.txt");
    check_untouched(rt, store, alloc, b"hard.lio");
    check_keep(rt, store, alloc, (b"terminal", b"shown"), Ok(()));
    check_untouched(rt, store, alloc, b"tty");
    check_keep(rt, store, alloc, (b"new.txt", b"public"), Ok(()));
    check_untouched(rt, store, alloc, b"./new.txt");
    check_untouched(rt, store, alloc, b"new_link.txt");
    check_keep(rt, store, alloc, (b"new.txt", b"again"), Ok(()));
}

/// A new file under the number of one that is gone is no other file's.
fn check_numbers_again(rt: &impl Abort, alloc: Global, store: &mut DiskStore<FakeDisk>) {
    check_keep(rt, store, alloc, (b"s.lio", b"other"), Ok(()));
    store.disk().make_next(2);
    check_keep(rt, store, alloc, (b"more.txt", b"first"), Ok(()));
    check_keep(rt, store, alloc, (b"more.txt", b"second"), Ok(()));
}

#[test]
fn pieces_are_joined_and_failures_told(rt: HostRuntime) -> Result<(), AllocError> {
    let alloc = rt.alloc();
    let mut store = DiskStore::new(alloc, disk_with_names(alloc)?, None);
    check_pieces_read(&rt, alloc, &mut store);
    check_pieces_written(&rt, alloc, &mut store);
    check_same(&rt, &store.disk().counts(), &(2, 3));
    Ok(())
}

/// Short reads are joined, and a failure is met only past the bytes that were asked for.
fn check_pieces_read(rt: &impl Abort, alloc: Global, store: &mut DiskStore<FakeDisk>) {
    check_fetch(rt, store, alloc, (b"slow", 9), Ok(b"xxxxx"));
    check_fetch(rt, store, alloc, (b"slow", 2), Ok(b"xxx"));
    check_fetch(rt, store, alloc, (b"broken", 2), Ok(b"xxx"));
    check_fetch(rt, store, alloc, (b"broken", 3), Err(FetchFault::Failed));
    check_fetch(rt, store, alloc, (b"busy", 3), Err(FetchFault::Failed));
    check_fetch(rt, store, alloc, (b"gone/a", 3), Err(FetchFault::Missing));
}

/// Short writes are joined, and a piece that writes nothing is a failure, which leaves no
/// neighbour. Neighbours that are there already are passed over, and where all are, or none can be
/// made, nothing is written.
fn check_pieces_written(rt: &impl Abort, alloc: Global, store: &mut DiskStore<FakeDisk>) {
    let failed = Err(KeepFault::Failed);
    check_keep(rt, store, alloc, (b"slow", b"five!"), Ok(()));
    check_keep(rt, store, alloc, (b"slow", b"sixth!"), failed);
    check_keep(rt, store, alloc, (b"broken", b"four"), failed);
    check_keep(rt, store, alloc, (b"busy", b"four"), failed);
    check_keep(rt, store, alloc, (b"held", b"five!"), Ok(()));
    check_keep(rt, store, alloc, (b"full", b"four"), failed);
    check_keep(rt, store, alloc, (b"gone/a", b"four"), failed);
}

#[test]
fn what_is_new_is_for_its_readers(rt: HostRuntime) -> Result<(), AllocError> {
    let alloc = rt.alloc();
    let mut store = DiskStore::new(alloc, disk_with_names(alloc)?, None);
    for (name, readers) in [
        (b"a.txt".as_slice(), Readers::Everyone),
        (b"mine", Readers::Owner),
        (b"ours", Readers::Everyone),
    ] {
        check_same(&rt, &store.keep(alloc, name, b"text", readers), &Ok(()));
    }
    check_same(
        &rt,
        &store.disk().steps(),
        &[
            Step::Made(Readers::Owner),
            Step::Opened,
            Step::Renamed,
            Step::Made(Readers::Owner),
            Step::Renamed,
            Step::Made(Readers::Everyone),
            Step::Renamed,
        ]
        .as_slice(),
    );
    Ok(())
}

#[test]
fn nothing_is_written_where_standard_output_goes(rt: HostRuntime) -> Result<(), AllocError> {
    let alloc = rt.alloc();
    let output = FileNumber {
        device: 7,
        inode: 2,
    };
    let mut store = DiskStore::new(alloc, disk_with_names(alloc)?, Some(output));
    check_fetch(&rt, &mut store, alloc, (b"s.lio", 1), Ok(b"xx"));
    check_untouched(&rt, &mut store, alloc, b"s.lio");
    check_untouched(&rt, &mut store, alloc, b"hard.lio");
    check_keep(&rt, &mut store, alloc, (b"a.txt", b"other"), Ok(()));
    Ok(())
}
