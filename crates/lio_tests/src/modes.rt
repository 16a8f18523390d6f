//! Who may read the files that a store over the files of the system keeps.

use crate::check::{check_keep, check_same};
use crate::files::new_folder;
use lio_outside::{KeepFault, Readers, Store, Trouble};
use lio_system::RealStore;
use std::alloc::{AllocError, Global};
use std::fs::{Files, Permissions};
use std::os::unix::fs::{MetadataExt, PermissionsExt, chown};
use std::process::Abort;
use std::{fs, io};

/// The permissions of a file, and the number of its group.
fn access(rt: &impl Files, path: &str) -> io::Result<(u32, u32)> {
    let data = fs::metadata(rt, path)?;
    Ok((data.mode() & 0o7777, data.gid()))
}

/// Keeps a text.
fn keep<S: Store>(rt: &impl Abort, alloc: Global, store: &mut S, path: &str, readers: Readers) {
    let answer = store.keep(alloc, path.as_bytes(), b"text", readers);
    check_same(rt, &answer, &Ok(()));
}

#[test]
fn new_files_are_for_their_readers(rt: HostRuntime) -> io::Result<()> {
    let folder = new_folder(&rt, rt.process(), "readers")?;
    let mine = format!(in rt.alloc(); "{folder}/mine")?;
    let ours = format!(in rt.alloc(); "{folder}/ours")?;
    let plain = format!(in rt.alloc(); "{folder}/plain")?;
    fs::write(&rt, plain.as_str(), "text")?;
    let mut store = RealStore::new(rt.alloc(), &rt);
    keep(&rt, rt.alloc(), &mut store, mine.as_str(), Readers::Owner);
    keep(
        &rt,
        rt.alloc(),
        &mut store,
        ours.as_str(),
        Readers::Everyone,
    );
    let (mode, _) = access(&rt, mine.as_str())?;
    check_same(&rt, &mode, &0o600);
    let usual = access(&rt, plain.as_str())?;
    check_same(&rt, &access(&rt, ours.as_str())?, &usual);
    fs::remove_dir_all(&rt, folder.as_str())
}

#[test]
fn an_old_file_keeps_its_access(rt: HostRuntime) -> io::Result<()> {
    let folder = new_folder(&rt, rt.process(), "access")?;
    let path = format!(in rt.alloc(); "{folder}/old")?;
    fs::write(&rt, path.as_str(), "old text")?;
    // Only who may do so gives a file to a group of which they are no member.
    let _ = chown(&rt, path.as_str(), None, Some(4242));
    fs::set_permissions(&rt, path.as_str(), Permissions::from_mode(0o640))?;
    let before = access(&rt, path.as_str())?;
    let mut store = RealStore::new(rt.alloc(), &rt);
    keep(
        &rt,
        rt.alloc(),
        &mut store,
        path.as_str(),
        Readers::Everyone,
    );
    check_same(&rt, &access(&rt, path.as_str())?, &before);
    check_same(&rt, &before.0, &0o640);
    fs::remove_dir_all(&rt, folder.as_str())
}

/// A name that is as long as a name can be, in characters of two bytes.
fn long_name(alloc: Global, folder: &str) -> Result<String, AllocError> {
    let mut name = format!(in alloc; "{folder}/a")?;
    for _ in 0..127 {
        name.push('\u{e9}')?;
    }
    Ok(name)
}

#[test]
fn a_long_name_is_replaced(rt: HostRuntime) -> io::Result<()> {
    let folder = new_folder(&rt, rt.process(), "long")?;
    let path = long_name(rt.alloc(), folder.as_str())?;
    let mut store = RealStore::new(rt.alloc(), &rt);
    for _ in 0..2 {
        keep(&rt, rt.alloc(), &mut store, path.as_str(), Readers::Owner);
    }
    let text = fs::read_to_string(&rt, path.as_str())?;
    check_same(&rt, &text.as_str(), &"text");
    fs::remove_dir_all(&rt, folder.as_str())
}

#[test]
fn no_room_beside_leaves_the_old_file(rt: HostRuntime) -> io::Result<()> {
    let folder = new_folder(&rt, rt.process(), "taken")?;
    let path = format!(in rt.alloc(); "{folder}/old")?;
    fs::write(&rt, path.as_str(), "old text")?;
    for number in 0..8 {
        let beside = format!(in rt.alloc(); "{folder}/old.part{number}")?;
        fs::write(&rt, beside.as_str(), "left")?;
    }
    let mut store = RealStore::new(rt.alloc(), &rt);
    let content = (path.as_bytes(), b"new".as_slice());
    check_keep(&rt, &mut store, rt.alloc(), content, Err(KeepFault::Failed));
    match store.trouble() {
        Some(Trouble::NamesTaken) => {}
        _ => panic!(&rt; "another trouble"),
    }
    let text = fs::read_to_string(&rt, path.as_str())?;
    check_same(&rt, &text.as_str(), &"old text");
    fs::remove_dir_all(&rt, folder.as_str())
}
