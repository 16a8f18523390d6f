//! Fetching and keeping over the files of a system.
ghost use Rattle.std.specs.Prelude.{◌≡◌, ◌≢◌, ◌+◌, ◌<◌, ◌≤◌, true, Err, vec_capacity, vec_len};
ghost use Rattle.std.specs.Prelude.{IfOk, IfSome, IsErrAnd, OnOk};
ghost use Rattle.lio_system.specs.KnownFiles.{is_known, is_taken, StayKnown};

use crate::disk::{About, Access, Disk, FileKind, Opened};
use crate::known::{FileNumber, KnownFiles};
use crate::pieces::{read_up_to, write_whole};
use lio_outside::{FetchFault, KeepFault, Readers, Trouble};
use std::alloc::{AllocError, Global};
use std::io;
use std::io::ErrorKind;

/// How many names are tried for a new file beside an old one.
const NEIGHBOURS: u32 = 8;

/// The longest last part of a path, in bytes, behind which the name of a new file has room.
const LONGEST_STEM: usize = 249;

/// Why a file was not fetched or kept.
#[derive(Clone, Copy, Debug)]
pub(crate) enum Refusal {
    NoMemory,
    /// What the system said.
    System(io::Error),
    /// The name isn't UTF-8.
    NotText,
    /// The file is one that was fetched or kept under another name: which of the known files.
    SameFile(usize),
    /// Standard output goes to the file.
    StandardOutput,
    /// What the system said of a new file beside it.
    Beside(io::Error),
    /// The names of new files beside it are all taken.
    NamesTaken,
}

impl From<AllocError> for Refusal {
    fn from(_error: AllocError) -> Refusal {
        Refusal::NoMemory
    }
}

impl From<io::Error> for Refusal {
    fn from(error: io::Error) -> Refusal {
        Refusal::System(error)
    }
}

/// Fetches and keeps files of a system, and keeps in mind which, so that no file is written under
/// two names, or read under one and written under another, or written where standard output goes.
#[derive(Drop)]
pub struct DiskStore<D> {
    disk: D,
    known: KnownFiles,
    refusal: Option<Refusal>,
}

impl<D> DiskStore<D> {
    /// Over the files of a system, of which none was fetched or kept, and to one of which standard
    /// output may go.
    pub fn new(alloc: Global, disk: D, output: Option<FileNumber>) -> Self {
        DiskStore {
            disk,
            known: KnownFiles::new(alloc, output),
            refusal: None,
        }
    }

    /// The files of the system.
    pub fn disk(&self) -> &D
        ensures { result.now ≡ self.now.disk }
    {
        &self.disk
    }

    /// Forgets why the last call was refused.
    pub(crate) fn forget(&mut self) {
        self.refusal = None;
    }

    /// Why the last call was refused, if it was.
    pub(crate) fn trouble(&self) -> Option<Trouble<'_>> {
        match self.refusal? {
            Refusal::NoMemory => None,
            Refusal::System(error) => Some(Trouble::System(error)),
            Refusal::NotText => Some(Trouble::NotText),
            Refusal::SameFile(place) => Some(Trouble::SameFile(self.known.name(place)?)),
            Refusal::StandardOutput => Some(Trouble::StandardOutput),
            Refusal::Beside(error) => Some(Trouble::Beside(error)),
            Refusal::NamesTaken => Some(Trouble::NamesTaken),
        }
    }
}

impl<D: Disk> DiskStore<D> {
    /// The first `limit + 1` bytes of a file, or all where there are fewer.
    pub fn fetch(&mut self, alloc: Global, name: &[u8], limit: u32) -> Result<Vec<u8>, FetchFault>
        ensures within { IfOk result (λ v. vec_len v ≤ limit + 1) }
        ensures known { OnOk result (IfSome (D.number_at self.old.disk name.now) (λ number.
            is_known self.new.known.files.items number name.now ≡ true)) }
        ensures others { StayKnown self.old.known.files.items self.new.known.files.items }
    {
        self.refusal = None;
        match fetch_file(&mut self.disk, &mut self.known, alloc, name, limit) {
            Ok(bytes) => Ok(bytes),
            Err(refusal) => {
                self.refusal = Some(refusal);
                Err(fetch_fault(refusal))
            }
        }
    }

    /// Puts the bytes under a name, for these readers where no file is there.
    pub fn keep(
        &mut self,
        alloc: Global,
        name: &[u8],
        bytes: &[u8],
        readers: Readers,
    ) -> Result<(), KeepFault>
        ensures same_file { IfSome (D.number_at self.old.disk name.now) (λ number.
            is_taken self.old.known number name.now ≡ true
            → (result ≡ Err KeepFault.Failed) × (self.new.disk ≡ self.old.disk)) }
    {
        self.refusal = None;
        let content = Content { bytes, readers };
        match keep_file(&mut self.disk, &mut self.known, alloc, name, content) {
            Ok(()) => Ok(()),
            Err(refusal) => {
                self.refusal = Some(refusal);
                Err(keep_fault(refusal))
            }
        }
    }
}

/// The answer for a file that was not fetched.
fn fetch_fault(refusal: Refusal) -> FetchFault {
    match refusal {
        Refusal::NoMemory => FetchFault::NoMemory,
        Refusal::NotText => FetchFault::Missing,
        Refusal::System(error) => match error.kind() {
            ErrorKind::OutOfMemory => FetchFault::NoMemory,
            ErrorKind::NotFound | ErrorKind::NotADirectory => FetchFault::Missing,
            _ => FetchFault::Failed,
        },
        _ => FetchFault::Failed,
    }
}

/// The answer for a file that was not kept.
fn keep_fault(refusal: Refusal) -> KeepFault
    ensures { refusal ≢ Refusal.NoMemory → result ≡ KeepFault.Failed }
{
    match refusal {
        Refusal::NoMemory => KeepFault::NoMemory,
        _ => KeepFault::Failed,
    }
}

/// The first `limit + 1` bytes of a file.
fn fetch_file<D: Disk>(
    disk: &mut D,
    known: &mut KnownFiles,
    alloc: Global,
    name: &[u8],
    limit: u32,
) -> Result<Vec<u8>, Refusal>
    ensures within { IfOk result (λ v. vec_len v ≤ limit + 1) }
    ensures known { OnOk result (IfSome (D.number_at disk.old name.now) (λ number.
        is_known known.new.files.items number name.now ≡ true)) }
    ensures others { StayKnown known.old.files.items known.new.files.items }
{
    let Ok(path) = str::from_utf8(name) else {
        return Err(Refusal::NotText);
    };
    let name = known.make_room(alloc, name)?;
    let Opened { mut file, about } = disk.open(path)?;
    // A terminal is read and written under one number, and keeps no bytes that could be lost.
    if about.kind != FileKind::Device {
        remember(known, name, about.number);
    }
    Ok(read_up_to(&mut file, alloc, limit as usize + 1)?)
}

/// Adds a file, unless it is known under its name; there is room for it.
fn remember(known: &mut KnownFiles, name: Vec<u8>, number: FileNumber)
    requires { vec_len known.old.files < vec_capacity known.old.files }
    ensures known { is_known known.new.files.items number name.items ≡ true }
    ensures others { StayKnown known.old.files.items known.new.files.items }
{
    if !known.has(number, name.as_slice()) {
        known.add(name, number);
    }
}

/// Fails where standard output goes to a file, or it is known under another name.
fn require_free(known: &KnownFiles, number: FileNumber, name: &[u8]) -> Result<(), Refusal>
    ensures { is_taken known.now number name.now ≡ true
        → IsErrAnd result (λ refusal. refusal ≢ Refusal.NoMemory) }
{
    if known.is_output(number) {
        return Err(Refusal::StandardOutput);
    }
    match known.other(number, name) {
        Some(place) => Err(Refusal::SameFile(place)),
        None => Ok(()),
    }
}

/// What stands under a name.
enum Place {
    /// No file.
    Free,
    /// A plain file with this access.
    Plain(Access),
    /// A device, a link or the like.
    Other,
}

/// What stands under a path. It fails where that file may not be written under it.
fn place_of<D: Disk>(disk: &D, known: &KnownFiles, path: &str) -> Result<Place, Refusal>
    ensures same_file { IfSome (D.number_at disk.now path.now) (λ number.
        is_taken known.now number path.now ≡ true
        → IsErrAnd result (λ refusal. refusal ≢ Refusal.NoMemory)) }
{
    match disk.about(path) {
        Ok(
            About {
                number,
                kind,
                access,
            },
        ) => {
            require_free(known, number, path.as_bytes())?;
            if kind == FileKind::Plain && !disk.is_link(path) {
                Ok(Place::Plain(access))
            } else {
                Ok(Place::Other)
            }
        }
        Err(error) if error.kind() != ErrorKind::NotFound => Err(Refusal::System(error)),
        Err(_) if disk.is_link(path) => Ok(Place::Other),
        Err(_) => Ok(Place::Free),
    }
}

/// What is kept, and who may read it in a file that is new.
#[derive(Clone, Copy)]
struct Content<'a> {
    bytes: &'a [u8],
    readers: Readers,
}

/// Puts the bytes under the name. Memory is taken before any file is touched.
fn keep_file<D: Disk>(
    disk: &mut D,
    known: &mut KnownFiles,
    alloc: Global,
    name: &[u8],
    content: Content<'_>,
) -> Result<(), Refusal>
    ensures same_file { IfSome (D.number_at disk.old name.now) (λ number.
        is_taken known.old number name.now ≡ true
        → IsErrAnd result (λ refusal. refusal ≢ Refusal.NoMemory) × (disk.new ≡ disk.old)) }
{
    let Ok(path) = str::from_utf8(name) else {
        return Err(Refusal::NotText);
    };
    match place_of(disk, known, path)? {
        Place::Free => put_beside(disk, known, alloc, path, None, content),
        Place::Plain(access) => {
            require_writable(disk, path)?;
            put_beside(disk, known, alloc, path, Some(access), content)
        }
        Place::Other => write_in_place(disk, known, alloc, path, content),
    }
}

/// Fails where a file may not be written.
fn require_writable<D: Disk>(disk: &mut D, path: &str) -> io::Result<()> {
    disk.open_to_write(path, Readers::Owner)?;
    Ok(())
}

/// A new file, its number, and its path.
#[derive(Drop)]
struct Neighbour<F> {
    file: F,
    number: FileNumber,
    path: String,
}

/// A path, without what of its last part leaves no room behind it.
fn stem(path: &str) -> &str {
    let last = match path.rsplit_once('/') {
        Some((_, last)) => last,
        None => path,
    };
    let extra = last.len().saturating_sub(LONGEST_STEM);
    let end = path.len().saturating_sub(extra);
    // A character has four bytes at most.
    for cut in 0..4 {
        if let Some(stem) = path.get(..end.saturating_sub(cut)) {
            return stem;
        }
    }
    path
}

/// Makes a new file beside a path for these readers, under the first of a few names that is free.
fn new_neighbour<D: Disk>(
    disk: &mut D,
    alloc: Global,
    path: &str,
    readers: Readers,
) -> Result<Neighbour<D::File>, Refusal> {
    let stem = stem(path);
    for number in 0..NEIGHBOURS {
        let path = format!(in alloc; "{stem}.part{number}")?;
        match disk.create(path.as_str(), readers) {
            Ok(Opened { file, about }) => {
                return Ok(Neighbour {
                    file,
                    number: about.number,
                    path,
                });
            }
            Err(error) => match error.kind() {
                ErrorKind::AlreadyExists => {}
                ErrorKind::NotFound => return Err(Refusal::System(error)),
                _ => return Err(Refusal::Beside(error)),
            },
        }
    }
    Err(Refusal::NamesTaken)
}

/// Puts the bytes under a path, by way of a new file beside it, with the access of the old one.
/// Until it has that, nobody else may read what is to replace an old file.
fn put_beside<D: Disk>(
    disk: &mut D,
    known: &mut KnownFiles,
    alloc: Global,
    path: &str,
    old: Option<Access>,
    content: Content<'_>,
) -> Result<(), Refusal> {
    let readers = match &old {
        Some(_) => Readers::Owner,
        None => content.readers,
    };
    let name = known.make_room(alloc, path.as_bytes())?;
    let neighbour = new_neighbour(disk, alloc, path, readers)?;
    let number = neighbour.number;
    replace(disk, neighbour, path, old, content.bytes)?;
    known.add_new(name, number);
    Ok(())
}

/// Fills a new file and gives it the path of another one, or removes it.
fn replace<D: Disk>(
    disk: &mut D,
    neighbour: Neighbour<D::File>,
    path: &str,
    old: Option<Access>,
    bytes: &[u8],
) -> io::Result<()> {
    let Neighbour {
        file,
        path: beside,
        ..
    } = neighbour;
    let replaced = match fill(disk, file, old, bytes) {
        Ok(()) => disk.rename(beside.as_str(), path),
        refused => refused,
    };
    if replaced.is_err() {
        let _ = disk.remove(beside.as_str());
    }
    replaced
}

/// Writes a new file whole, and then gives it the access of an old one.
fn fill<D: Disk>(
    disk: &mut D,
    mut file: D::File,
    old: Option<Access>,
    bytes: &[u8],
) -> io::Result<()> {
    write_whole(&mut file, bytes)?;
    match old {
        Some(access) => disk.set_access(&mut file, access),
        None => Ok(()),
    }
}

/// Writes a file whole where it stands. It is looked at once more when it is open, since a link may
/// have come to lead elsewhere.
fn write_in_place<D: Disk>(
    disk: &mut D,
    known: &mut KnownFiles,
    alloc: Global,
    path: &str,
    content: Content<'_>,
) -> Result<(), Refusal> {
    let name = known.make_room(alloc, path.as_bytes())?;
    let Opened { mut file, about } = disk.open_to_write(path, content.readers)?;
    require_free(known, about.number, path.as_bytes())?;
    remember(known, name, about.number);
    if about.kind == FileKind::Plain {
        disk.clear(&mut file)?;
    }
    Ok(write_whole(&mut file, content.bytes)?)
}
