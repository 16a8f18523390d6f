//! The files of a system, by their paths.
ghost use Rattle.std.specs.Prelude.{◌≡◌, ◌≢◌, None, IfOk, IfSome, IsErrAnd};
ghost use Rattle.std.specs.IoError.{error_kind};
ghost use Rattle.lio_system.specs.Numbers.{NumberAt};

use crate::known::FileNumber;
use lio_outside::Readers;
use std::fs::Permissions;
use std::io;
use std::io::{ErrorKind, Read, Write};

/// What a file is.
#[derive(Clone, Copy, Debug, PartialEq, Eq)]
pub enum FileKind {
    /// A plain file, which keeps its bytes.
    Plain,
    /// A device that hands bytes on, as a terminal.
    Device,
    /// A folder, a pipe or the like.
    Other,
}

/// Who may do what with a file.
#[derive(Drop)]
pub struct Access {
    pub permissions: Permissions,
    /// The number of its group.
    pub group: u32,
}

/// What is known of a file that is there.
#[derive(Drop)]
pub struct About {
    pub number: FileNumber,
    pub kind: FileKind,
    pub access: Access,
}

/// An open file, and what it is.
#[derive(Drop)]
pub struct Opened<F> {
    pub file: F,
    pub about: About,
}

/// The files of a system, by their paths, as a store needs them. Its meaning is `number_at`, the
/// number of the file under a path, or `None` where there is none, where it is a device that hands
/// bytes on, or where nothing is told.
pub trait Disk {
    type File: Read + Write + Drop;

    ghost number_at: { Self → NumberAt };

    /// What the file under a path is; links are followed.
    fn about(&self, path: &str) -> io::Result<About>
        ensures number { IfSome (number_at self.now path.now)
            (λ number. IfOk result (λ about. about.number ≡ number)) }
        ensures not_there { IsErrAnd result (λ error. error_kind error ≡ ErrorKind.NotFound)
            → number_at self.now path.now ≡ None };

    /// Whether a path ends in a link.
    fn is_link(&self, path: &str) -> bool;

    /// Opens a file, to be read from its beginning.
    fn open(&mut self, path: &str) -> io::Result<Opened<Self::File>>
        ensures number { IfSome (number_at self.old path.now) (λ number. IfOk result
            (λ opened. (opened.about.number ≡ number)
            × (opened.about.kind ≢ FileKind.Device))) };

    /// Opens a file, to be written from its beginning. It is made, for these readers, where it
    /// isn't there, and is as before where it is.
    fn open_to_write(&mut self, path: &str, readers: Readers) -> io::Result<Opened<Self::File>>;

    /// Makes a new file for these readers, where nothing is under the path, to be written.
    fn create(&mut self, path: &str, readers: Readers) -> io::Result<Opened<Self::File>>;

    /// Takes all bytes from an open file.
    fn clear(&mut self, file: &mut Self::File) -> io::Result<()>;

    /// Says who may do what with an open file. Where it can't be given to the group, that group's
    /// members get nothing.
    fn set_access(&mut self, file: &mut Self::File, access: Access) -> io::Result<()>;

    /// Gives a file another path, in place of the file there.
    fn rename(&mut self, from: &str, to: &str) -> io::Result<()>;

    /// Takes a path from its file.
    fn remove(&mut self, path: &str) -> io::Result<()>;
}
