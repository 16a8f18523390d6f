//! The files of a runtime.
ghost use Rattle.std.specs.Prelude.{None};

use crate::disk::{About, Access, Disk, FileKind, Opened};
use crate::known::FileNumber;
use lio_outside::Readers;
use std::fs::{FileType, Metadata, OpenFile, OpenOptions};
use std::os::fd::AsFd;
use std::os::unix::fs::{FileTypeExt, MetadataExt, OpenOptionsExt, PermissionsExt, fchown};
use std::rt::Files;
use std::{fs, io};

/// The path under which a process finds what its standard output goes to.
const STANDARD_OUTPUT: &str = "/proc/self/fd/1";

/// The permissions of a file that its owner alone may read and write.
const OWNER_ALONE: u32 = 0o600;

/// What permissions give to a file's group: reading, writing, running, and running as the group.
const GROUP_BITS: u32 = 0o2070;

/// The files of a runtime. It tells nothing of them.
#[derive(Drop)]
pub(crate) struct RealDisk<R>(pub R);

/// What a type of files is.
fn kind_of(file_type: FileType) -> FileKind {
    if file_type.is_file() {
        FileKind::Plain
    } else if file_type.is_char_device() {
        FileKind::Device
    } else {
        FileKind::Other
    }
}

impl From<Metadata> for About {
    fn from(data: Metadata) -> About {
        About {
            number: FileNumber {
                device: data.dev(),
                inode: data.ino(),
            },
            kind: kind_of(data.file_type()),
            access: Access {
                permissions: data.permissions(),
                group: data.gid(),
            },
        }
    }
}

/// A file that is open, with what it is.
fn opened<F: OpenFile + Drop>(file: F) -> io::Result<Opened<F>> {
    match file.metadata() {
        Ok(data) => Ok(Opened {
            file,
            about: About::from(data),
        }),
        Err(error) => Err(error),
    }
}

/// How a file is opened to be written; where it is made, for these readers.
fn to_write(readers: Readers) -> OpenOptions {
    let mut how = OpenOptions::new();
    how.write(true);
    if readers == Readers::Owner {
        how.mode(OWNER_ALONE);
    }
    how
}

impl<R: Files + Eprint> RealDisk<R> {
    /// The number of the plain file to which standard output goes, if it goes to one.
    pub(crate) fn standard_output(&self) -> Option<FileNumber> {
        let data = fs::metadata(&self.0, STANDARD_OUTPUT).ok()?;
        let about = About::from(data);
        if about.kind == FileKind::Plain {
            Some(about.number)
        } else {
            None
        }
    }

    /// Says that a named pipe is waited for, since opening one waits until its other end is open. A
    /// shell opens both ends of those that it hands over in `/dev`.
    fn announce(&self, path: &str, what: &str) {
        let is_pipe = fs::metadata(&self.0, path).is_ok_and(|data| data.file_type().is_fifo());
        if is_pipe && !path.starts_with("/dev/") {
            let _ = eprintln!(&self.0; "waiting until another program {what} the pipe {path:?}");
        }
    }
}

impl<R: Files + Eprint> Disk for RealDisk<R>
where
    R::File: AsFd,
{
    type File = R::File;

    ghost number_at = { λ _ _. None };

    fn about(&self, path: &str) -> io::Result<About> {
        let data = fs::metadata(&self.0, path)?;
        Ok(About::from(data))
    }

    fn is_link(&self, path: &str) -> bool {
        fs::symlink_metadata(&self.0, path).is_ok_and(|data| data.is_symlink())
    }

    fn open(&mut self, path: &str) -> io::Result<Opened<R::File>> {
        self.announce(path, "writes to");
        opened(fs::open(&self.0, path)?)
    }

    fn open_to_write(&mut self, path: &str, readers: Readers) -> io::Result<Opened<R::File>> {
        self.announce(path, "reads from");
        let mut how = to_write(readers);
        how.create(true);
        opened(how.open(&self.0, path)?)
    }

    fn create(&mut self, path: &str, readers: Readers) -> io::Result<Opened<R::File>> {
        let mut how = to_write(readers);
        how.create_new(true);
        opened(how.open(&self.0, path)?)
    }

    fn clear(&mut self, file: &mut R::File) -> io::Result<()> {
        file.set_len(0)
    }

    fn set_access(&mut self, file: &mut R::File, access: Access) -> io::Result<()> {
        let Access {
            mut permissions,
            group,
        } = access;
        if fchown(file.as_fd(), None, Some(group)).is_err() {
            let others = permissions.mode() & !GROUP_BITS;
            permissions.set_mode(others);
        }
        file.set_permissions(permissions)
    }

    fn rename(&mut self, from: &str, to: &str) -> io::Result<()> {
        fs::rename(&self.0, from, to)
    }

    fn remove(&mut self, path: &str) -> io::Result<()> {
        fs::remove_file(&self.0, path)
    }
}
