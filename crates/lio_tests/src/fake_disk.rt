//! Files that aren't there, with names, links and hard links.
ghost use Rattle.std.specs.Prelude.{◌≤◌, None, IfOk};

use lio_outside::Readers;
use lio_system::{About, Access, Disk, FileKind, FileNumber, Opened};
use std::alloc::{AllocError, Global};
use std::cell::Cell;
use std::fs::Permissions;
use std::io;
use std::io::{ErrorKind, Read, Write};
use std::os::unix::fs::PermissionsExt;

/// What an open file answers once it has moved all its bytes.
#[derive(Clone, Copy)]
enum End {
    Nothing,
    Failure,
    Interruption,
}

/// An open file that moves `left` bytes, at most `piece` in a call, each an `x` where it is read.
#[derive(Drop)]
pub(crate) struct FakeFile {
    left: usize,
    piece: usize,
    end: End,
}

impl FakeFile {
    /// The file that is opened under a path.
    fn of(path: &str) -> FakeFile {
        let (left, piece, end) = match path {
            "slow" | "slow.part0" | "held.part3" => (5, 1, End::Nothing),
            "broken" | "broken.part0" => (3, 2, End::Failure),
            "busy" | "busy.part0" => (3, 2, End::Interruption),
            _ => (9, 9, End::Nothing),
        };
        FakeFile { left, piece, end }
    }

    /// How many bytes a call moves that asks for `asked`.
    fn moved(&mut self, asked: usize) -> io::Result<usize>
        ensures { IfOk result (λ n. n ≤ asked) }
    {
        if self.left == 0 {
            return match self.end {
                End::Nothing => Ok(0),
                End::Failure => Err(io::Error::from(ErrorKind::Other)),
                End::Interruption => Err(io::Error::from(ErrorKind::Interrupted)),
            };
        }
        let count = asked.min(self.piece).min(self.left);
        self.left -= count;
        Ok(count)
    }
}

impl Read for FakeFile {
    fn read(&mut self, buf: &mut [u8]) -> io::Result<usize> {
        buf.fill(b'x');
        self.moved(buf.len())
    }
}

impl Write for FakeFile {
    fn write(&mut self, buf: &[u8]) -> io::Result<usize> {
        self.moved(buf.len())
    }

    fn flush(&mut self) -> io::Result<()> {
        Ok(())
    }
}

/// A path of a file.
#[derive(Drop)]
struct Name {
    path: String,
    number: u64,
}

/// A path that leads to another one.
#[derive(Clone, Copy)]
struct Link {
    path: &'static str,
    target: &'static str,
}

/// What was done to a file that is new.
#[derive(Clone, Copy, Debug, PartialEq, Eq)]
pub(crate) enum Step {
    Made(Readers),
    Opened,
    Renamed,
}

/// Files with their names and links, and a count of the calls that touch one. A name with `./` in
/// front is the one without. There is no folder `gone`.
#[derive(Drop)]
pub(crate) struct FakeDisk {
    names: Vec<Name>,
    links: Vec<Link>,
    steps: Vec<Step>,
    next: Cell<u64>,
    touches: u32,
    renamed: u32,
    removed: u32,
    alloc: Global,
}

/// An error of a kind.
fn refused<T>(kind: ErrorKind) -> io::Result<T> {
    Err(io::Error::from(kind))
}

/// A path without `./` in front.
fn plain(path: &str) -> &str {
    path.strip_prefix("./").unwrap_or(path)
}

impl FakeDisk {
    /// No files.
    pub(crate) fn new(alloc: Global) -> FakeDisk {
        FakeDisk {
            names: Vec::new(alloc),
            links: Vec::new(alloc),
            steps: Vec::new(alloc),
            next: Cell::new(100),
            touches: 0,
            renamed: 0,
            removed: 0,
            alloc,
        }
    }

    /// Gives a file another name.
    pub(crate) fn name(&mut self, path: &str, number: u64) -> Result<(), AllocError> {
        let path = String::from_str(self.alloc, path)?;
        self.names.push(Name { path, number })?;
        Ok(())
    }

    /// Makes a link.
    pub(crate) fn link(
        &mut self,
        path: &'static str,
        target: &'static str,
    ) -> Result<(), AllocError> {
        self.links.push(Link { path, target })?;
        Ok(())
    }

    /// How many calls touched a file.
    pub(crate) fn touches(&self) -> u32 {
        self.touches
    }

    /// How many files were renamed, and how many removed.
    pub(crate) fn counts(&self) -> (u32, u32) {
        (self.renamed, self.removed)
    }

    /// What was done to new files, one step after another.
    pub(crate) fn steps(&self) -> &[Step] {
        self.steps.as_slice()
    }

    /// Keeps in mind what was done to a new file.
    fn step(&mut self, step: Step) -> io::Result<()> {
        self.touch();
        self.steps.push(step)?;
        Ok(())
    }

    /// Lets the next new file have a number.
    pub(crate) fn make_next(&self, number: u64) {
        self.next.set(number);
    }

    /// Counts a call that touches a file.
    fn touch(&mut self) {
        self.touches = self.touches.saturating_add(1);
    }

    /// The path to which a path leads.
    fn target<'a>(&self, path: &'a str) -> &'a str {
        let path = plain(path);
        for link in &self.links {
            if link.path == path {
                return link.target;
            }
        }
        path
    }

    /// The number of the file under a path.
    fn number(&self, path: &str) -> io::Result<u64> {
        let path = self.target(path);
        for name in &self.names {
            if name.path.as_str() == path {
                return Ok(name.number);
            }
        }
        refused(ErrorKind::NotFound)
    }

    /// Makes a file under a path.
    fn made(&mut self, path: &str) -> io::Result<Opened<FakeFile>> {
        if path.starts_with("gone") {
            return refused(ErrorKind::NotFound);
        }
        let number = self.next.get();
        self.next.set(number.saturating_add(1));
        self.name(plain(path), number)?;
        Ok(opened(plain(path), number))
    }
}

/// The file that is opened under a path.
fn opened(path: &str, number: u64) -> Opened<FakeFile> {
    Opened {
        file: FakeFile::of(path),
        about: about(number),
    }
}

/// What a file with a number is. One is a terminal.
fn about(number: u64) -> About {
    About {
        number: FileNumber {
            device: 7,
            inode: number,
        },
        kind: if number == 50 {
            FileKind::Device
        } else {
            FileKind::Plain
        },
        access: Access {
            permissions: Permissions::from_mode(0o644),
            group: 0,
        },
    }
}

impl Disk for FakeDisk {
    type File = FakeFile;

    ghost number_at = { λ _ _. None };

    fn about(&self, path: &str) -> io::Result<About> {
        let number = self.number(path)?;
        Ok(about(number))
    }

    fn is_link(&self, path: &str) -> bool {
        self.target(path) != plain(path)
    }

    fn open(&mut self, path: &str) -> io::Result<Opened<FakeFile>> {
        let number = self.number(path)?;
        Ok(opened(self.target(path), number))
    }

    fn open_to_write(&mut self, path: &str, _readers: Readers) -> io::Result<Opened<FakeFile>> {
        self.touch();
        match self.number(path) {
            Ok(number) => Ok(opened(self.target(path), number)),
            Err(_) => self.made(path),
        }
    }

    fn create(&mut self, path: &str, readers: Readers) -> io::Result<Opened<FakeFile>> {
        match self.number(path) {
            Ok(_) => refused(ErrorKind::AlreadyExists),
            Err(_) => {
                self.step(Step::Made(readers))?;
                self.made(path)
            }
        }
    }

    fn clear(&mut self, _file: &mut FakeFile) -> io::Result<()> {
        self.touch();
        Ok(())
    }

    fn set_access(&mut self, _file: &mut FakeFile, _access: Access) -> io::Result<()> {
        self.step(Step::Opened)
    }

    fn rename(&mut self, from: &str, to: &str) -> io::Result<()> {
        self.step(Step::Renamed)?;
        self.renamed = self.renamed.saturating_add(1);
        let number = self.number(from)?;
        self.names.retain(|name| name.path.as_str() != plain(from));
        self.names.retain(|name| name.path.as_str() != plain(to));
        self.name(plain(to), number)?;
        Ok(())
    }

    fn remove(&mut self, path: &str) -> io::Result<()> {
        self.touch();
        self.removed = self.removed.saturating_add(1);
        self.names.retain(|name| name.path.as_str() != plain(path));
        Ok(())
    }
}
