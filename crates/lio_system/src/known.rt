//! The files that a store has fetched or kept.
ghost use Rattle.std.specs.Prelude.{◌≡◌, ◌<◌, IfOk, IfSome, IsNone, length, vec_capacity, vec_len};
ghost use Rattle.std.specs.Prelude.{◌↔◌, ◌++◌, ◌∷◌, [], true, false};
ghost use Rattle.lio_system.specs.KnownFiles.{is_file, is_known, is_known_elsewhere, is_other};
ghost use Rattle.lio_system.specs.KnownFiles.{is_output};
ghost use Rattle.lio_system.specs.KnownFiles.{without, IsAdded};

use std::alloc::{AllocError, Global};

/// What tells a file of a system from every other one, whatever its names.
#[derive(Clone, Copy, Debug, PartialEq, Eq)]
pub struct FileNumber {
    pub device: u64,
    pub inode: u64,
}

/// A file that was fetched or kept, and under which name.
#[derive(Debug, Drop)]
pub(crate) struct KnownFile {
    name: Vec<u8>,
    number: FileNumber,
}

impl KnownFile {
    /// Whether it is the file with a number, under a name.
    fn is(&self, number: FileNumber, name: &[u8]) -> bool
        ensures { result ≡ is_file number name.now self.now }
    {
        self.number == number && self.name.as_slice() == name
    }

    /// Whether it is the file with a number, under another name.
    fn is_other(&self, number: FileNumber, name: &[u8]) -> bool
        ensures { result ≡ is_other number name.now self.now }
    {
        self.number == number && self.name.as_slice() != name
    }
}

/// The files that a store has fetched or kept, in order, and the file to which standard output
/// goes, if it goes to one.
#[derive(Debug, Drop)]
pub(crate) struct KnownFiles {
    files: Vec<KnownFile>,
    output: Option<FileNumber>,
}

impl KnownFiles {
    /// None so far.
    pub(crate) fn new(alloc: Global, output: Option<FileNumber>) -> Self
        ensures { result.files.items ≡ [] }
    {
        KnownFiles {
            files: Vec::new(alloc),
            output,
        }
    }

    /// Whether standard output goes to the file with a number.
    pub(crate) fn is_output(&self, number: FileNumber) -> bool
        ensures { result ≡ is_output self.now.output number }
    {
        match self.output {
            Some(output) => output == number,
            None => false,
        }
    }

    /// Which of them is the file with a number, under another name than this one.
    pub(crate) fn other(&self, number: FileNumber, name: &[u8]) -> Option<usize>
        ensures known { IsNone result
            ↔ (is_known_elsewhere self.now.files.items number name.now ≡ false) }
    {
        for (place, file) in self.files.iter().enumerate() {
            if file.is_other(number, name) {
                return Some(place);
            }
        }
        None
    }

    /// Whether the file with a number is known under a name.
    pub(crate) fn has(&self, number: FileNumber, name: &[u8]) -> bool
        ensures { result ≡ is_known self.now.files.items number name.now }
    {
        self.files.iter().any(|file| file.is(number, name))
    }

    /// The name of one of them.
    pub(crate) fn name(&self, place: usize) -> Option<&[u8]> {
        let file = self.files.get(place)?;
        Some(file.name.as_slice())
    }

    /// A copy of the name of a file, and room for that file.
    pub(crate) fn make_room(&mut self, alloc: Global, name: &[u8]) -> Result<Vec<u8>, AllocError>
        ensures same { self.new.files.items ≡ self.old.files.items }
        ensures name { IfOk result (λ v. v.items ≡ name.now) }
        ensures room { IfOk result (λ _. vec_len self.new.files < vec_capacity self.new.files) }
    {
        self.files.reserve(1)?;
        Vec::from_slice(alloc, name)
    }

    /// Adds a file, for which there is room.
    pub(crate) fn add(&mut self, name: Vec<u8>, number: FileNumber)
        requires { vec_len self.old.files < vec_capacity self.old.files }
        ensures { IsAdded self.old.files.items self.new.files.items name.items number }
    {
        self.files.push_reserved(KnownFile { name, number });
    }

    /// Adds a file that was new, for which there is room. No other file has its number any more.
    pub(crate) fn add_new(&mut self, name: Vec<u8>, number: FileNumber)
        requires { vec_len self.old.files < vec_capacity self.old.files }
        ensures { IsAdded (without number self.old.files.items) self.new.files.items name.items
            number }
    {
        self.files.retain(|file| file.number != number);
        self.add(name, number);
    }
}
