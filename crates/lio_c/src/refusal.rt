//! Why no call is made by bytes.

use lio_clauses::NoMemory;

/// Why no call is made by the bytes of words and of files.
#[derive(Debug, PartialEq, Drop)]
pub enum Refusal {
    /// The words are netstrings up to the byte at this place alone.
    WordsBroken(usize),
    /// The word with this number, from 0, isn't UTF-8.
    WordNotText(usize),
    /// The files are netstrings up to the byte at this place alone.
    FilesBroken(usize),
    /// The last netstring of the files, with this number, from 0, is a name without bytes.
    FileAlone(usize),
    /// The netstring of the files with this number, from 0, is a name that stands before it too.
    FileTwice(usize),
    /// No memory was left.
    NoMemory,
}

impl From<NoMemory> for Refusal {
    ghost use Rattle.std.specs.Prelude.{◌≡◌};
    ghost use Rattle.lio_c.specs.declared.refusal.Refusal.TheVariants.{NoMemory as without_memory};

    ghost from_gives = { λ _ refusal. refusal ≡ without_memory };

    fn from(_cause: NoMemory) -> Refusal {
        Refusal::NoMemory
    }
}
