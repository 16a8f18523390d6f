//! What a channel has received, in the pieces in which it came.
ghost use Rattle.std.specs.Prelude.{◌≡◌, ◌++◌, [], IfOk};

use lio_clauses::NoMemory;
use lio_values::Text;
use std::alloc::Global;
use std::marker::Model;
use std::sync::Arc;

/// Pieces of bytes, the last one first. Copies share them.
#[cycle(pieces)]
enum Pieces {
    /// No piece.
    Nothing,
    /// A last piece, and those before it.
    Last(Arc<Piece>),
}

/// A piece of bytes, and those before it.
#[cycle(pieces)]
#[derive(Drop)]
struct Piece {
    text: Text,
    before: Pieces,
}

// Pieces that nothing else shares are let go one after another, so that many of them need no more
// of the stack than one.
impl Drop for Pieces {
    fn drop(mut self) {
        loop {
            match self {
                Pieces::Nothing => return,
                Pieces::Last(shared) => match Arc::into_inner(shared) {
                    Some(Piece { text, before }) => self = before,
                    None => return,
                },
            }
        }
    }
}

/// Bytes that a channel has received. Where more come, those before them are shared and not copied.
#[derive(Drop)]
pub struct Bytes {
    pieces: Pieces,
}

impl Model for Bytes {
    ghost use Rattle.std.specs.Prelude.{List, ℕ};
    ghost use Rattle.lio_cells.specs.Pieces.{bytes_of};

    ghost Value = { List ℕ };

    ghost view = { λ b. bytes_of b.pieces };
}

impl Bytes {
    /// No bytes.
    pub fn new() -> Bytes
        ensures { result ≡ [] }
    {
        Bytes {
            pieces: Pieces::Nothing,
        }
    }

    /// Equal bytes.
    pub fn copy(&self) -> Result<Bytes, NoMemory>
        ensures { IfOk result (λ bytes. bytes ≡ self.now) }
    {
        let pieces = match &self.pieces {
            Pieces::Nothing => Pieces::Nothing,
            Pieces::Last(shared) => Pieces::Last(Arc::try_clone(shared)?),
        };
        Ok(Bytes { pieces })
    }

    /// These bytes, and then the text.
    pub fn with(&self, alloc: Global, text: &Text) -> Result<Bytes, NoMemory>
        ensures { IfOk result (λ bytes. bytes ≡ self.now ++ text.now) }
    {
        let text = text.copy(alloc)?;
        let before = self.copy()?.pieces;
        let piece = Arc::new(alloc, Piece { text, before })?;
        Ok(Bytes {
            pieces: Pieces::Last(piece),
        })
    }
}
