//! The blocks that are open at a place in a script.
ghost use Rattle.std.specs.Prelude.{◌≡◌, ◌∷◌, [], ◌<◌, length, drop, MatchBool, MatchOption, OnOk};
ghost use Rattle.lio_syntax.specs.OpenBlocks.{misplaced_outside};

use lio_clauses::NoMemory;
use lio_syntax_lines::Line;
use std::alloc::Global;
use std::marker::Model;

/// A procedure or a block that is open.
#[derive(Clone, Copy)]
pub(crate) enum OpenBlock {
    /// The statements of a procedure.
    Procedure,
    /// The first block of an `if`.
    If,
    /// The block behind an `else`.
    Else,
    /// The block of a `while`.
    While,
    /// The first block of a `try`.
    Try,
    /// The block behind a `catch`.
    Catch,
}

/// What is open at a place, seen as a list with the innermost first.
#[derive(Drop)]
pub(crate) struct OpenBlocks {
    blocks: Vec<OpenBlock>,
}

impl Model for OpenBlocks {
    ghost use Rattle.std.specs.Prelude.{List, reverse};
    ghost use Rattle.lio_syntax.specs.declared.open_block.OpenBlock.{OpenBlock};

    ghost Value = { List OpenBlock };

    ghost view = { λ stack. reverse stack.blocks.items };
}

impl OpenBlock {
    ghost use Rattle.lio_syntax.specs.OpenBlocks as spec;

    /// Whether it is an `if` that has no `else` yet.
    fn is_if(self) -> bool
        ensures { result ≡ spec.is_if self }
    {
        matches!(self, OpenBlock::If)
    }

    /// Whether it is a `try` that has no `catch` yet.
    fn is_try(self) -> bool
        ensures { result ≡ spec.is_try self }
    {
        matches!(self, OpenBlock::Try)
    }

    /// Whether the line can't stand where this is the innermost that is open.
    fn is_misplaced(self, line: &Line) -> bool
        ensures { result ≡ spec.misplaced_in self line.now }
    {
        match line {
            Line::Proc(..) => true,
            Line::Else => !self.is_if(),
            Line::Catch(..) => !self.is_try(),
            Line::End => self.is_try(),
            _ => false,
        }
    }
}

/// Whether the line can't stand outside of a procedure.
fn is_misplaced_outside(line: &Line) -> bool
    ensures { result ≡ misplaced_outside line.now }
{
    !matches!(line, Line::Proc(..))
}

impl OpenBlocks {
    ghost use Rattle.lio_syntax.specs.OpenBlocks as spec;

    /// Nothing is open.
    pub(crate) fn new(alloc: Global) -> OpenBlocks
        ensures { result ≡ [] }
    {
        OpenBlocks {
            blocks: Vec::new(alloc),
        }
    }

    /// Whether nothing is open.
    pub(crate) fn is_empty(&self) -> bool
        ensures { MatchBool result (self.now ≡ []) (0 < length self.now) }
    {
        self.blocks.is_empty()
    }

    /// How many are open.
    pub(crate) fn len(&self) -> usize
        ensures { result ≡ length self.now }
    {
        self.blocks.len()
    }

    /// The innermost.
    fn innermost(&self) -> Option<OpenBlock>
        ensures { MatchOption result (self.now ≡ []) (λ block. self.now ≡ block ∷ drop 1 self.now) }
    {
        self.blocks.last().copied()
    }

    /// Opens one in the innermost.
    fn push(&mut self, block: OpenBlock) -> Result<(), NoMemory>
        ensures { OnOk result (self.new ≡ block ∷ self.old) }
    {
        self.blocks.push(block)?;
        Ok(())
    }

    /// Closes the innermost.
    fn pop(&mut self)
        ensures { self.new ≡ drop 1 self.old }
    {
        let _ = self.blocks.pop();
    }

    /// Whether the line can't stand where these are open.
    pub(crate) fn is_misplaced(&self, line: &Line) -> bool
        ensures { result ≡ spec.is_misplaced self.now line.now }
    {
        match self.innermost() {
            Some(innermost) => innermost.is_misplaced(line),
            None => is_misplaced_outside(line),
        }
    }

    /// Opens and closes what the line does.
    pub(crate) fn open_by(&mut self, line: &Line) -> Result<(), NoMemory>
        ensures { OnOk result (self.new ≡ spec.opened_by self.old line.now) }
    {
        match line {
            Line::Proc(..) => self.push(OpenBlock::Procedure),
            Line::If(_) => self.push(OpenBlock::If),
            Line::Else => {
                self.pop();
                self.push(OpenBlock::Else)
            }
            Line::While(_) => self.push(OpenBlock::While),
            Line::Try => self.push(OpenBlock::Try),
            Line::Catch(..) => {
                self.pop();
                self.push(OpenBlock::Catch)
            }
            Line::End => {
                self.pop();
                Ok(())
            }
            Line::Do(_) => Ok(()),
        }
    }
}
