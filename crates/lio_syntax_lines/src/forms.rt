//! What stands behind the first word of a line.
#![tactic(auto, unfolding(crate::specs::Operands::operand_of))]

ghost use Rattle.std.specs.Prelude.{◌≡◌, ◌≤◌, ◌∷◌, [], ◌++◌, length, Some, None, IfOk, IfErr, OnOk};
ghost use Rattle.std.specs.Prelude.{OnErr, MatchOption, All, Ok, Err};
ghost use Rattle.lio_syntax_lines.specs.Forms as spec;
ghost use Rattle.lio_syntax_lines.specs.Forms.{name_at, operand_at, IsCons};
ghost use Rattle.lio_syntax_lines.specs.Operands.{operand_of, IsOperand};
ghost use Rattle.lio_syntax_lines.specs.Literals.{IsName};
ghost use Rattle.lio_syntax_lines.specs.Simple.{IsSimple};

use crate::fault::LineFault;
use crate::line::Operand;
use crate::{is_name, read_literal, split_word};
use lio_clauses::Names;
use lio_values::Name;
use std::alloc::Global;
use std::marker::Model;

/// The words of a line that are left, seen as their list.
#[derive(Drop)]
pub(crate) struct Words<'a> {
    line: &'a [u8],
}

impl<'a> Model for Words<'a> {
    ghost use Rattle.std.specs.Prelude.{List, ℕ};
    ghost use Rattle.lio_syntax_lines.specs.Words.{words};

    ghost Value = { List (List ℕ) };

    ghost view = { λ w. words w.line.now };
}

/// The operand that a word is.
pub(crate) fn read_operand(alloc: Global, names: &Names, word: &[u8]) -> Result<Operand, LineFault>
    ensures ok { IfOk result (λ operand. operand_of names.now word.now ≡ Some operand) }
    ensures sound { IfOk result (IsOperand names.now) }
    ensures invalid { IfErr result
        (λ fault. fault ≡ LineFault.Invalid → operand_of names.now word.now ≡ None) }
{
    if is_name(word) {
        return Ok(Operand::Name(Name::of(alloc, word)?));
    }
    match read_literal(alloc, names, word)? {
        Some(plain) => Ok(Operand::Literal(plain)),
        None => Err(LineFault::Invalid),
    }
}

impl<'a> Words<'a> {
    ghost use Rattle.lio_syntax_lines.specs.Words.{words};

    /// The words of a line.
    pub(crate) fn of(line: &'a [u8]) -> Words<'a>
        ensures { result ≡ words line.now }
    {
        Words { line }
    }

    /// Takes the first word.
    pub(crate) fn next(&mut self) -> Option<&'a [u8]>
        ensures { MatchOption result (self.old ≡ []) (λ word. self.old ≡ word.now ∷ self.new) }
    {
        let (word, behind) = split_word(self.line)?;
        self.line = behind;
        Some(word)
    }

    /// Takes a name.
    pub(crate) fn name(&mut self, alloc: Global) -> Result<Name, LineFault>
        ensures ok { IfOk result
            (λ name. name_at self.old ≡ Some (record { value = name; rest = self.new })) }
        ensures sound { IfOk result IsName }
        ensures invalid { IfErr result
            (λ fault. fault ≡ LineFault.Invalid → name_at self.old ≡ None) }
    {
        match self.next() {
            Some(word) if is_name(word) => Ok(Name::of(alloc, word)?),
            _ => Err(LineFault::Invalid),
        }
    }

    /// Takes an operand.
    pub(crate) fn operand(&mut self, alloc: Global, names: &Names) -> Result<Operand, LineFault>
        ensures ok { IfOk result (λ operand. operand_at names.now self.old
            ≡ Some (record { value = operand; rest = self.new })) }
        ensures sound { IfOk result (IsOperand names.now) }
        ensures invalid { IfErr result
            (λ fault. fault ≡ LineFault.Invalid → operand_at names.now self.old ≡ None) }
    {
        match self.next() {
            Some(word) => read_operand(alloc, names, word),
            None => Err(LineFault::Invalid),
        }
    }

    /// Tests that no word is left.
    pub(crate) fn end(&mut self) -> Result<(), LineFault>
        ensures ok { OnOk result (self.old ≡ []) }
        ensures invalid { IfErr result (λ fault. (fault ≡ LineFault.Invalid) × IsCons self.old) }
    {
        match self.next() {
            Some(_) => Err(LineFault::Invalid),
            None => Ok(()),
        }
    }
}
