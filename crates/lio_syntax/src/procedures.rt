//! The procedures of a script, by name and by number.
ghost use Rattle.std.specs.Prelude.{◌≡◌, ◌<◌, ◌++◌, ◌∷◌, [], List, ℕ, IfOk, OnOk, length};
ghost use Rattle.std.specs.Prelude.{slice_get, slice_index};
ghost use Rattle.lio_syntax_lines.specs.Header.{header_of};
ghost use Rattle.lio_syntax.specs.Beginnings.{Beginning, begun_by};

use crate::headers::Headers;
use lio_clauses::NoMemory;
use lio_syntax_lines::Line;
use std::alloc::Global;

/// The procedures of a script in order: the number of each by its name, and the places of the lines
/// that begin them.
#[derive(Drop)]
pub(crate) struct Procedures {
    numbers: Headers,
    places: Vec<usize>,
}

impl Procedures {
    ghost use Rattle.lio_syntax.specs.Headers.{count_in};
    ghost use Rattle.lio_syntax.specs.Procedures.{Holds, Lists};

    /// None.
    fn new(alloc: Global) -> Procedures
        ensures { Holds result [] }
    {
        Procedures {
            numbers: Headers::new(alloc),
            places: Vec::new(alloc),
        }
    }

    /// The procedures that lines begin.
    pub(crate) fn of(alloc: Global, lines: &[Line]) -> Result<Procedures, NoMemory>
        ensures { IfOk result (λ table. Lists table lines.now) }
    {
        let mut procedures = Procedures::new(alloc);
        for (at, line) in lines.iter().enumerate() {
            procedures.pass(alloc, at, line)?;
        }
        Ok(procedures)
    }

    /// Adds the procedure that the line at a place begins, if it begins one.
    fn pass(&mut self, alloc: Global, at: usize, line: &Line) -> Result<(), NoMemory>
        ensures { OnOk result ((begun : List Beginning)
            → Holds self.old begun → Holds self.new (begun ++ begun_by at (header_of line.now))) }
    {
        match line {
            Line::Proc(name, _) => self.add(alloc, name.bytes(), at),
            Line::If(_)
            | Line::Else
            | Line::While(_)
            | Line::Try
            | Line::Catch(..)
            | Line::End
            | Line::Do(_) => Ok(()),
        }
    }

    /// Adds a procedure that begins at a line behind the others. More than 2^32 don't fit.
    fn add(&mut self, alloc: Global, name: &[u8], at: usize) -> Result<(), NoMemory>
        ensures { OnOk result ((begun : List Beginning) → Holds self.old begun
            → Holds self.new (begun ++ record { name = name.now; at = at } ∷ [])) }
    {
        let number = self.places.len();
        if number >= u32::MAX as usize {
            return Err(NoMemory);
        }
        self.numbers.add(alloc, name, number)?;
        self.places.push(at)?;
        Ok(())
    }

    /// The number of the first procedure with this name.
    pub(crate) fn number(&self, name: &[u8]) -> Option<usize>
        ensures { result ≡ count_in self.now.numbers name.now }
    {
        self.numbers.find(name)
    }

    /// The place of the line that begins the procedure with this number.
    pub(crate) fn line(&self, number: usize) -> usize
        requires { number < length self.now.places.items }
        ensures { result ≡ slice_index self.now.places.items number }
    {
        self.places[number]
    }

    /// The place of the line that begins the procedure with this number, if there is one.
    pub(crate) fn find_line(&self, number: usize) -> Option<usize>
        ensures { result ≡ slice_get self.now.places.items number }
    {
        self.places.get(number).copied()
    }
}
