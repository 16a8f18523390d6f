//! Where the blocks of a script end.
ghost use Rattle.std.specs.Prelude.{◌≡◌, ◌∷◌, [], drop, IfOk, OnOk};
ghost use Rattle.lio_syntax.specs.Closing.{ends_before, ends_behind, first_of};

use lio_clauses::NoMemory;
use lio_syntax_lines::Line;
use std::alloc::Global;
use std::marker::Model;

/// The places at which the blocks end that are open at a place, seen as a list with the innermost
/// first.
#[derive(Drop)]
struct Ends {
    places: Vec<usize>,
}

impl Model for Ends {
    ghost use Rattle.std.specs.Prelude.{List, ℕ, reverse};

    ghost Value = { List ℕ };

    ghost view = { λ ends. reverse ends.places.items };
}

impl Ends {
    /// Nothing is open.
    fn new(alloc: Global) -> Ends
        ensures { result ≡ [] }
    {
        Ends {
            places: Vec::new(alloc),
        }
    }

    /// Where the innermost ends.
    fn first(&self) -> usize
        ensures { result ≡ first_of self.now }
    {
        match self.places.last() {
            Some(place) => *place,
            None => 0,
        }
    }

    /// Puts the end of one that is open in the innermost.
    fn push(&mut self, place: usize) -> Result<(), NoMemory>
        ensures { OnOk result (self.new ≡ place ∷ self.old) }
    {
        self.places.push(place)?;
        Ok(())
    }

    /// Takes the innermost away.
    fn pop(&mut self)
        ensures { self.new ≡ drop 1 self.old }
    {
        let _ = self.places.pop();
    }

    /// Goes from behind a line to before it.
    fn pass(&mut self, at: usize, line: &Line) -> Result<(), NoMemory>
        ensures { OnOk result (self.new ≡ ends_before at line.now self.old) }
    {
        match line {
            Line::Proc(..) | Line::If(_) | Line::While(_) | Line::Try => {
                self.pop();
                Ok(())
            }
            Line::Else | Line::Catch(..) => {
                self.pop();
                self.push(at)
            }
            Line::End => self.push(at),
            Line::Do(_) => Ok(()),
        }
    }
}

/// For each line the place at which the innermost block ends that is open behind it.
pub(crate) fn ends_of(alloc: Global, lines: &[Line]) -> Result<Vec<usize>, NoMemory>
    ensures { IfOk result (λ table. table.items ≡ ends_behind 0 lines.now) }
{
    let mut table = vec![in alloc; 0; lines.len()]?;
    let mut ends = Ends::new(alloc);
    let mut at = lines.len();
    'lines: while at > 0 {
        at -= 1;
        table[at] = ends.first();
        ends.pass(at, &lines[at])?;
    }
    Ok(table)
}
