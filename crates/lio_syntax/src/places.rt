//! Where a task goes on in a script.
#![tactic(auto, unfolding(crate::specs::Places::else_at, crate::specs::Places::settled))]

ghost use Rattle.std.specs.Prelude.{◌≡◌, ◌∷◌, ◌+◌, ◌<◌, [], drop, length, IfOk, IfSome, OnOk};
ghost use Rattle.lio_syntax.specs.Closing.{end_of, ends_behind};
ghost use Rattle.lio_syntax.specs.Places as spec;
ghost use Rattle.lio_syntax.specs.Places.{behind_else, blocks_by, first_place, place_by, place_in};
ghost use Rattle.lio_syntax.specs.Places.{else_at, next_by, places_to};

use lio_clauses::NoMemory;
use lio_syntax_lines::Line;
use std::alloc::Global;
use std::marker::Model;

/// Where a task goes on behind what stands at a place, and where a fault in it is caught. A place
/// is the number of a line, from 0.
#[derive(Clone, Copy)]
pub struct Place {
    /// Where it goes on behind the statement: at the next one, at the loop whose block is done, at
    /// the `catch` behind a block whose faults are caught, or at the end of the procedure.
    pub behind: usize,
    /// The `catch` that catches a fault here; where there is none, a line that is no `catch`.
    pub handler: usize,
}

/// The blocks that are open at a place, seen as a list with the innermost first.
#[derive(Drop)]
struct Blocks {
    places: Vec<Place>,
}

impl Model for Blocks {
    ghost use Rattle.std.specs.Prelude.{List, reverse};
    ghost use Rattle.lio_syntax.specs.declared.places.Place.{Place};

    ghost Value = { List Place };

    ghost view = { λ blocks. reverse blocks.places.items };
}

/// The place at which the innermost block ends that is open behind the line at a place.
fn block_end(lines: &[Line], ends: &[usize], at: usize) -> usize
    requires table { ends.now ≡ ends_behind 0 lines.now }
    requires within { at < length lines.now }
    ensures end { result ≡ end_of lines.now (at + 1) }
    ensures within { result < length lines.now }
{
    ends[at]
}

/// The place of the `else` of the `if` at a place, if it has one.
fn else_of(lines: &[Line], ends: &[usize], at: usize) -> Option<usize>
    requires table { ends.now ≡ ends_behind 0 lines.now }
    requires within { at < length lines.now }
    ensures place { result ≡ else_at lines.now at }
    ensures within { IfSome result (λ place. place < length lines.now) }
{
    let end = block_end(lines, ends, at);
    match &lines[end] {
        Line::Else => Some(end),
        _ => None,
    }
}

/// The place behind the `if` at a place.
fn behind_if(lines: &[Line], ends: &[usize], at: usize) -> usize
    requires table { ends.now ≡ ends_behind 0 lines.now }
    requires within { at < length lines.now }
    ensures { result ≡ behind_else lines.now at (else_at lines.now at) }
{
    match else_of(lines, ends, at) {
        Some(place) => block_end(lines, ends, place) + 1,
        None => block_end(lines, ends, at) + 1,
    }
}

/// The place behind the statement that the line at a place begins, or behind the handler of a
/// `catch`.
fn next_of(lines: &[Line], ends: &[usize], at: usize, line: &Line) -> usize
    requires table { ends.now ≡ ends_behind 0 lines.now }
    requires within { at < length lines.now }
    ensures { result ≡ next_by line.now lines.now at }
{
    match line {
        Line::Do(_) => at + 1,
        Line::If(_) => behind_if(lines, ends, at),
        Line::While(_) | Line::Catch(..) => block_end(lines, ends, at) + 1,
        Line::Try => block_end(lines, ends, block_end(lines, ends, at)) + 1,
        Line::Proc(..) | Line::Else | Line::End => at,
    }
}

/// The place, or the one behind the block that ends there.
fn settled(lines: &[Line], at: usize, exit: usize) -> usize
    ensures { result ≡ spec.settled lines.now at exit }
{
    match lines.get(at) {
        Some(Line::Else) | Some(Line::End) => exit,
        _ => at,
    }
}

impl Blocks {
    /// Nothing is open.
    fn new(alloc: Global) -> Blocks
        ensures { result ≡ [] }
    {
        Blocks {
            places: Vec::new(alloc),
        }
    }

    /// The innermost.
    fn first(&self) -> Place
        ensures { result ≡ first_place self.now }
    {
        match self.places.last() {
            Some(place) => *place,
            None => Place {
                behind: 0,
                handler: 0,
            },
        }
    }

    /// Opens one in the innermost.
    fn push(&mut self, place: Place) -> Result<(), NoMemory>
        ensures { OnOk result (self.new ≡ place ∷ self.old) }
    {
        self.places.push(place)?;
        Ok(())
    }

    /// Closes the innermost.
    fn pop(&mut self)
        ensures { self.new ≡ drop 1 self.old }
    {
        let _ = self.places.pop();
    }

    /// Where one goes on behind what a line begins.
    fn place(&self, lines: &[Line], ends: &[usize], at: usize, line: &Line) -> Place
        requires table { ends.now ≡ ends_behind 0 lines.now }
        requires within { at < length lines.now }
        ensures { result ≡ place_in line.now lines.now at (first_place self.now) }
    {
        let block = self.first();
        let next = next_of(lines, ends, at, line);
        Place {
            behind: settled(lines, next, block.behind),
            handler: block.handler,
        }
    }

    /// Goes from before a `catch` to behind it, and answers where one goes on behind its handler.
    fn pass_catch(&mut self, lines: &[Line], ends: &[usize], at: usize) -> Result<Place, NoMemory>
        requires table { ends.now ≡ ends_behind 0 lines.now }
        requires within { at < length lines.now }
        ensures place { IfOk result (λ place. place ≡ record {
          behind = spec.settled lines.now (end_of lines.now (at + 1) + 1)
              (first_place (drop 1 self.old)).behind;
          handler = at;
        }) }
        ensures blocks { OnOk result (self.new ≡ record {
          behind = spec.settled lines.now (end_of lines.now (at + 1) + 1)
              (first_place (drop 1 self.old)).behind;
          handler = (first_place (drop 1 self.old)).handler;
        } ∷ drop 1 self.old) }
    {
        self.pop();
        let outer = self.first();
        let behind = settled(lines, block_end(lines, ends, at) + 1, outer.behind);
        self.push(Place {
            behind,
            handler: outer.handler,
        })?;
        Ok(Place {
            behind,
            handler: at,
        })
    }

    /// Goes from before a line to behind it, and answers where one goes on behind what it begins.
    fn pass(
        &mut self,
        lines: &[Line],
        ends: &[usize],
        at: usize,
        line: &Line,
    ) -> Result<Place, NoMemory>
        requires table { ends.now ≡ ends_behind 0 lines.now }
        requires within { at < length lines.now }
        ensures place { IfOk result (λ place. place ≡ place_by line.now lines.now at self.old) }
        ensures blocks { OnOk result (self.new ≡ blocks_by line.now lines.now at self.old) }
    {
        match line {
            Line::Proc(..) => {
                let end = block_end(lines, ends, at);
                self.push(Place {
                    behind: end,
                    handler: end,
                })?;
                Ok(Place {
                    behind: at,
                    handler: at,
                })
            }
            Line::Catch(..) => self.pass_catch(lines, ends, at),
            Line::If(_) => {
                let place = self.place(lines, ends, at, line);
                self.push(place)?;
                Ok(place)
            }
            Line::While(_) => {
                let place = self.place(lines, ends, at, line);
                self.push(Place {
                    behind: at,
                    handler: place.handler,
                })?;
                Ok(place)
            }
            Line::Try => {
                let place = self.place(lines, ends, at, line);
                let catch = block_end(lines, ends, at);
                self.push(Place {
                    behind: catch,
                    handler: catch,
                })?;
                Ok(place)
            }
            Line::End => {
                let place = self.place(lines, ends, at, line);
                self.pop();
                Ok(place)
            }
            Line::Else | Line::Do(_) => Ok(self.place(lines, ends, at, line)),
        }
    }
}

/// For each line where one goes on behind what stands there.
pub(crate) fn places_of(
    alloc: Global,
    lines: &[Line],
    ends: &[usize],
) -> Result<Vec<Place>, NoMemory>
    requires { ends.now ≡ ends_behind 0 lines.now }
    ensures { IfOk result (λ table. table.items ≡ places_to lines.now (length lines.now)) }
{
    let mut table = Vec::new(alloc);
    let mut blocks = Blocks::new(alloc);
    for (at, line) in lines.iter().enumerate() {
        table.push(blocks.pass(lines, ends, at, line)?)?;
    }
    Ok(table)
}
