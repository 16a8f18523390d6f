//! Scripts.
ghost use Rattle.std.specs.Prelude.{◌≡◌, ◌<◌, ◌≤◌, ◌+◌, ◌^◌, length, IfOk, IfSome, IsTrue};
ghost use Rattle.std.specs.Prelude.{MatchOption};
ghost use Rattle.std.specs.Prelude.{Some};

use crate::ends::ends_of;
use crate::places::{Place, places_of};
use crate::procedures::Procedures;
use crate::ranks::{rank_names, rank_procedures};
use lio_clauses::NoMemory;
use lio_syntax_lines::Line;
use lio_values::Name;
use std::alloc::Global;
use std::marker::Model;
use std::sync::Arc;

/// What a script keeps. It doesn't change once the script is read, so the script's copies share it.
#[derive(Drop)]
struct Kept {
    lines: Vec<Line>,
    /// For each line the place at which the innermost block ends that is open behind it.
    ends: Vec<usize>,
    procedures: Procedures,
    /// For each line where one goes on behind what stands there.
    places: Vec<Place>,
}

/// A script, seen as the list of its procedures. It keeps its lines, without those that say
/// nothing, and they break no rule.
#[derive(Drop)]
pub struct Script {
    kept: Arc<Kept>,
}

impl Model for Script {
    ghost use Rattle.std.specs.Prelude.{List};
    ghost use Rattle.lio_syntax.specs.Statements.{Procedure};
    ghost use Rattle.lio_syntax.specs.Behind.{script_of_lines};
    ghost use Rattle.lio_syntax.specs.ScriptCode.{script_code};
    ghost use Rattle.lio_syntax.specs.Closing.{ends_behind};
    ghost use Rattle.lio_syntax.specs.Kept.{KeepsRules, SaysLiterals};
    ghost use Rattle.lio_syntax.specs.Procedures.{Lists};
    ghost use Rattle.lio_syntax.specs.Places.{places_to};
    ghost use Rattle.std.specs.Prelude.{◌≡◌, length};

    ghost Value = { List Procedure };

    ghost coded = { script_code };

    ghost view = { λ script. script_of_lines script.kept.value.lines.items };

    ghost invariant = { λ script. KeepsRules script.kept.value.lines.items
        × (script.kept.value.ends.items ≡ ends_behind 0 script.kept.value.lines.items)
        × SaysLiterals script.kept.value.lines.items
        × Lists script.kept.value.procedures script.kept.value.lines.items
        × (script.kept.value.places.items
        ≡ places_to script.kept.value.lines.items (length script.kept.value.lines.items)) };
}

impl Script {
    ghost use Rattle.lio_syntax.specs.Behind.{script_of_lines};
    ghost use Rattle.lio_syntax.specs.Beginnings.{BeginsAt, number_of};
    ghost use Rattle.lio_syntax.specs.Closing.{end_of};
    ghost use Rattle.lio_syntax.specs.Kept.{KeepsRules, SaysLiterals};
    ghost use Rattle.lio_syntax.specs.Lines.{script_lines};
    ghost use Rattle.lio_syntax.specs.Places.{place_at};

    /// The script of these lines.
    pub(crate) fn of(alloc: Global, mut lines: Vec<Line>) -> Result<Script, NoMemory>
        requires rules { KeepsRules lines.items }
        requires literals { SaysLiterals lines.items }
        ensures { IfOk result (λ script. script ≡ script_of_lines lines.items) }
    {
        rank_names(alloc, lines.as_mut_slice())?;
        let ends = ends_of(alloc, lines.as_slice())?;
        let procedures = Procedures::of(alloc, lines.as_slice())?;
        rank_procedures(&procedures, lines.as_mut_slice());
        let places = places_of(alloc, lines.as_slice(), ends.as_slice())?;
        let kept = Kept {
            lines,
            ends,
            procedures,
            places,
        };
        Ok(Script {
            kept: Arc::new(alloc, kept)?,
        })
    }

    /// Its lines in order, without those that say nothing. They break no rule, and their literals
    /// are neither privileges nor handles.
    pub fn lines(&self) -> &[Line]
        ensures lines { script_lines self.now ≡ result.now }
        ensures rules { KeepsRules result.now }
        ensures literals { SaysLiterals result.now }
    {
        self.kept.lines.as_slice()
    }

    /// An equal script, which shares what this one keeps.
    pub fn copy(&self, _alloc: Global) -> Result<Script, NoMemory>
        ensures { IfOk result (λ script. script ≡ self.now) }
    {
        Ok(Script {
            kept: Arc::try_clone(&self.kept)?,
        })
    }

    /// The place of the line at which the innermost block ends that is open behind the line at a
    /// place. It takes the same time at any depth.
    pub fn end_behind(&self, at: usize) -> usize
        requires { at < length (script_lines self.now) }
        ensures { result ≡ end_of (script_lines self.now) (at + 1) }
    {
        self.kept.ends[at]
    }

    /// Where a task goes on behind what stands at a place, if a line is there.
    pub fn place(&self, at: usize) -> Option<&Place>
        ensures { MatchOption result (length (script_lines self.now) ≤ at)
            (λ place. place.now ≡ place_at (script_lines self.now) at) }
    {
        self.kept.places.get(at)
    }

    /// The number of the procedure with this name, from 0 in the order of the script.
    pub fn procedure_number(&self, name: &[u8]) -> Option<usize>
        ensures number { result ≡ number_of self.now name.now }
        ensures within { IfSome result (λ number. number < length self.now) }
        ensures few { length self.now < 2 ^ 32 }
    {
        self.kept.procedures.number(name)
    }

    /// The number of the procedure with this name. Where the name's rank is that number, as in the
    /// statements of a script, this takes one look.
    pub fn procedure_named(&self, name: &Name) -> Option<usize>
        ensures number { result ≡ number_of self.now name.now }
        ensures within { IfSome result (λ number. number < length self.now) }
        ensures few { length self.now < 2 ^ 32 }
    {
        let _ = &self.kept;
        let number = name.rank();
        if self.is_named(number, name) {
            return Some(number);
        }
        self.procedure_number(name.bytes())
    }

    /// Whether there is a procedure with this number, and it has this name.
    fn is_named(&self, number: usize, name: &Name) -> bool
        ensures { IsTrue result → number_of self.now name.now ≡ Some number }
    {
        match self.kept.procedures.find_line(number) {
            Some(at) => match self.kept.lines.get(at) {
                Some(Line::Proc(other, _)) => other.is(name),
                _ => false,
            },
            None => false,
        }
    }

    /// The place of the line that begins the procedure with a number. Its body begins behind that
    /// line.
    pub fn procedure_line(&self, number: usize) -> usize
        requires { number < length self.now }
        ensures { BeginsAt self.now number result }
    {
        self.kept.procedures.line(number)
    }
}
