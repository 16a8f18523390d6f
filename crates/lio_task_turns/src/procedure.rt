//! Procedures of a script.
ghost use Rattle.std.specs.Prelude.{◌≡◌, ◌<◌, [], IfOk, MatchOption, None, length};
ghost use Rattle.lio_syntax.specs.Beginnings.{number_of};
ghost use Rattle.lio_syntax.specs.Environment.{bind_all};
ghost use Rattle.lio_task_turns.specs.Procedure.{IsNamed, IsNumbered};

use lio_clauses::NoMemory;
use lio_syntax::Script;
use lio_syntax_lines::{Line, Parameters};
use lio_task_control::Environment;
use lio_values::{Name, Values};
use std::alloc::Global;

/// A procedure of a script: its number, its parameters, and the place of the line that begins it.
#[derive(Drop)]
pub struct Procedure<'s> {
    /// Its number, from 0.
    pub number: u32,
    /// The names of its parameters.
    pub parameters: &'s Parameters,
    /// The place of the line that begins it.
    pub line: usize,
}

impl<'s> Procedure<'s> {
    /// The first with this name.
    pub fn find(script: &'s Script, name: &Name) -> Option<Procedure<'s>>
        ensures { MatchOption result (number_of script.now name.now ≡ None) (λ procedure. IsNamed
            script.now name.now procedure.number procedure.parameters.now procedure.line) }
    {
        match script.procedure_named(name) {
            Some(number) => Some(Procedure::numbered(script, number as u32)),
            None => None,
        }
    }

    /// The one with this number.
    pub fn numbered(script: &'s Script, number: u32) -> Procedure<'s>
        requires { number < length script.now }
        ensures number { result.number ≡ number }
        ensures procedure { IsNumbered script.now result.number result.parameters.now result.line }
    {
        let line = script.procedure_line(number as usize);
        match script.lines().get(line) {
            Some(Line::Proc(_, parameters)) => Procedure {
                number,
                parameters,
                line,
            },
            _ => unreachable!(),
        }
    }

    /// The environment in which its body begins: its parameters bound to the values.
    pub fn environment(&self, alloc: Global, values: &Values) -> Result<Environment, NoMemory>
        ensures { IfOk result
            (λ environment. environment ≡ bind_all [] self.now.parameters.now values.now) }
    {
        Environment::of(alloc, self.parameters.as_slice(), values.as_slice())
    }
}
