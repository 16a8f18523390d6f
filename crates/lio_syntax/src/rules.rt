//! The rules on procedures: the parameters of one, and what a line calls.
#![tactic(auto, unfolding(crate::specs::Rules::has_twice))]

ghost use Rattle.std.specs.Prelude.{◌≡◌, ◌≤◌, List, length, bytes_eq};
ghost use Rattle.std.specs.List.{list_any};
ghost use Rattle.lio_syntax_lines.specs.declared.line.ParsedLine.{ParsedLine};
ghost use Rattle.lio_syntax_lines.specs.Header.{line_call};
ghost use Rattle.lio_syntax.specs.Headers.{Knows};
ghost use Rattle.lio_syntax.specs.Rules as spec;

use crate::headers::Headers;
use lio_syntax_lines::Line;
use lio_values::Name;

/// The rule that a called procedure is there.
pub(crate) const KNOWN: u32 = 3;

/// The rule that it is given as many arguments as it has parameters.
pub(crate) const COUNT: u32 = 4;

/// Whether the name is among these.
fn contains(names: &[Name], name: &[u8]) -> bool
    ensures { result ≡ list_any (bytes_eq name.now) names.now }
{
    names.iter().any(|other| name == other.bytes())
}

/// Whether a name is there twice.
pub(crate) fn has_twice(names: &[Name]) -> bool
    ensures { result ≡ spec.has_twice names.now }
{
    for (i, name) in names.iter().enumerate() {
        if contains(&names[i + 1..], name.bytes()) {
            return true;
        }
    }
    false
}

/// Whether a line begins a procedure that has a parameter twice.
pub(crate) fn repeats_parameter(line: &Line) -> bool
    ensures { result ≡ spec.repeats_parameter line.now }
{
    match line {
        Line::Proc(_, parameters) => has_twice(parameters.as_slice()),
        _ => false,
    }
}

/// Whether a line opens a block.
pub(crate) fn opens_block(line: &Line) -> bool
    ensures { result ≡ spec.opens_block line.now }
{
    matches!(line, Line::If(_) | Line::While(_) | Line::Try)
}

/// The rule on calls that a line breaks, if there is one.
pub(crate) fn broken_call(headers: &Headers, line: &Line) -> Option<u32>
    ensures { (all : List ParsedLine)
        → Knows headers.now all → result ≡ spec.broken_call all (line_call line.now) }
{
    let (name, count) = line.call()?;
    match headers.find(name) {
        None => Some(KNOWN),
        Some(parameters) if parameters != count => Some(COUNT),
        Some(_) => None,
    }
}
