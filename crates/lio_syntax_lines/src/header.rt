//! The procedures that lines begin and call.
#![tactic(auto, unfolding(crate::specs::Forms::header))]

ghost use Rattle.std.specs.Prelude.{◌≡◌, List, ℕ, Some, None, MatchOption};
ghost use Rattle.std.specs.Option.{option_map};
ghost use Rattle.lio_syntax_lines.specs.Forms as spec;
ghost use Rattle.lio_syntax_lines.specs.Line.{line_of};
ghost use Rattle.lio_syntax_lines.specs.Header.{header_of, parsed_header, call_of, line_call};
ghost use Rattle.lio_syntax_lines.specs.Header.{signature};
ghost use Rattle.lio_syntax_lines.specs.Limited.{limited};

use crate::forms::Words;
use crate::line::{Line, Simple};
use crate::shapes::MOST_PARAMETERS;
use crate::{Keyword, is_name, without_return};

impl<'a> Words<'a> {
    /// How many names there are up to the end, if there are at most 8 and nothing else.
    fn parameter_count(&mut self) -> Option<usize>
        ensures { result ≡ limited 0 (spec.names_of self.old) }
    {
        let mut count = 0;
        'words: while let Some(word) = self.next() {
            if !is_name(word) {
                return None;
            }
            if count >= MOST_PARAMETERS {
                return None;
            }
            count += 1;
        }
        Some(count)
    }

    /// `P X ..`, as the name and how many follow it.
    fn first_line(&mut self) -> Option<(&'a [u8], usize)>
        ensures { MatchOption result (spec.header self.old ≡ None) (λ h. option_map signature
            (spec.header self.old) ≡ Some (record { name = h.0.now; count = h.1 })) }
    {
        let name = self.next()?;
        if !is_name(name) {
            return None;
        }
        let count = self.parameter_count()?;
        Some((name, count))
    }
}

/// Whether a word begins a procedure.
fn is_proc(word: &[u8]) -> bool
    ensures { result ≡ spec.is_proc word.now }
{
    matches!(Keyword::find(word), Some(Keyword::Proc))
}

/// The procedure that a line of a text begins, by its name and its number of parameters. It takes
/// no memory.
pub fn read_header(bytes: &[u8]) -> Option<(&[u8], usize)>
    ensures { (names : List (List ℕ))
        → MatchOption result (parsed_header (line_of names bytes.now) ≡ None) (λ h. parsed_header
        (line_of names bytes.now) ≡ Some (record { name = h.0.now; count = h.1 })) }
{
    let mut words = Words::of(without_return(bytes));
    let first = words.next()?;
    if first.starts_with(b"#") {
        return None;
    }
    if !is_proc(first) {
        return None;
    }
    words.first_line()
}

impl Line {
    /// The procedure that it begins, by its name and its number of parameters.
    pub fn header(&self) -> Option<(&[u8], usize)>
        ensures { MatchOption result (header_of self.now ≡ None)
            (λ h. header_of self.now ≡ Some (record { name = h.0.now; count = h.1 })) }
    {
        match self {
            Line::Proc(name, parameters) => Some((name.bytes(), parameters.as_slice().len())),
            _ => None,
        }
    }

    /// The procedure that it calls, forks or spawns, by its name and the number of arguments.
    pub fn call(&self) -> Option<(&[u8], usize)>
        ensures { MatchOption result (line_call self.now ≡ None)
            (λ h. line_call self.now ≡ Some (record { name = h.0.now; count = h.1 })) }
    {
        match self {
            Line::Do(simple) => simple.call(),
            _ => None,
        }
    }
}

impl Simple {
    /// The procedure that it calls, forks or spawns, by its name and the number of arguments.
    pub fn call(&self) -> Option<(&[u8], usize)>
        ensures { MatchOption result (call_of self.now ≡ None)
            (λ h. call_of self.now ≡ Some (record { name = h.0.now; count = h.1 })) }
    {
        match self {
            Simple::Call(_, name, arguments)
            | Simple::Fork(_, _, _, _, name, arguments)
            | Simple::Spawn(_, _, name, arguments) => {
                Some((name.bytes(), arguments.as_slice().len()))
            }
            _ => None,
        }
    }
}
