//! Printing a script.
#![tactic(auto, unfolding(crate::specs::ScriptText::lines_text))]

ghost use Rattle.std.specs.Prelude.{◌≡◌, ◌≤◌, ◌++◌, length, codes, All, IfOk, OnOk};
ghost use Rattle.lio_syntax_lines.specs.Line.{line_text};
ghost use Rattle.lio_syntax_lines.specs.Line.{IsLine};
ghost use Rattle.lio_syntax.specs.ScriptText.{lines_text, script_text};
ghost use Rattle.lio_syntax.specs.Verdict.{IsOver, IsScript};

use crate::script::Script;
use lio_clauses::{Names, NoMemory};
use lio_syntax_lines::Line;
use std::alloc::Global;

/// Appends a line with its line end.
fn print_line(out: &mut Vec<u8>, names: &Names, line: &Line) -> Result<(), NoMemory>
    requires { IsLine names.now line.now }
    ensures { OnOk result (out.new.items
        ≡ out.old.items ++ (line_text names.now line.now ++ codes "\n")) }
{
    line.print_to(out, names)?;
    Ok(out.push(b'\n')?)
}

/// Appends lines.
fn print_lines(out: &mut Vec<u8>, names: &Names, lines: &[Line]) -> Result<(), NoMemory>
    requires { All (IsLine names.now) lines.now }
    ensures { OnOk result (out.new.items ≡ out.old.items ++ lines_text names.now lines.now) }
{
    for line in lines {
        print_line(out, names, line)?;
    }
    Ok(())
}

/// The canonical text of a script, over the names of principals.
pub fn print_script(alloc: Global, script: &Script, names: &Names) -> Result<Vec<u8>, NoMemory>
    requires { IsOver names.now script.now }
    ensures text { IfOk result (λ text. text.items ≡ script_text names.now script.now) }
    // A text that isn't too long is read as the script, over the same names.
    ensures read { IfOk result
        (λ text. length text.items ≤ 262144 → IsScript names.now text.items script.now) }
{
    let mut text = Vec::new(alloc);
    print_lines(&mut text, names, script.lines())?;
    // What this call ensures is what reading the text asks for.
    let _ = names.len();
    Ok(text)
}
