//! Reading a script.
ghost use Rattle.std.specs.Prelude.{◌≡◌, List, ℕ, IfOk, IfErr};
ghost use Rattle.lio_syntax.specs.Headers.{Knows};
ghost use Rattle.lio_syntax.specs.Refusal.{Refuses};
ghost use Rattle.lio_syntax.specs.Verdict.{IsOver, IsScript, parsed_lines, script_fault};

use crate::fault::ScriptFault;
use crate::headers::Headers;
use crate::progress::{LIMITS, Progress};
use crate::script::Script;
use crate::text::split_line;
use lio_clauses::{Names, NoMemory};
use lio_syntax_lines::{read_header, read_line};
use std::alloc::Global;

/// The most bytes that a text has.
const MOST_BYTES: usize = 262_144;

/// The procedures that the lines of a text begin.
pub(crate) fn read_headers(alloc: Global, bytes: &[u8]) -> Result<Headers, NoMemory>
    ensures { IfOk result (λ headers. (names : List (List ℕ))
        → Knows headers (parsed_lines names bytes.now)) }
{
    let mut headers = Headers::new(alloc);
    let mut rest = bytes;
    'lines: while let Some((line, behind)) = split_line(rest) {
        if let Some((name, count)) = read_header(line) {
            headers.add(alloc, name, count)?;
        }
        rest = behind;
    }
    Ok(headers)
}

/// How many parameters the first procedure of a script with a name has, if there is one.
pub fn parameter_count(
    alloc: Global,
    script: &[u8],
    name: &[u8],
) -> Result<Option<usize>, NoMemory> {
    Ok(read_headers(alloc, script)?.find(name))
}

/// The script that a text is, over the names of principals, or the first line that breaks a rule
/// with the lowest rule that it breaks.
pub fn read_script(alloc: Global, bytes: &[u8], names: &Names) -> Result<Script, ScriptFault>
    ensures script { IfOk result (IsScript names.now bytes.now) }
    ensures over { IfOk result (IsOver names.now) }
    ensures fault { IfErr result (Refuses (script_fault names.now bytes.now)) }
{
    if bytes.len() > MOST_BYTES {
        return Err(ScriptFault::Bad {
            line: 0,
            rule: LIMITS,
        });
    }
    let headers = read_headers(alloc, bytes)?;
    let mut progress = Progress::new(alloc);
    let mut rest = bytes;
    'lines: while let Some((line, behind)) = split_line(rest) {
        let parsed = read_line(alloc, names, line)?;
        progress.take(alloc, &headers, parsed)?;
        rest = behind;
    }
    Ok(Script::of(alloc, progress.end()?)?)
}
