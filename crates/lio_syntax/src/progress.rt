//! Reading the lines of a text one after another.
ghost use Rattle.std.specs.Prelude.{◌≡◌, ◌≤◌, ◌<◌, ◌+◌, ◌++◌, ◌∷◌, [], List, ℕ, suc, false, None};
ghost use Rattle.std.specs.Prelude.{is_some, if◌then◌else◌, length, All, OnOk, IfOk, IfErr};
ghost use Rattle.lio_syntax_lines.specs.declared.line.ParsedLine.{ParsedLine};
ghost use Rattle.lio_syntax_lines.specs.declared.line.ParsedLine.TheVariants.{Blank, Says};
ghost use Rattle.lio_syntax_lines.specs.Header.{header_of};
ghost use Rattle.lio_syntax_lines.specs.Line.{IsLine, IsParsed};
ghost use Rattle.lio_syntax.specs.Rules as spec;
ghost use Rattle.lio_syntax.specs.Refusal.{Refuses};
ghost use Rattle.lio_syntax.specs.OpenBlocks.{open_behind};
ghost use Rattle.lio_syntax.specs.Verdict.{fault_or, unclosed};

use crate::fault::ScriptFault;
use crate::headers::Headers;
use crate::open_block::OpenBlocks;
use crate::rules::{broken_call, opens_block, repeats_parameter};
use lio_clauses::NoMemory;
use lio_syntax_lines::{Line, ParsedLine};
use std::alloc::Global;

/// The most lines that a text has.
const MOST_LINES: usize = 8_192;

/// The most procedures that it has.
const MOST_PROCEDURES: usize = 512;

/// The most blocks that are open in a procedure.
const MOST_BLOCKS: usize = 64;

/// The rule that each line is one of the forms.
const FORM: u32 = 1;

/// The rule that it stands where it can.
const PLACE: u32 = 2;

/// The rule that the names of procedures differ.
const NAME: u32 = 5;

/// The rule that the parameters of a procedure differ.
const PARAMETERS: u32 = 6;

/// The rule on limits.
pub(crate) const LIMITS: u32 = 7;

/// What is known of a text behind its first lines.
#[derive(Drop)]
pub(crate) struct Progress {
    blocks: OpenBlocks,
    seen: Headers,
    procedures: usize,
    count: usize,
    lines: Vec<Line>,
    ghost fewer: { procedures ≤ count },
    ghost few: { count ≤ 8192 },
}

impl Progress {
    ghost use Rattle.lio_syntax.specs.Headers.{Knows};
    ghost use Rattle.lio_syntax.specs.Progress.{Stands};

    /// Before the first line.
    pub(crate) fn new(alloc: Global) -> Progress
        ensures start { Stands result [] }
        ensures lines { result.lines.items ≡ [] }
    {
        Progress {
            blocks: OpenBlocks::new(alloc),
            seen: Headers::new(alloc),
            procedures: 0,
            count: 0,
            lines: Vec::new(alloc),
        }
    }

    /// Whether a line begins a procedure with the name of an earlier one.
    fn is_again(&self, line: &Line) -> bool
        ensures { (before : List ParsedLine)
            → Stands self.now before → result ≡ spec.is_again before (header_of line.now) }
    {
        match line.header() {
            Some((name, _)) => self.seen.find(name).is_some(),
            None => false,
        }
    }

    /// The rule on procedures that a line breaks, if there is one.
    fn broken_header(&self, line: &Line) -> Option<u32>
        ensures { (before : List ParsedLine)
            → Stands self.now before → result ≡ spec.broken_header before line.now }
    {
        if self.is_again(line) {
            Some(NAME)
        } else if repeats_parameter(line) {
            Some(PARAMETERS)
        } else {
            None
        }
    }

    /// Whether a line is past a limit.
    fn is_past_limits(&self, line: &Line) -> bool
        ensures past { (before : List ParsedLine)
            → Stands self.now before → result ≡ spec.is_past_limits before line.now }
        ensures room { result ≡ false → self.now.count < 8192 }
    {
        self.count >= MOST_LINES
            || (line.header().is_some() && self.procedures >= MOST_PROCEDURES)
            || (opens_block(line) && self.blocks.len().saturating_sub(1) >= MOST_BLOCKS)
    }

    /// The rule on limits, if a line breaks it.
    fn broken_limit(&self, line: &Line) -> Option<u32>
        ensures rule { (before : List ParsedLine)
            → Stands self.now before → result ≡ spec.broken_limit before line.now }
        ensures room { result ≡ None → self.now.count < 8192 }
    {
        if self.is_past_limits(line) {
            Some(LIMITS)
        } else {
            None
        }
    }

    /// The lowest rule that a line breaks, if there is one.
    fn broken_rule(&self, headers: &Headers, line: &Line) -> Option<u32>
        ensures rule { (all before : List ParsedLine) → Knows headers.now all
            → Stands self.now before → result ≡ spec.broken_by all before line.now }
        ensures room { result ≡ None → self.now.count < 8192 }
    {
        if self.blocks.is_misplaced(line) {
            return Some(PLACE);
        }
        if let Some(rule) = broken_call(headers, line) {
            return Some(rule);
        }
        if let Some(rule) = self.broken_header(line) {
            return Some(rule);
        }
        self.broken_limit(line)
    }

    /// Passes over a line that says nothing.
    fn skip(&mut self)
        requires { self.old.count < 8192 }
        ensures step { (before : List ParsedLine)
            → Stands self.old before → Stands self.new (before ++ Blank ∷ []) }
        ensures lines { self.new.lines.items ≡ self.old.lines.items }
    {
        self.count += 1;
    }

    /// Notes the procedure that a line begins.
    fn add_header(&mut self, alloc: Global, line: &Line) -> Result<(), NoMemory>
        requires { self.old.count < 8192 }
        ensures seen { OnOk result ((before : List ParsedLine)
            → Knows self.old.seen before → Knows self.new.seen (before ++ Says line.now ∷ [])) }
        ensures procedures { OnOk result (self.new.procedures
            ≡ (if is_some (header_of line.now) then suc self.old.procedures
            else self.old.procedures)) }
        ensures others { OnOk result ((self.new.blocks ≡ self.old.blocks) × (self.new.count
            ≡ suc self.old.count) × (self.new.lines.items ≡ self.old.lines.items)) }
    {
        self.count += 1;
        if let Some((name, count)) = line.header() {
            self.seen.add(alloc, name, count)?;
            self.procedures += 1;
        }
        Ok(())
    }

    /// Takes a line that breaks no rule.
    fn add(&mut self, alloc: Global, line: Line) -> Result<(), NoMemory>
        requires { self.old.count < 8192 }
        ensures step { OnOk result ((before : List ParsedLine)
            → Stands self.old before → Stands self.new (before ++ Says line ∷ [])) }
        ensures lines { OnOk result (self.new.lines.items ≡ self.old.lines.items ++ line ∷ []) }
    {
        self.add_header(alloc, &line)?;
        self.blocks.open_by(&line)?;
        self.lines.push(line)?;
        Ok(())
    }

    /// The fault that the next line breaks a rule.
    fn fault(&self, rule: u32) -> ScriptFault
        ensures { result ≡ ScriptFault.Bad (self.now.count + 1) rule }
    {
        ScriptFault::Bad {
            line: self.count as u32 + 1,
            rule,
        }
    }

    /// Takes the next line, or answers the lowest rule that it breaks.
    pub(crate) fn take(
        &mut self,
        alloc: Global,
        headers: &Headers,
        parsed: ParsedLine,
    ) -> Result<(), ScriptFault>
        ensures step { OnOk result ((all before : List ParsedLine)
            → Knows headers.now all → Stands self.old before
            → (spec.broken_rule all before parsed ≡ None)
            × Stands self.new (before ++ parsed ∷ [])) }
        ensures sound { OnOk result ((names : List (List ℕ))
            → All (IsLine names) self.old.lines.items
            → IsParsed names parsed → All (IsLine names) self.new.lines.items) }
        ensures fault { IfErr result (λ fault. (all before : List ParsedLine)
            → Knows headers.now all → Stands self.old before
            → Refuses (fault_or (spec.broken_rule all before parsed)
            (length before + 1) None) fault) }
    {
        match parsed {
            ParsedLine::Invalid => Err(self.fault(FORM)),
            ParsedLine::Blank => {
                if self.count >= MOST_LINES {
                    return Err(self.fault(LIMITS));
                }
                self.skip();
                Ok(())
            }
            ParsedLine::Says(line) => {
                if let Some(rule) = self.broken_rule(headers, &line) {
                    return Err(self.fault(rule));
                }
                Ok(self.add(alloc, line)?)
            }
        }
    }

    /// The lines so far, or the fault that something is still open behind the last line.
    pub(crate) fn end(self) -> Result<Vec<Line>, ScriptFault>
        ensures ok { IfOk result (λ lines. (lines.items ≡ self.lines.items)
            × ((before : List ParsedLine) → Stands self before → open_behind before ≡ [])) }
        ensures fault { IfErr result (λ fault. (before : List ParsedLine) → Stands self before
            → Refuses (unclosed (length before + 1) (open_behind before)) fault) }
    {
        if !self.blocks.is_empty() {
            return Err(self.fault(PLACE));
        }
        let Progress { lines, .. } = self;
        Ok(lines)
    }
}
