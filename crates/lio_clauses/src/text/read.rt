//! Reading formulas.
ghost use Rattle.std.specs.Prelude.{◌≡◌, ◌⊎◌, List, ℕ, IfOk, IfErr, Ok, Err};
ghost use Rattle.lio_clauses.specs.FormulaText.{written, reading, written_two, reading_two};
ghost use Rattle.lio_clauses.specs.FormulaPrint.{AreNamed};
ghost use Rattle.lio_clauses.specs.Cursor.{HasMasks, HaveMasks};

use super::clauses::Clauses;
use super::cursor::TokenCursor;
use super::token::Token;
use crate::faults::TextFault;
use crate::formula::Formula;
use crate::names::Names;
use std::alloc::Global;

/// The clauses of a formula's text, as they are written.
fn read_clauses(alloc: Global, text: &[u8], names: &Names) -> Result<Clauses, TextFault>
    ensures ok { IfOk result (HasMasks names.now text.now) }
    ensures fault { IfErr result (λ fault. written names.now text.now ≡ Err fault) }
{
    let (clauses, rest) = TokenCursor::new(names, text).formula(alloc)?;
    rest.end()?;
    Ok(clauses)
}

/// The clauses of the text of two formulas with `%%` between them.
fn read_two_clauses(
    alloc: Global,
    text: &[u8],
    names: &Names,
) -> Result<(Clauses, Clauses), TextFault>
    ensures ok { IfOk result (λ r. HaveMasks names.now text.now r.0 r.1) }
    ensures fault { IfErr result (λ fault. written_two names.now text.now ≡ Err fault) }
{
    let (first, rest) = TokenCursor::new(names, text).formula(alloc)?;
    let (second, rest) = rest.expect(Token::Over)?.formula(alloc)?;
    rest.end()?;
    Ok((first, second))
}

impl Formula {
    /// The canonical form of a text:
    ///
    ///     formula = "True" | "False" | clause { "/\" clause }
    ///     clause  = name | "(" name { "\/" name } ")"
    ///
    /// Blanks between tokens are skipped. The fault is that of the first token that may not stand
    /// where it does.
    pub fn read(alloc: Global, text: &[u8], names: &Names) -> Result<Formula, TextFault>
        ensures ok { IfOk result (λ formula. reading names.now text.now ≡ Ok formula) }
        ensures named { IfOk result (AreNamed names.now) }
        ensures fault { IfErr result
            (λ fault. (fault ≡ TextFault.NoMemory) ⊎ (reading names.now text.now ≡ Err fault)) }

        // A text that is not of the grammar is refused for that, also where memory runs out.
        ensures grammar { IfErr (written names.now text.now) (λ fault. result ≡ Err fault) }
    {
        read_clauses(alloc, text, names)?.canonical(alloc)
    }

    /// The canonical forms of a text of two formulas with `%%` between them. Wide comes only where
    /// the whole text is of the grammar.
    pub fn read_two(
        alloc: Global,
        text: &[u8],
        names: &Names,
    ) -> Result<(Formula, Formula), TextFault>
        ensures ok { IfOk result (λ both. reading_two names.now text.now ≡ Ok both) }
        ensures named { IfOk result
            (λ both. AreNamed names.now both.0 × AreNamed names.now both.1) }
        ensures fault { IfErr result
            (λ fault. (fault ≡ TextFault.NoMemory) ⊎ (reading_two names.now text.now ≡ Err fault)) }

        // A text that is not of the grammar is refused for that, also where memory runs out.
        ensures grammar { IfErr (written_two names.now text.now) (λ fault. result ≡ Err fault) }
    {
        let (first, second) = read_two_clauses(alloc, text, names)?;
        Ok((first.canonical(alloc)?, second.canonical(alloc)?))
    }
}
