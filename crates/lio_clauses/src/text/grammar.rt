//! The productions of the grammar. Each reads from a cursor, and gives the cursor behind what it
//! read, or the fault of the first token that may not stand where it does.
ghost use Rattle.std.specs.Prelude.{◌≡◌, ◌<◌, IfOk, IfErr, Err};

use super::clauses::Clauses;
use super::cursor::TokenCursor;
use super::token::Token;
use crate::faults::TextFault;
use std::alloc::Global;

impl<'a> TokenCursor<'a> {
    ghost use Rattle.lio_clauses.specs.declared.text.token.Token.TheVariants.{Or, And};
    ghost use Rattle.lio_clauses.specs.FormulaText.{name_at, listed, names_at, clause_at};
    ghost use Rattle.lio_clauses.specs.FormulaText.{formula_at};
    ghost use Rattle.lio_clauses.specs.Cursor.{left, seen, with_value, mask_of, Gives};

    /// A name, as the number of its principal.
    fn name(&self) -> Result<(u32, TokenCursor<'a>), TextFault>
        ensures name { seen result ≡ name_at (left self.now) }
        ensures small { IfOk result (λ r. r.0 < 64) }
    {
        match self.next() {
            Some(Token::Principal(number)) => Ok((number, self.behind())),
            Some(Token::Stranger) => Err(TextFault::Unknown(self.place())),
            _ => Err(self.misplaced()),
        }
    }

    /// `name { "\/" name }`, as the set of the principals, principal n at bit n.
    fn names(&self) -> Result<(u64, TokenCursor<'a>), TextFault>
        ensures { seen result ≡ with_value mask_of (listed Or name_at (left self.now)) }
    {
        let (number, mut cursor) = self.name()?;
        let mut clause = 1 << number;
        'names: while let Some(more) = cursor.after(Token::Or) {
            let (number, rest) = more.name()?;
            clause |= 1 << number;
            cursor = rest;
        }
        Ok((clause, cursor))
    }

    /// `name | "(" name { "\/" name } ")"`, as the set of the principals.
    fn clause(&self) -> Result<(u64, TokenCursor<'a>), TextFault>
        ensures { seen result ≡ with_value mask_of (clause_at (left self.now)) }
    {
        let Some(inside) = self.after(Token::Open) else {
            let (number, rest) = self.name()?;
            return Ok((1 << number, rest));
        };
        let (clause, rest) = inside.names()?;
        Ok((clause, rest.expect(Token::Close)?))
    }

    /// `clause { "/\" clause }`
    fn conjunction(&self, alloc: Global) -> Result<(Clauses, TokenCursor<'a>), TextFault>
        ensures ok { IfOk result
            (λ r. Gives (listed And clause_at (left self.now)) r.0 (left r.1)) }
        ensures fault { IfErr result (λ fault. listed And clause_at (left self.now) ≡ Err fault) }
    {
        let mut clauses = Clauses::new(alloc);
        let (clause, mut cursor) = self.clause()?;
        clauses.push(clause);
        'clauses: while let Some(more) = cursor.after(Token::And) {
            let (clause, rest) = more.clause()?;
            clauses.push(clause);
            cursor = rest;
        }
        Ok((clauses, cursor))
    }

    /// `"True" | "False" | clause { "/\" clause }`
    pub(super) fn formula(&self, alloc: Global) -> Result<(Clauses, TokenCursor<'a>), TextFault>
        ensures ok { IfOk result (λ r. Gives (formula_at (left self.now)) r.0 (left r.1)) }
        ensures fault { IfErr result (λ fault. formula_at (left self.now) ≡ Err fault) }
    {
        if let Some(rest) = self.after(Token::Truth) {
            return Ok((Clauses::new(alloc), rest));
        }
        if let Some(rest) = self.after(Token::Falsity) {
            let mut clauses = Clauses::new(alloc);
            clauses.push(0);
            return Ok((clauses, rest));
        }
        self.conjunction(alloc)
    }
}
