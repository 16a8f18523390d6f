//! Printing formulas.
ghost use Rattle.std.specs.Prelude.{◌≡◌, ◌<◌, ◌++◌, List, ℕ, [], map, codes, length, OnOk, OnErr};
ghost use Rattle.std.specs.Prelude.{IfOk, Ok, if◌then◌else◌};
ghost use Rattle.std.specs.List.{All};
ghost use Rattle.lio_clauses.specs.Principals.{principals};
ghost use Rattle.lio_clauses.specs.FormulaText.{reading};
ghost use Rattle.lio_clauses.specs.FormulaPrint.{AreNamed, Extends, formula_text, clause_text};
ghost use Rattle.lio_clauses.specs.FormulaPrint.{joined, name_of};

use crate::faults::NoMemory;
use crate::formula::Formula;
use crate::names::Names;
use std::alloc::Global;

/// Appends bytes.
fn append(text: &mut Vec<u8>, bytes: &[u8]) -> Result<(), NoMemory>
    ensures ok { OnOk result (text.new.items ≡ text.old.items ++ bytes.now) }
    ensures kept { Extends text.old.items text.new.items }
{
    text.extend_from_slice(bytes)?;
    Ok(())
}

/// Appends a sign, but not before the first item.
fn append_sign(text: &mut Vec<u8>, sign: &[u8], first: bool) -> Result<(), NoMemory>
    ensures ok { OnOk result (text.new.items ≡ text.old.items ++ (if first then [] else sign.now)) }
    ensures kept { Extends text.old.items text.new.items }
{
    append(text, if first { &[] } else { sign })
}

/// Appends the names of a clause's principals, in rising number.
fn append_names(text: &mut Vec<u8>, clause: u64, names: &Names) -> Result<(), NoMemory>
    requires { All (λ n. n < length names.now) (principals clause) }
    ensures ok { OnOk result (text.new.items
        ≡ text.old.items ++ joined (codes " \\/ ") (map (name_of names.now) (principals clause))) }
    ensures kept { Extends text.old.items text.new.items }
{
    let mut first = true;
    for n in 0..64 {
        if clause >> n & 1 == 1 {
            append_sign(text, b" \\/ ", first)?;
            append(text, names.name(n))?;
            first = false;
        }
    }
    Ok(())
}

/// Appends a clause.
fn append_clause(text: &mut Vec<u8>, clause: u64, names: &Names) -> Result<(), NoMemory>
    requires { All (λ n. n < length names.now) (principals clause) }
    ensures ok { OnOk result (text.new.items
        ≡ text.old.items ++ clause_text names.now (principals clause)) }
    ensures kept { Extends text.old.items text.new.items }
{
    let first = clause.trailing_zeros();
    if first < 64 && clause == 1 << first {
        return append(text, names.name(first));
    }
    append(text, b"(")?;
    append_names(text, clause, names)?;
    append(text, b")")
}

/// Appends a formula. Where memory runs out, a part of it may stand at the end.
fn append_formula(text: &mut Vec<u8>, formula: &Formula, names: &Names) -> Result<(), NoMemory>
    requires { AreNamed names.now formula.now }
    ensures ok { OnOk result (text.new.items
        ≡ text.old.items ++ formula_text names.now formula.now) }
    ensures kept { Extends text.old.items text.new.items }
{
    let clauses = formula.clauses();
    if clauses.is_empty() {
        return append(text, b"True");
    }
    if clauses.len() == 1 && clauses[0] == 0 {
        return append(text, b"False");
    }
    for (place, &clause) in clauses.iter().enumerate() {
        append_sign(text, b" /\\ ", place == 0)?;
        append_clause(text, clause, names)?;
    }
    Ok(())
}

impl Formula {
    /// Appends the canonical text: `True`, `False`, or clauses with ` /\ ` between them. A clause
    /// of one principal is its name, another is like `(a \/ b)`. Where memory runs out, the text is
    /// as before.
    pub fn print_to(&self, text: &mut Vec<u8>, names: &Names) -> Result<(), NoMemory>
        requires { AreNamed names.now self.now }
        ensures ok { OnOk result (text.new.items
            ≡ text.old.items ++ formula_text names.now self.now) }
        ensures err { OnErr result (text.new.items ≡ text.old.items) }
    {
        let len = text.len();
        let printed = append_formula(text, self, names);
        if printed.is_err() {
            text.truncate(len);
        }
        printed
    }

    /// The canonical text.
    pub fn print(&self, alloc: Global, names: &Names) -> Result<Vec<u8>, NoMemory>
        requires { AreNamed names.now self.now }
        ensures ok { IfOk result (λ text. text.items ≡ formula_text names.now self.now) }
        // Reading the text over the same names gives the formula again.
        ensures read { IfOk result (λ text. reading names.now text.items ≡ Ok self.now) }
    {
        let mut text = Vec::new(alloc);
        append_formula(&mut text, self, names)?;
        // What these calls ensure is what reading the text asks for.
        let _ = self.clauses();
        let _ = names.len();
        Ok(text)
    }
}
