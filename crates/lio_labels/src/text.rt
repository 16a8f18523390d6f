//! The text of labels.
ghost use Rattle.std.specs.Prelude.{◌≡◌, ◌⊎◌, IfOk, IfErr, Ok, Err};
ghost use Rattle.lio_clauses.specs.FormulaText.{written_two};
ghost use Rattle.lio_labels.specs.LabelText.{reading};
ghost use Rattle.lio_labels.specs.LabelPrint.{AreNamed, label_text};

use crate::label::Label;
use crate::laws::label_is_canonical;
use lio_clauses::{Formula, Names, NoMemory, TextFault};
use std::alloc::Global;

impl Label {
    /// The label of a text over the names of principals:
    ///
    ///     label   = formula "%%" formula
    ///     formula = "True" | "False" | clause { "/\" clause }
    ///     clause  = name | "(" name { "\/" name } ")"
    ///
    /// The secrecy stands before `%%`. Blanks between tokens are skipped. The fault is that of the
    /// first token that may not stand where it does; `Wide` comes only where there is none.
    pub fn read(alloc: Global, text: &[u8], names: &Names) -> Result<Label, TextFault>
        ensures ok { IfOk result (λ label. reading names.now text.now ≡ Ok label) }
        ensures named { IfOk result (AreNamed names.now) }
        ensures fault { IfErr result
            (λ fault. (fault ≡ TextFault.NoMemory) ⊎ (reading names.now text.now ≡ Err fault)) }

        // A text that is not of the grammar is refused for that, also where memory runs out.
        ensures grammar { IfErr (written_two names.now text.now) (λ fault. result ≡ Err fault) }
    {
        let (secrecy, integrity) = Formula::read_two(alloc, text, names)?;
        Ok(Label { secrecy, integrity })
    }

    /// The canonical text: that of the secrecy, ` %% `, and that of the integrity.
    pub fn print(&self, alloc: Global, names: &Names) -> Result<Vec<u8>, NoMemory>
        requires { AreNamed names.now self.now }
        ensures ok { IfOk result (λ text. text.items ≡ label_text names.now self.now) }
        // Reading the text over the same names gives the label again.
        ensures read { IfOk result (λ text. reading names.now text.items ≡ Ok self.now) }
    {
        let mut text = Vec::new(alloc);
        self.secrecy.print_to(&mut text, names)?;
        text.extend_from_slice(b" %% ")?;
        self.integrity.print_to(&mut text, names)?;
        // What these calls ensure is what reading the text asks for.
        label_is_canonical(self);
        let _ = names.len();
        Ok(text)
    }
}
