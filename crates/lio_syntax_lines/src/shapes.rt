//! The shapes of lines: what stands behind a first word, up to the end of the line.
#![tactic(auto, unfolding(crate::specs::Forms::one, crate::specs::Forms::two))]

ghost use Rattle.std.specs.Prelude.{◌≡◌, ◌≤◌, length, Some, None, IfOk, IfErr, All};
ghost use Rattle.lio_syntax_lines.specs.Forms as spec;
ghost use Rattle.lio_syntax_lines.specs.Operands.{IsOperand};
ghost use Rattle.lio_syntax_lines.specs.Literals.{IsName};
ghost use Rattle.lio_syntax_lines.specs.Simple.{IsSimple};

use crate::fault::LineFault;
use crate::forms::{Words, read_operand};
use crate::is_name;
use crate::line::{Operand, Operands, Parameters};
use lio_clauses::{Names, beside};
use lio_values::{List, Name};
use std::alloc::Global;

/// The most parameters of a procedure.
pub(crate) const MOST_PARAMETERS: usize = 8;

impl<'a> Words<'a> {
    /// `A`
    pub(crate) fn one(&mut self, alloc: Global, names: &Names) -> Result<Operand, LineFault>
        ensures ok { IfOk result (λ a. spec.one names.now self.old ≡ Some a) }
        ensures sound { IfOk result (IsOperand names.now) }
        ensures invalid { IfErr result
            (λ fault. fault ≡ LineFault.Invalid → spec.one names.now self.old ≡ None) }
    {
        let a = self.operand(alloc, names)?;
        let (a, _) = beside(a, self.end())?;
        Ok(a)
    }

    /// `A A`
    pub(crate) fn two(
        &mut self,
        alloc: Global,
        names: &Names,
    ) -> Result<(Operand, Operand), LineFault>
        ensures ok { IfOk result (λ p. spec.two names.now self.old ≡ Some p) }
        ensures sound { IfOk result (λ p. IsOperand names.now p.0 × IsOperand names.now p.1) }
        ensures invalid { IfErr result
            (λ fault. fault ≡ LineFault.Invalid → spec.two names.now self.old ≡ None) }
    {
        let a = self.operand(alloc, names)?;
        let (a, b) = beside(a, self.one(alloc, names))?;
        Ok((a, b))
    }

    /// `A A A`
    #[tactic(auto, unfolding(crate::specs::Forms::three))]
    pub(crate) fn three(
        &mut self,
        alloc: Global,
        names: &Names,
    ) -> Result<(Operand, Operand, Operand), LineFault>
        ensures ok { IfOk result (λ p. spec.three names.now self.old ≡ Some p) }
        ensures sound { IfOk result
            (λ p. IsOperand names.now p.0 × IsOperand names.now p.1 × IsOperand names.now p.2) }
        ensures invalid { IfErr result
            (λ fault. fault ≡ LineFault.Invalid → spec.three names.now self.old ≡ None) }
    {
        let a = self.operand(alloc, names)?;
        let (a, (b, c)) = beside(a, self.two(alloc, names))?;
        Ok((a, b, c))
    }

    /// `X A`
    #[tactic(auto, unfolding(crate::specs::Forms::name_one))]
    pub(crate) fn name_one(
        &mut self,
        alloc: Global,
        names: &Names,
    ) -> Result<(Name, Operand), LineFault>
        ensures ok { IfOk result (λ p. spec.name_one names.now self.old ≡ Some p) }
        ensures sound { IfOk result (λ p. IsName p.0 × IsOperand names.now p.1) }
        ensures invalid { IfErr result
            (λ fault. fault ≡ LineFault.Invalid → spec.name_one names.now self.old ≡ None) }
    {
        let x = self.name(alloc)?;
        let a = self.one(alloc, names)?;
        Ok((x, a))
    }

    /// `X A A`
    #[tactic(auto, unfolding(crate::specs::Forms::name_two))]
    pub(crate) fn name_two(
        &mut self,
        alloc: Global,
        names: &Names,
    ) -> Result<(Name, Operand, Operand), LineFault>
        ensures ok { IfOk result (λ p. spec.name_two names.now self.old ≡ Some p) }
        ensures sound { IfOk result
            (λ p. IsName p.0 × IsOperand names.now p.1 × IsOperand names.now p.2) }
        ensures invalid { IfErr result
            (λ fault. fault ≡ LineFault.Invalid → spec.name_two names.now self.old ≡ None) }
    {
        let x = self.name(alloc)?;
        let (a, b) = self.two(alloc, names)?;
        Ok((x, a, b))
    }

    /// `X A A A`
    #[tactic(auto, unfolding(crate::specs::Forms::name_three))]
    pub(crate) fn name_three(
        &mut self,
        alloc: Global,
        names: &Names,
    ) -> Result<(Name, Operand, Operand, Operand), LineFault>
        ensures ok { IfOk result (λ p. spec.name_three names.now self.old ≡ Some p) }
        ensures sound { IfOk result (λ p. IsName p.0
            × IsOperand names.now p.1 × IsOperand names.now p.2 × IsOperand names.now p.3) }
        ensures invalid { IfErr result
            (λ fault. fault ≡ LineFault.Invalid → spec.name_three names.now self.old ≡ None) }
    {
        let x = self.name(alloc)?;
        let (a, b, c) = self.three(alloc, names)?;
        Ok((x, a, b, c))
    }

    /// `X Y`
    #[tactic(auto, unfolding(crate::specs::Forms::two_names))]
    pub(crate) fn two_names(&mut self, alloc: Global) -> Result<(Name, Name), LineFault>
        ensures ok { IfOk result (λ p. spec.two_names self.old ≡ Some p) }
        ensures sound { IfOk result (λ p. IsName p.0 × IsName p.1) }
        ensures invalid { IfErr result
            (λ fault. fault ≡ LineFault.Invalid → spec.two_names self.old ≡ None) }
    {
        let x = self.name(alloc)?;
        let y = self.name(alloc)?;
        self.end()?;
        Ok((x, y))
    }

    /// Operands up to the end.
    pub(crate) fn operands(&mut self, alloc: Global, names: &Names) -> Result<Operands, LineFault>
        ensures ok { IfOk result (λ operands. spec.operands names.now self.old ≡ Some operands) }
        ensures sound { IfOk result (All (IsOperand names.now)) }
        ensures invalid { IfErr result
            (λ fault. fault ≡ LineFault.Invalid → spec.operands names.now self.old ≡ None) }
    {
        let mut operands = List::new(alloc);
        'words: while let Some(word) = self.next() {
            operands.push(read_operand(alloc, names, word)?)?;
        }
        Ok(operands)
    }

    /// Names up to the end.
    pub(crate) fn names(&mut self, alloc: Global) -> Result<Parameters, LineFault>
        ensures ok { IfOk result (λ parameters. spec.names_of self.old ≡ Some parameters) }
        ensures sound { IfOk result (All IsName) }
        ensures invalid { IfErr result
            (λ fault. fault ≡ LineFault.Invalid → spec.names_of self.old ≡ None) }
    {
        let mut names = List::new(alloc);
        'words: while let Some(word) = self.next() {
            if !is_name(word) {
                return Err(LineFault::Invalid);
            }
            names.push(Name::of(alloc, word)?)?;
        }
        Ok(names)
    }

    /// `P X ..`
    #[tactic(auto, unfolding(crate::specs::Forms::header))]
    pub(crate) fn header(&mut self, alloc: Global) -> Result<(Name, Parameters), LineFault>
        ensures ok { IfOk result (λ p. spec.header self.old ≡ Some p) }
        ensures sound { IfOk result (λ p. IsName p.0 × All IsName p.1 × (length p.1 ≤ 8)) }
        ensures invalid { IfErr result
            (λ fault. fault ≡ LineFault.Invalid → spec.header self.old ≡ None) }
    {
        let p = self.name(alloc)?;
        let parameters = self.names(alloc)?;
        if parameters.as_slice().len() <= MOST_PARAMETERS {
            Ok((p, parameters))
        } else {
            Err(LineFault::Invalid)
        }
    }

    /// `P A ..`
    #[tactic(auto, unfolding(crate::specs::Forms::called))]
    pub(crate) fn called(
        &mut self,
        alloc: Global,
        names: &Names,
    ) -> Result<(Name, Operands), LineFault>
        ensures ok { IfOk result (λ p. spec.called names.now self.old ≡ Some p) }
        ensures sound { IfOk result (λ p. IsName p.0 × All (IsOperand names.now) p.1) }
        ensures invalid { IfErr result
            (λ fault. fault ≡ LineFault.Invalid → spec.called names.now self.old ≡ None) }
    {
        let p = self.name(alloc)?;
        let arguments = self.operands(alloc, names)?;
        Ok((p, arguments))
    }

    /// `X P A ..`
    #[tactic(auto, unfolding(crate::specs::Forms::call))]
    pub(crate) fn call(
        &mut self,
        alloc: Global,
        names: &Names,
    ) -> Result<(Name, Name, Operands), LineFault>
        ensures ok { IfOk result (λ p. spec.call names.now self.old ≡ Some p) }
        ensures sound { IfOk result (λ p. IsName p.0 × IsName p.1 × All (IsOperand names.now) p.2) }
        ensures invalid { IfErr result
            (λ fault. fault ≡ LineFault.Invalid → spec.call names.now self.old ≡ None) }
    {
        let x = self.name(alloc)?;
        let (p, arguments) = self.called(alloc, names)?;
        Ok((x, p, arguments))
    }

    /// `T C P A ..`
    #[tactic(auto, unfolding(crate::specs::Forms::spawn))]
    pub(crate) fn spawn(
        &mut self,
        alloc: Global,
        names: &Names,
    ) -> Result<(Operand, Operand, Name, Operands), LineFault>
        ensures ok { IfOk result (λ p. spec.spawn names.now self.old ≡ Some p) }
        ensures sound { IfOk result (λ p. IsOperand names.now p.0
            × IsOperand names.now p.1 × IsName p.2 × All (IsOperand names.now) p.3) }
        ensures invalid { IfErr result
            (λ fault. fault ≡ LineFault.Invalid → spec.spawn names.now self.old ≡ None) }
    {
        let t = self.operand(alloc, names)?;
        let (t, c) = beside(t, self.operand(alloc, names))?;
        let ((t, c), (p, arguments)) = beside((t, c), self.called(alloc, names))?;
        Ok((t, c, p, arguments))
    }

    /// `X L T C P A ..`
    #[tactic(auto, unfolding(crate::specs::Forms::fork))]
    pub(crate) fn fork(
        &mut self,
        alloc: Global,
        names: &Names,
    ) -> Result<(Name, Operand, Operand, Operand, Name, Operands), LineFault>
        ensures ok { IfOk result (λ p. spec.fork names.now self.old ≡ Some p) }
        ensures sound { IfOk result
            (λ p. IsName p.0 × IsOperand names.now p.1 × IsOperand names.now p.2
            × IsOperand names.now p.3 × IsName p.4 × All (IsOperand names.now) p.5) }
        ensures invalid { IfErr result
            (λ fault. fault ≡ LineFault.Invalid → spec.fork names.now self.old ≡ None) }
    {
        let x = self.name(alloc)?;
        let l = self.operand(alloc, names)?;
        let (l, (t, c, p, arguments)) = beside(l, self.spawn(alloc, names))?;
        Ok((x, l, t, c, p, arguments))
    }
}
