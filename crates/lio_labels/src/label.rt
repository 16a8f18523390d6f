//! Labels.
ghost use Rattle.std.specs.Prelude.{◌≡◌, ◌≢◌, ◌↔◌, ◌≤◌, length, IfOk, IsOk, IsTrue};

use lio_clauses::{FormFault, Formula, NoMemory};
use std::alloc::Global;

/// Who may learn a value (secrecy), and who vouches for it (integrity).
/// Source: Disjunction Category Labels, 2011.
#[derive(Debug, Drop)]
pub struct Label {
    /// What the sets of principals satisfy that may learn the value.
    pub secrecy: Formula,
    /// What the sets of principals satisfy that vouch for the value.
    pub integrity: Formula,
}

impl Label {
    ghost use Rattle.lio_labels.specs.Flow.{Flows, flows};
    ghost use Rattle.lio_labels.specs.Bounds.{join, meet};
    ghost use Rattle.lio_labels.specs.Extremes.{least, greatest, public};
    ghost use Rattle.lio_labels.specs.IsLabel.{IsWide};

    /// Whether what has this label may flow to the other: the other's secrecy implies this secrecy,
    /// and this integrity implies the other's. It takes no memory.
    #[inline(always)]
    pub fn flows(&self, to: &Label) -> bool
        ensures test { result ≡ flows self.now to.now }
        ensures all_sets { IsTrue result ↔ Flows self.now to.now }
    {
        to.secrecy.implies(&self.secrecy) && self.integrity.implies(&to.integrity)
    }

    /// The least label that both flow to. It is wide where one of its formulas has more than 64
    /// clauses.
    pub fn join(&self, alloc: Global, other: &Label) -> Result<Label, FormFault>
        ensures ok { IfOk result (λ label. label ≡ join self.now other.now) }
        ensures wide { result ≢ Err FormFault.NoMemory
            → (result ≡ Err FormFault.Wide) ↔ IsWide (join self.now other.now) }
    {
        let secrecy = self.secrecy.and(alloc, &other.secrecy)?;
        let integrity = self.integrity.or(alloc, &other.integrity)?;
        Ok(Label { secrecy, integrity })
    }

    /// The greatest label that flows to both. It is wide where one of its formulas has more than 64
    /// clauses.
    pub fn meet(&self, alloc: Global, other: &Label) -> Result<Label, FormFault>
        ensures ok { IfOk result (λ label. label ≡ meet self.now other.now) }
        ensures wide { result ≢ Err FormFault.NoMemory
            → (result ≡ Err FormFault.Wide) ↔ IsWide (meet self.now other.now) }
    {
        let secrecy = self.secrecy.or(alloc, &other.secrecy)?;
        let integrity = self.integrity.and(alloc, &other.integrity)?;
        Ok(Label { secrecy, integrity })
    }

    /// The label that flows to each label: secrecy True, integrity False.
    pub fn least(alloc: Global) -> Result<Label, NoMemory>
        ensures ok { IfOk result (λ label. label ≡ least) }
        ensures takes_no_memory { IsOk result }
    {
        Ok(Label {
            secrecy: Formula::truth(alloc),
            integrity: Formula::falsity(alloc)?,
        })
    }

    /// The label that each label flows to: secrecy False, integrity True.
    pub fn greatest(alloc: Global) -> Result<Label, NoMemory>
        ensures ok { IfOk result (λ label. label ≡ greatest) }
        ensures takes_no_memory { IsOk result }
    {
        Ok(Label {
            secrecy: Formula::falsity(alloc)?,
            integrity: Formula::truth(alloc),
        })
    }

    /// The label of what everyone may learn and nobody vouches for: secrecy True, integrity True.
    pub fn public(alloc: Global) -> Result<Label, NoMemory>
        ensures ok { IfOk result (λ label. label ≡ public) }
        ensures takes_no_memory { IsOk result }
    {
        Ok(Label {
            secrecy: Formula::truth(alloc),
            integrity: Formula::truth(alloc),
        })
    }

    /// An equal label.
    #[inline(always)]
    pub fn copy(&self, alloc: Global) -> Result<Label, NoMemory>
        ensures ok { IfOk result (λ label. label ≡ self.now) }
        ensures takes_no_memory { length self.now.secrecy ≤ 1
            → length self.now.integrity ≤ 1 → IsOk result }
    {
        let secrecy = self.secrecy.copy(alloc)?;
        let integrity = self.integrity.copy(alloc)?;
        Ok(Label { secrecy, integrity })
    }
}
