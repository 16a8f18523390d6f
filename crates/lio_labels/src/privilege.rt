//! Privileges.
ghost use Rattle.std.specs.Prelude.{◌≡◌, ◌≢◌, ◌↔◌, ◌≤◌, length, IfOk, IsOk, IsTrue};

use crate::label::Label;
use lio_clauses::{FormFault, Formula, NoMemory};
use std::alloc::Global;

/// The authority of the sets of principals that satisfy a formula. Source: Disjunction Category
/// Labels, 2011.
#[derive(Debug, Drop)]
pub struct Priv {
    /// True gives no authority, False that of all principals.
    pub power: Formula,
}

impl Priv {
    /// An equal privilege.
    pub fn copy(&self, alloc: Global) -> Result<Priv, NoMemory>
        ensures ok { IfOk result (λ privilege. privilege ≡ self.now) }
        ensures takes_no_memory { length self.now.power ≤ 1 → IsOk result }
    {
        Ok(Priv {
            power: self.power.copy(alloc)?,
        })
    }
}

impl Label {
    ghost use Rattle.lio_labels.specs.IsLabel.{IsWide};
    ghost use Rattle.lio_labels.specs.Privilege.{FlowsWith, downgraded, flows_with};

    /// Whether what has this label may flow to the other with a privilege: the privilege and the
    /// other's secrecy imply this secrecy, and the privilege and this integrity imply the other's.
    /// It takes no memory.
    pub fn flows_with(&self, p: &Priv, to: &Label) -> bool
        ensures test { result ≡ flows_with p.now self.now to.now }
        ensures all_sets { IsTrue result ↔ FlowsWith p.now self.now to.now }
    {
        p.power.implies_with(&to.secrecy, &self.secrecy)
            && p.power.implies_with(&self.integrity, &to.integrity)
    }

    /// The label as a privilege lowers it: its secrecy without the clauses that the privilege
    /// implies, and its integrity with the privilege's own. It is wide where one of its formulas
    /// has more than 64 clauses.
    pub fn downgraded(&self, alloc: Global, p: &Priv) -> Result<Label, FormFault>
        ensures ok { IfOk result (λ label. label ≡ downgraded p.now self.now) }
        ensures wide { result ≢ Err FormFault.NoMemory
            → (result ≡ Err FormFault.Wide) ↔ IsWide (downgraded p.now self.now) }
    {
        let secrecy = self.secrecy.without(alloc, &p.power)?;
        let integrity = self.integrity.and(alloc, &p.power)?;
        Ok(Label { secrecy, integrity })
    }
}
