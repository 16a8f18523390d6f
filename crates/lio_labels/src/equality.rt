//! Equality of labels and of privileges.
ghost use Rattle.std.specs.Prelude.{◌≡◌, ◌↔◌, IsTrue, nat_eq};
ghost use Rattle.std.specs.Cmp.{nat_eq_equiv, partial_equiv_from_equiv, on_equiv, and_equiv};
ghost use Rattle.std.specs.Cmp.Lexicographic.{lists_equiv};
ghost use Rattle.lio_labels.specs.Equality.{same_label, same_privilege};

use crate::label::Label;
use crate::privilege::Priv;

impl PartialEq for Label {
    ghost eq = { same_label };

    ghost laws = { partial_equiv_from_equiv (and_equiv (on_equiv
        (λ l. l.secrecy) (lists_equiv (lists_equiv nat_eq_equiv))) (on_equiv
        (λ l. l.integrity) (lists_equiv (lists_equiv nat_eq_equiv)))) };

    fn eq(&self, other: &Label) -> bool
        ensures test { result ≡ same_label self.now other.now }
        ensures same { IsTrue result ↔ (self.now ≡ other.now) }
    {
        self.secrecy == other.secrecy && self.integrity == other.integrity
    }
}

impl Eq for Label {
    ghost laws = { and_equiv (on_equiv (λ l. l.secrecy) (lists_equiv (lists_equiv nat_eq_equiv)))
        (on_equiv (λ l. l.integrity) (lists_equiv (lists_equiv nat_eq_equiv))) };
}

impl PartialEq for Priv {
    ghost eq = { same_privilege };

    ghost laws = { partial_equiv_from_equiv (on_equiv
        (λ p. p.power) (lists_equiv (lists_equiv nat_eq_equiv))) };

    fn eq(&self, other: &Priv) -> bool
        ensures test { result ≡ same_privilege self.now other.now }
        ensures same { IsTrue result ↔ (self.now ≡ other.now) }
    {
        self.power == other.power
    }
}

impl Eq for Priv {
    ghost laws = { on_equiv (λ p. p.power) (lists_equiv (lists_equiv nat_eq_equiv)) };
}
