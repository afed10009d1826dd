//! Linear values, unknowns and forms.
use crate::bounded::Bounded;
use acc_base::forms::{Atom, Form, Lin, Unknown};

impl Bounded for Lin {
    ghost use Rattle.std.specs.Prelude.{true};
    ghost use Rattle.acc_cert_bounds.specs.InBounds.{lin};

    ghost in_bounds = { lin };

    ghost near = { λ _. true };

    fn is_in_bounds(&self) -> bool {
        self.coeffs.is_in_bounds() && self.constant.is_in_bounds()
    }
}

impl Bounded for Atom {
    ghost use Rattle.std.specs.Prelude.{true};
    ghost use Rattle.acc_cert_bounds.specs.InBounds.{atom_in};

    ghost in_bounds = { atom_in };

    ghost near = { λ _. true };

    #[tactic(auto, using(crate::proofs::Near::none_wide))]
    fn is_in_bounds(&self) -> bool {
        match self {
            Atom::One => true,
            Atom::Var(x) => x.is_in_bounds(),
            Atom::Has(table, key) | Atom::Count(table, key) => {
                table.is_in_bounds() && key.is_in_bounds()
            }
            Atom::Col(table, key, column) | Atom::Sum(table, key, column) => {
                table.is_in_bounds() && key.is_in_bounds() && column.is_in_bounds()
            }
        }
    }
}

impl Bounded for Unknown {
    ghost use Rattle.std.specs.Prelude.{true};
    ghost use Rattle.acc_cert_bounds.specs.InBounds.{unknown};

    ghost in_bounds = { unknown };

    ghost near = { λ _. true };

    #[tactic(auto, using(crate::proofs::Near::none_wide))]
    fn is_in_bounds(&self) -> bool {
        self.under.is_in_bounds() && self.atom.is_in_bounds()
    }
}

impl Bounded for Form {
    ghost use Rattle.acc_cert_bounds.specs.InBounds.{form_in, form_near};

    ghost in_bounds = { form_in };

    ghost near = { form_near };

    fn is_in_bounds(&self) -> bool {
        self.terms.is_in_bounds() && self.constant.is_in_bounds()
    }
}
