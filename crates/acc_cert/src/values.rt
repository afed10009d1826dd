//! Linear values, unknowns and forms as they are written.
use crate::spelled::{Spelled, four, one, three, two};
use acc_base::forms::{Atom, Form, Lin, Unknown};
use serde_json::Value;
use std::alloc::{AllocError, Global};

impl Spelled for Lin {
    ghost use Rattle.acc_cert.specs.Spelled.{lin};

    ghost spelled = { lin };

    fn value(&self, alloc: Global) -> Result<Value, AllocError> {
        two(alloc, &self.coeffs, &self.constant)
    }
}

impl Spelled for Atom {
    ghost use Rattle.acc_cert.specs.Spelled.{atom_data};

    ghost spelled = { atom_data };

    fn value(&self, alloc: Global) -> Result<Value, AllocError> {
        match self {
            Atom::One => one(alloc, &"one"),
            Atom::Var(x) => two(alloc, &"var", x),
            Atom::Has(table, key) => three(alloc, &"has", table, key),
            Atom::Col(table, key, column) => four(alloc, &"col", table, key, column),
            Atom::Count(table, prefix) => three(alloc, &"count", table, prefix),
            Atom::Sum(table, prefix, column) => four(alloc, &"sum", table, prefix, column),
        }
    }
}

impl Spelled for Unknown {
    ghost use Rattle.acc_cert.specs.Spelled.{unknown};

    ghost spelled = { unknown };

    fn value(&self, alloc: Global) -> Result<Value, AllocError> {
        two(alloc, &self.under, &self.atom)
    }
}

impl Spelled for Form {
    ghost use Rattle.acc_cert.specs.Spelled.{form_data};

    ghost spelled = { form_data };

    fn value(&self, alloc: Global) -> Result<Value, AllocError> {
        two(alloc, &self.terms, &self.constant)
    }
}
