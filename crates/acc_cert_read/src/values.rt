//! Numbers, linear values, unknowns and forms.
ghost use Rattle.std.specs.Prelude.{◌≡◌, IfOk};
ghost use Rattle.serde_json.specs.View.{view};
ghost use Rattle.acc_cert_read.specs.Parts.{Good, field};
ghost use Rattle.acc_cert_read.specs.Causes.{TellsOff};
ghost use Rattle.acc_cert_read.specs.Forms.{word_of, atom_rest};

use crate::errors::{CertError, off, under};
use crate::numbers;
use crate::parts::{Part, ends, item, one, three, two};
use crate::words::atom_word;
use acc_base::atoms::AtomKind;
use acc_base::forms::{Atom, Form, Lin, Unknown};
use serde_json::Value;
use std::alloc::Global;

impl Part for u32 {
    ghost use Rattle.acc_cert_read.specs.Forms.{index_of};

    ghost shape = { index_of };

    fn read(alloc: Global, value: &Value) -> Result<Self, CertError> {
        match value.as_u64().and_then(numbers::index) {
            Some(number) => Ok(number),
            None => Err(off(alloc)),
        }
    }
}

impl Part for i64 {
    ghost use Rattle.acc_cert_read.specs.Forms.{narrow_of};

    ghost shape = { narrow_of };

    fn read(alloc: Global, value: &Value) -> Result<Self, CertError> {
        match value.as_str().and_then(numbers::narrow) {
            Some(number) => Ok(number),
            None => Err(off(alloc)),
        }
    }
}

impl Part for i128 {
    ghost use Rattle.acc_cert_read.specs.Forms.{wide_of};

    ghost shape = { wide_of };

    fn read(alloc: Global, value: &Value) -> Result<Self, CertError> {
        match value.as_str().and_then(numbers::wide) {
            Some(number) => Ok(number),
            None => Err(off(alloc)),
        }
    }
}

impl Part for Lin {
    ghost use Rattle.acc_cert_read.specs.Forms.{lin_of};

    ghost shape = { lin_of };

    fn read(alloc: Global, value: &Value) -> Result<Self, CertError> {
        let (coeffs, constant) = two(alloc, value, 0)?;
        Ok(Lin { coeffs, constant })
    }
}

/// The word that an array begins with.
pub fn word(alloc: Global, value: &Value) -> Result<&str, CertError>
    ensures value { IfOk result (λ w. field 0 word_of (view value.now) ≡ Good w.now) }
    ensures off { TellsOff result (field 0 word_of (view value.now)) }
{
    match item(alloc, value, 0)?.as_str() {
        Some(word) => Ok(word),
        None => Err(under(0, off(alloc))),
    }
}

/// What stands behind the word of an atom.
fn atom_behind(alloc: Global, value: &Value, kind: Option<AtomKind>) -> Result<Atom, CertError>
    ensures value { IfOk result (λ a. atom_rest kind (view value.now) ≡ Good a) }
    ensures off { TellsOff result (atom_rest kind (view value.now)) }
{
    match kind {
        Some(AtomKind::One) => ends(alloc, value, 1, Atom::One),
        Some(AtomKind::Var) => Ok(Atom::Var(one(alloc, value, 1)?)),
        Some(AtomKind::Has) => {
            let (table, key) = two(alloc, value, 1)?;
            Ok(Atom::Has(table, key))
        }
        Some(AtomKind::Col) => {
            let (table, key, column) = three(alloc, value, 1)?;
            Ok(Atom::Col(table, key, column))
        }
        Some(AtomKind::Count) => {
            let (table, prefix) = two(alloc, value, 1)?;
            Ok(Atom::Count(table, prefix))
        }
        Some(AtomKind::Sum) => {
            let (table, prefix, column) = three(alloc, value, 1)?;
            Ok(Atom::Sum(table, prefix, column))
        }
        None => Err(under(0, off(alloc))),
    }
}

impl Part for Atom {
    ghost use Rattle.acc_cert_read.specs.Forms.{atom_of};

    ghost shape = { atom_of };

    fn read(alloc: Global, value: &Value) -> Result<Self, CertError> {
        let word = word(alloc, value)?;
        atom_behind(alloc, value, atom_word(word))
    }
}

impl Part for Unknown {
    ghost use Rattle.acc_cert_read.specs.Forms.{unknown_of};

    ghost shape = { unknown_of };

    fn read(alloc: Global, value: &Value) -> Result<Self, CertError> {
        let (under, atom) = two(alloc, value, 0)?;
        Ok(Unknown { under, atom })
    }
}

impl Part for Form {
    ghost use Rattle.acc_cert_read.specs.Forms.{form_of};

    ghost shape = { form_of };

    fn read(alloc: Global, value: &Value) -> Result<Self, CertError> {
        let (terms, constant) = two(alloc, value, 0)?;
        Ok(Form { terms, constant })
    }
}
