//! What every part of a certificate has in common: lists, and arrays of so many items.
ghost use Rattle.std.specs.Prelude.{◌≡◌, ◌+◌, IfOk, option_map, Some};
ghost use Rattle.serde_json.specs.Find.{at, as_array};
ghost use Rattle.serde_json.specs.View.{view, items_view};
ghost use Rattle.acc_cert_read.specs.Parts.{Good, given, field, ends, one, two, three, items_from, list_of};
ghost use Rattle.acc_cert_read.specs.Causes.{TellsOff};

use crate::errors::{CertError, off, under};
use acc_base::sequences::Seq;
use serde_json::Value;
use std::alloc::Global;

/// What a part of a JSON value can be read as.
pub trait Part: Drop {
    ghost use Rattle.std.specs.Prelude.{IfOk, ◌≡◌};
    ghost use Rattle.serde_json.specs.Data.{Data};
    ghost use Rattle.serde_json.specs.View.{view};
    ghost use Rattle.acc_cert_read.specs.Parts.{Part, Good};
    ghost use Rattle.acc_cert_read.specs.Causes.{TellsOff};

    ghost shape: { Data → Part Self };

    fn read(alloc: Global, value: &Value) -> Result<Self, CertError>
        ensures value { IfOk result (λ x. shape (view value.now) ≡ Good x) }
        ensures off { TellsOff result (shape (view value.now)) };
}

/// The item of an array that has this number.
pub fn item(alloc: Global, value: &Value, place: usize) -> Result<&Value, CertError>
    ensures value { IfOk result (λ v. at place (view value.now) ≡ Some (view v.now)) }
    ensures off { TellsOff result (given (at place (view value.now))) }
{
    match value.get(place) {
        Some(item) => Ok(item),
        None => Err(off(alloc)),
    }
}

/// What the item of an array that has this number is read as.
pub fn field<A: Part>(alloc: Global, value: &Value, place: usize) -> Result<A, CertError>
    ensures value { IfOk result (λ x. field place A.shape (view value.now) ≡ Good x) }
    ensures off { TellsOff result (field place A.shape (view value.now)) }
{
    let item = item(alloc, value, place)?;
    match A::read(alloc, item) {
        Ok(part) => Ok(part),
        Err(cause) => Err(under(place, cause)),
    }
}

/// That an array has no item of this number.
pub fn ends<A: Drop>(alloc: Global, value: &Value, place: usize, part: A) -> Result<A, CertError>
    ensures value { IfOk result (λ x. ends place part (view value.now) ≡ Good x) }
    ensures off { TellsOff result (ends place part (view value.now)) }
{
    match value.get(place) {
        Some(_) => Err(under(place, off(alloc))),
        None => Ok(part),
    }
}

/// One item from this number on, and no others.
pub fn one<A: Part>(alloc: Global, value: &Value, first: u8) -> Result<A, CertError>
    ensures value { IfOk result (λ x. one first A.shape (view value.now) ≡ Good x) }
    ensures off { TellsOff result (one first A.shape (view value.now)) }
{
    let first = usize::from(first);
    let a = field(alloc, value, first)?;
    ends(alloc, value, first + 1, a)
}

/// Two items from this number on, and no others.
pub fn two<A: Part, B: Part>(alloc: Global, value: &Value, first: u8) -> Result<(A, B), CertError>
    ensures value { IfOk result (λ x. two first A.shape B.shape (view value.now) ≡ Good x) }
    ensures off { TellsOff result (two first A.shape B.shape (view value.now)) }
{
    let first = usize::from(first);
    let a = field(alloc, value, first)?;
    let b = field(alloc, value, first + 1)?;
    ends(alloc, value, first + 2, (a, b))
}

/// Three items from this number on, and no others.
pub fn three<A: Part, B: Part, C: Part>(
    alloc: Global,
    value: &Value,
    first: u8,
) -> Result<(A, B, C), CertError>
    ensures value { IfOk result (λ x. three first A.shape B.shape C.shape (view value.now) ≡ Good x) }
    ensures off { TellsOff result (three first A.shape B.shape C.shape (view value.now)) }
{
    let first = usize::from(first);
    let a = field(alloc, value, first)?;
    let b = field(alloc, value, first + 1)?;
    let c = field(alloc, value, first + 2)?;
    ends(alloc, value, first + 3, (a, b, c))
}

/// The items of an array.
fn items(alloc: Global, value: &Value) -> Result<&[Value], CertError>
    ensures value { IfOk result (λ vs. given (as_array (view value.now)) ≡ Good (items_view vs.now)) }
    ensures off { TellsOff result (given (as_array (view value.now))) }
{
    match value.as_array() {
        Some(items) => Ok(items.as_slice()),
        None => Err(off(alloc)),
    }
}

impl<A: Part, B: Part> Part for (A, B) {
    ghost use Rattle.acc_cert_read.specs.Parts.{two};

    ghost shape = { two 0 A.shape B.shape };

    fn read(alloc: Global, value: &Value) -> Result<Self, CertError> {
        two(alloc, value, 0)
    }
}

impl<A: Part, B: Part, C: Part> Part for (A, B, C) {
    ghost use Rattle.acc_cert_read.specs.Parts.{three};

    ghost shape = { three 0 A.shape B.shape C.shape };

    fn read(alloc: Global, value: &Value) -> Result<Self, CertError> {
        three(alloc, value, 0)
    }
}

impl<A: Part> Part for Seq<A> {
    ghost use Rattle.acc_cert_read.specs.Parts.{list_of};

    ghost shape = { list_of A.shape };

    fn read(alloc: Global, value: &Value) -> Result<Self, CertError> {
        let mut list = Seq::new(alloc);
        for (place, item) in items(alloc, value)?.iter().enumerate() {
            match A::read(alloc, item) {
                Ok(part) => list.push(part)?,
                Err(cause) => return Err(under(place, cause)),
            }
        }
        Ok(list)
    }
}
