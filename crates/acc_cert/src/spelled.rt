//! What is written as a JSON value: numbers, texts, lists, and arrays of so many items.
ghost use Rattle.std.specs.Prelude.{◌≡◌, [], ◌∷◌, ◌++◌, map, IfOk, OnOk};
ghost use Rattle.serde_json.specs.Data.{string};
ghost use Rattle.serde_json.specs.View.{view};
ghost use Rattle.acc_cert.specs.Spelled.{signed, array_of};

use acc_base::sequences::Seq;
use itoa::Buffer;
use serde_json::Value;
use std::alloc::{AllocError, Global};

/// What is written as a JSON value.
pub trait Spelled {
    ghost use Rattle.std.specs.Prelude.{◌≡◌, IfOk};
    ghost use Rattle.serde_json.specs.Data.{Data};
    ghost use Rattle.serde_json.specs.View.{view};

    ghost spelled: { Self → Data };

    fn value(&self, alloc: Global) -> Result<Value, AllocError>
        ensures { IfOk result (λ v. view v ≡ spelled self.now) };
}

fn push<A: Spelled>(alloc: Global, items: &mut Vec<Value>, a: &A) -> Result<(), AllocError>
    ensures { OnOk result (map view items.new.items ≡ map view items.old.items ++ A.spelled a.now ∷ []) }
{
    items.push(a.value(alloc)?)?;
    Ok(())
}

/// An array of one item.
pub fn one<A: Spelled>(alloc: Global, a: &A) -> Result<Value, AllocError>
    ensures { IfOk result (λ v. view v ≡ array_of (A.spelled a.now ∷ [])) }
{
    let mut items = Vec::new(alloc);
    push(alloc, &mut items, a)?;
    Ok(Value::Array(items))
}

/// An array of two items.
pub fn two<A: Spelled, B: Spelled>(alloc: Global, a: &A, b: &B) -> Result<Value, AllocError>
    ensures { IfOk result (λ v. view v ≡ array_of (A.spelled a.now ∷ B.spelled b.now ∷ [])) }
{
    let mut items = Vec::new(alloc);
    push(alloc, &mut items, a)?;
    push(alloc, &mut items, b)?;
    Ok(Value::Array(items))
}

/// An array of three items.
pub fn three<A: Spelled, B: Spelled, C: Spelled>(
    alloc: Global,
    a: &A,
    b: &B,
    c: &C,
) -> Result<Value, AllocError>
    ensures { IfOk result (λ v. view v ≡ array_of (A.spelled a.now ∷ B.spelled b.now ∷ C.spelled c.now ∷ [])) }
{
    let mut items = Vec::new(alloc);
    push(alloc, &mut items, a)?;
    push(alloc, &mut items, b)?;
    push(alloc, &mut items, c)?;
    Ok(Value::Array(items))
}

/// An array of four items.
pub fn four<A: Spelled, B: Spelled, C: Spelled, D: Spelled>(
    alloc: Global,
    a: &A,
    b: &B,
    c: &C,
    d: &D,
) -> Result<Value, AllocError>
    ensures { IfOk result (λ v. view v ≡ array_of (A.spelled a.now ∷ B.spelled b.now ∷ C.spelled c.now ∷ D.spelled d.now ∷ [])) }
{
    let mut items = Vec::new(alloc);
    push(alloc, &mut items, a)?;
    push(alloc, &mut items, b)?;
    push(alloc, &mut items, c)?;
    push(alloc, &mut items, d)?;
    Ok(Value::Array(items))
}

/// A text.
fn text(alloc: Global, text: &str) -> Result<Value, AllocError>
    ensures { IfOk result (λ v. view v ≡ string text.now) }
{
    Ok(Value::String(String::from_str(alloc, text)?))
}

/// A number as a text.
fn signed(alloc: Global, number: i128) -> Result<Value, AllocError>
    ensures { IfOk result (λ v. view v ≡ signed number) }
{
    text(alloc, Buffer::new().format(number))
}

impl Spelled for &str {
    ghost use Rattle.serde_json.specs.Data.{string};

    ghost spelled = { λ s. string s.now };

    fn value(&self, alloc: Global) -> Result<Value, AllocError> {
        text(alloc, *self)
    }
}

impl Spelled for u32 {
    ghost use Rattle.acc_cert.specs.Spelled.{index};

    ghost spelled = { index };

    fn value(&self, _: Global) -> Result<Value, AllocError> {
        Ok(Value::from(*self))
    }
}

impl Spelled for i64 {
    ghost use Rattle.acc_cert.specs.Spelled.{signed};

    ghost spelled = { signed };

    fn value(&self, alloc: Global) -> Result<Value, AllocError> {
        signed(alloc, i128::from(*self))
    }
}

impl Spelled for i128 {
    ghost use Rattle.acc_cert.specs.Spelled.{signed};

    ghost spelled = { signed };

    fn value(&self, alloc: Global) -> Result<Value, AllocError> {
        signed(alloc, *self)
    }
}

impl<A: Spelled, B: Spelled> Spelled for (A, B) {
    ghost use Rattle.acc_cert.specs.Spelled.{pair};

    ghost spelled = { pair A.spelled B.spelled };

    fn value(&self, alloc: Global) -> Result<Value, AllocError> {
        let (a, b) = self;
        two(alloc, a, b)
    }
}

impl<A: Spelled> Spelled for Seq<A> {
    ghost use Rattle.acc_cert.specs.Spelled.{each};

    ghost spelled = { each A.spelled };

    fn value(&self, alloc: Global) -> Result<Value, AllocError> {
        let mut items = Vec::new(alloc);
        for item in self.as_slice() {
            push(alloc, &mut items, item)?;
        }
        Ok(Value::Array(items))
    }
}
