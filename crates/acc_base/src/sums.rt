//! The sum of a form and a multiple of another.
ghost use Rattle.std.specs.Prelude.{◌≡◌, [], map, ◌||◌, IfOk, OnOk, ◌+ℤ◌, ◌*ℤ◌};
ghost use Rattle.std.specs.List.{list_any};
ghost use Rattle.acc_base.specs.declared.sums.FormSum.TheVariants.{Memory as OutOfMemory};
ghost use Rattle.acc_base.specs.Bounded.{is_wide};
ghost use Rattle.acc_base.specs.Sums.{with_term, grown, with_terms, all_grown, multiple, multiples_wide, summands, terms_wide};
ghost use Rattle.acc_base.specs.Sums.{form_sum, is_sum_wide, TellsWide};

use crate::collecting::Sums;
use crate::forms::{Form, Unknown};
use crate::numbers::{bounded_product, bounded_sum};
use std::alloc::{AllocError, AllocFailed, Global};

/// Why a sum of forms isn't given.
#[derive(Clone, Copy)]
pub enum FormSum {
    /// A number of the sum, a product or a sum on the way, is beyond 2^120 on either side of 0.
    Wide,
    /// Memory ran out.
    Memory,
}

impl From<AllocError> for FormSum {
    ghost from_gives = { λ _ e. e ≡ OutOfMemory };

    fn from(_: AllocError) -> Self {
        FormSum::Memory
    }
}

impl<T: Drop> From<AllocFailed<T>> for FormSum {
    ghost from_gives = { λ _ e. e ≡ OutOfMemory };

    fn from(_: AllocFailed<T>) -> Self {
        FormSum::Memory
    }
}

fn sum_of(a: i128, b: i128) -> Result<i128, FormSum>
    ensures value { IfOk result (λ n. n ≡ a +ℤ b) }
    ensures wide { TellsWide result (is_wide (a +ℤ b)) }
{
    bounded_sum(a, b).ok_or(FormSum::Wide)
}

fn product_of(a: i128, b: i128) -> Result<i128, FormSum>
    ensures value { IfOk result (λ n. n ≡ a *ℤ b) }
    ensures wide { TellsWide result (is_wide (a *ℤ b)) }
{
    bounded_product(a, b).ok_or(FormSum::Wide)
}

/// Adds a term to that of its unknown. The cost is log n comparisons.
fn add_term<'a>(sums: &mut Sums<'a, Unknown>, unknown: &'a Unknown, n: i128) -> Result<(), FormSum>
    ensures value { OnOk result (sums.new ≡ with_term (unknown.now, n) sums.old) }
    ensures wide { TellsWide result (is_wide (grown (unknown.now, n) sums.old)) }
{
    let sum = sum_of(sums.of(unknown), n)?;
    sums.put(unknown, sum)?;
    Ok(())
}

/// Adds terms one after the other. The cost is n log n comparisons.
pub fn add_terms<'a>(
    sums: &mut Sums<'a, Unknown>,
    terms: &'a [(Unknown, i128)],
) -> Result<(), FormSum>
    ensures value { OnOk result (sums.new ≡ with_terms sums.old terms.now) }
    ensures wide { TellsWide result (list_any is_wide (all_grown sums.old terms.now)) }
{
    for (unknown, n) in terms {
        add_term(sums, unknown, *n)?;
    }
    Ok(())
}

/// Adds a multiple of a term. The cost is log n comparisons.
pub fn add_multiple<'a>(
    sums: &mut Sums<'a, Unknown>,
    unknown: &'a Unknown,
    by: i128,
    n: i128,
) -> Result<(), FormSum>
    ensures value { OnOk result (sums.new ≡ with_term (unknown.now, by *ℤ n) sums.old) }
    ensures wide { TellsWide result (is_wide (by *ℤ n) || is_wide (grown (unknown.now, by *ℤ n) sums.old)) }
{
    let product = product_of(by, n)?;
    add_term(sums, unknown, product)
}

/// Adds a multiple of terms. The cost is n log n comparisons.
pub fn add_multiples<'a>(
    sums: &mut Sums<'a, Unknown>,
    by: i128,
    terms: &'a [(Unknown, i128)],
) -> Result<(), FormSum>
    ensures value { OnOk result (sums.new ≡ with_terms sums.old (map (multiple by) terms.now)) }
    ensures wide { TellsWide result (multiples_wide by sums.old terms.now) }
{
    for (unknown, n) in terms {
        add_multiple(sums, unknown, by, *n)?;
    }
    Ok(())
}

/// The terms of a form and a multiple of another, collected.
fn collected<'a>(
    alloc: Global,
    form: &'a Form,
    by: i128,
    other: &'a Form,
) -> Result<Sums<'a, Unknown>, FormSum>
    ensures value { IfOk result (λ sums. sums ≡ with_terms [] (summands form.now by other.now)) }
    ensures wide { TellsWide result (terms_wide form.now by other.now) }
{
    let mut sums = Sums::new(alloc);
    add_terms(&mut sums, form.terms.as_slice())?;
    add_multiples(&mut sums, by, other.terms.as_slice())?;
    Ok(sums)
}

/// The constant of the sum.
fn constant_of(form: &Form, by: i128, other: &Form) -> Result<i128, FormSum>
    ensures value { IfOk result (λ n. n ≡ form.now.constant +ℤ by *ℤ other.now.constant) }
    ensures wide { TellsWide result (is_wide (by *ℤ other.now.constant)
        || is_wide (form.now.constant +ℤ by *ℤ other.now.constant)) }
{
    let product = product_of(by, other.constant)?;
    sum_of(form.constant, product)
}

impl Form {
    /// The sum of this form and `by` times the other: one term an unknown, in the order in which the unknowns first appear,
    /// this form's first, and no term that is zero. Any numbers may be given.
    ///
    /// `Wide` exactly where a number of the sum is beyond 2^120 on either side of 0: a product with `by`, a coefficient as
    /// the terms are added one after the other, or the constant. `Memory` where memory ran out; it says nothing of the sum.
    ///
    /// With n terms in both forms the cost is n log n comparisons of unknowns. An unknown that is left is copied once.
    pub fn plus(&self, alloc: Global, other: &Form, by: i128) -> Result<Form, FormSum>
        ensures value { IfOk result (λ s. s ≡ form_sum self.now by other.now) }
        ensures wide { TellsWide result (is_sum_wide self.now by other.now) }
    {
        let constant = constant_of(self, by, other)?;
        let sums = collected(alloc, self, by, other)?;
        Ok(Form {
            terms: sums.kept(alloc)?,
            constant,
        })
    }
}
