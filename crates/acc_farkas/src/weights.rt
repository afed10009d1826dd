//! The weighted sum of relations.
ghost use Rattle.std.specs.Prelude.{◌≡◌, ◌++◌, ◌||◌, ◌+ℤ◌, ◌*ℤ◌, slice_get, MatchOption, Some, None, IfOk, OnOk};
ghost use Rattle.acc_base.specs.Bounded.{is_wide};
ghost use Rattle.acc_base.specs.Sums.{TellsWide};
ghost use Rattle.acc_farkas.specs.Sums.{plus_number, plus_term, plus_terms, plus_multiple, plus_relation, weighted, nothing, is_positive};
ghost use Rattle.acc_farkas.specs.Sums.{is_number_wide, is_term_wide, are_terms_wide, is_multiple_wide, is_relation_wide};
ghost use Rattle.acc_farkas.specs.Sums.{is_weighted_wide};

use acc_base::collecting::Sums;
use acc_base::forms::{Form, Rel, Unknown};
use acc_base::numbers::{bounded_product, bounded_sum};
use acc_base::sums::{FormSum, add_multiple};
use std::alloc::Global;
use std::marker::Model;

/// The relation at a place of two lists, the second behind the first.
pub fn relation_at<'a>(first: &'a [Rel], more: &'a [Rel], place: usize) -> Option<&'a Rel>
    ensures { MatchOption result (slice_get (first.now ++ more.now) place ≡ None)
        (λ r. slice_get (first.now ++ more.now) place ≡ Some r.now) }
{
    if place < first.len() {
        first.get(place)
    } else {
        more.get(place - first.len())
    }
}

fn product_of(m: i128, n: i128) -> Result<i128, FormSum>
    ensures value { IfOk result (λ p. p ≡ m *ℤ n) }
    ensures wide { TellsWide result (is_wide (m *ℤ n)) }
{
    bounded_product(m, n).ok_or(FormSum::Wide)
}

fn sum_of(a: i128, b: i128) -> Result<i128, FormSum>
    ensures value { IfOk result (λ n. n ≡ a +ℤ b) }
    ensures wide { TellsWide result (is_wide (a +ℤ b)) }
{
    bounded_sum(a, b).ok_or(FormSum::Wide)
}

/// The constant of a sum with a multiple of a number.
fn with_number(constant: i128, by: i128, n: i128) -> Result<i128, FormSum>
    ensures value { IfOk result (λ c. c ≡ constant +ℤ by *ℤ n) }
    ensures wide { TellsWide result (is_wide (by *ℤ n) || is_wide (constant +ℤ by *ℤ n)) }
{
    let product = product_of(by, n)?;
    sum_of(constant, product)
}

/// A weighted sum of relations: a form whose unknowns are those of the relations. Contracts see it as the form.
#[derive(Drop)]
pub struct Weighing<'a> {
    terms: Sums<'a, Unknown>,
    constant: i128,
}

impl<'a> Model for Weighing<'a> {
    ghost use Rattle.acc_base.specs.declared.forms.Form.{Form};

    ghost Value = { Form };

    ghost view = { λ w. record { terms = w.terms; constant = w.constant } };
}

impl<'a> Weighing<'a> {
    /// Nothing so far.
    pub fn new(alloc: Global) -> Self
        ensures { result ≡ nothing }
    {
        Weighing {
            terms: Sums::new(alloc),
            constant: 0,
        }
    }

    /// Adds a multiple of a number.
    fn add_number(&mut self, by: i128, n: i128) -> Result<(), FormSum>
        ensures value { OnOk result (self.new ≡ plus_number by n self.old) }
        ensures wide { TellsWide result (is_number_wide by n self.old) }
    {
        self.constant = with_number(self.constant, by, n)?;
        Ok(())
    }

    /// Adds a multiple of a term.
    fn add_term(&mut self, by: i128, unknown: &'a Unknown, n: i128) -> Result<(), FormSum>
        ensures value { OnOk result (self.new ≡ plus_term by (unknown.now, n) self.old) }
        ensures wide { TellsWide result (is_term_wide by (unknown.now, n) self.old) }
    {
        if unknown.is_bare_one() {
            self.add_number(by, n)
        } else {
            add_multiple(&mut self.terms, unknown, by, n)
        }
    }

    /// Adds a multiple of terms.
    fn add_terms(&mut self, by: i128, terms: &'a [(Unknown, i128)]) -> Result<(), FormSum>
        ensures value { OnOk result (self.new ≡ plus_terms by terms.now self.old) }
        ensures wide { TellsWide result (are_terms_wide by terms.now self.old) }
    {
        for (unknown, n) in terms {
            self.add_term(by, unknown, *n)?;
        }
        Ok(())
    }

    /// Adds a multiple of a form.
    fn add_form(&mut self, by: i128, form: &'a Form) -> Result<(), FormSum>
        ensures value { OnOk result (self.new ≡ plus_multiple by form.now self.old) }
        ensures wide { TellsWide result (is_multiple_wide by form.now self.old) }
    {
        self.add_terms(by, form.terms.as_slice())?;
        self.add_number(by, form.constant)
    }

    /// Adds a multiple of the relation at a place, where there is one.
    fn add_relation(
        &mut self,
        by: i128,
        first: &'a [Rel],
        more: &'a [Rel],
        place: usize,
    ) -> Result<(), FormSum>
        ensures value { OnOk result (self.new ≡ plus_relation by (slice_get (first.now ++ more.now) place) self.old) }
        ensures wide { TellsWide result (is_relation_wide by (slice_get (first.now ++ more.now) place) self.old) }
    {
        match relation_at(first, more, place) {
            Some(relation) => self.add_form(by, &relation.form),
            None => Ok(()),
        }
    }

    /// Whether no unknown is left, and the constant is positive.
    pub fn is_positive(&self) -> bool
        ensures { result ≡ is_positive self.now }
    {
        !self.terms.any_left() && 0 < self.constant
    }
}

/// The weighted sum of the relations of two lists. With n terms in all the cost is n log n comparisons; nothing is copied.
pub fn weighted<'a>(
    alloc: Global,
    first: &'a [Rel],
    more: &'a [Rel],
    multipliers: &[(u32, i128)],
) -> Result<Weighing<'a>, FormSum>
    ensures value { IfOk result (λ s. s ≡ weighted (first.now ++ more.now) multipliers.now nothing) }
    ensures wide { TellsWide result (is_weighted_wide (first.now ++ more.now) multipliers.now nothing) }
{
    let mut sum = Weighing::new(alloc);
    for (place, by) in multipliers {
        sum.add_relation(*by, first, more, *place as usize)?;
    }
    Ok(sum)
}
