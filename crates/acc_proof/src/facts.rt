//! Facts that are shown: what is known and the fact's contrary have no solution.
ghost use Rattle.std.specs.Prelude.{◌≡◌, ◌++◌, ◌∷◌, [], MatchOption, IfOk, OnOk};
ghost use Rattle.acc_base.specs.Sums.{TellsWide};
ghost use Rattle.acc_proof.specs.Checked.{Gives, Fails};
ghost use Rattle.acc_proof.specs.Facts.{below_zero, is_below_wide, above_zero, is_above_wide, refuted, excluded, shown};
ghost use Rattle.acc_proof.specs.Causes.{TellsTooWide};

use acc_base::forms::{Form, Rel};
use acc_base::sequences::Seq;
use acc_base::sums::FormSum;
use acc_farkas::refuting::{Mults, refutes_both};
use std::alloc::Global;

/// The number 1.
fn one(alloc: Global) -> Form
    ensures { result ≡ Rattle.acc_proof.specs.Facts.one }
{
    Form {
        terms: Seq::new(alloc),
        constant: 1,
    }
}

/// That the form is below 0.
pub fn below_zero(alloc: Global, form: &Form) -> Result<Rel, FormSum>
    ensures value { IfOk result (λ r. r ≡ below_zero form.now) }
    ensures wide { TellsWide result (is_below_wide form.now) }
{
    let form = form.plus(alloc, &one(alloc), 1)?;
    Ok(Rel { form, equal: false })
}

/// That the form is above 0.
pub fn above_zero(alloc: Global, form: &Form) -> Result<Rel, FormSum>
    ensures value { IfOk result (λ r. r ≡ above_zero form.now) }
    ensures wide { TellsWide result (is_above_wide form.now) }
{
    let form = one(alloc).plus(alloc, form, -1)?;
    Ok(Rel { form, equal: false })
}

/// Whether the next multipliers refute the relations of two lists, and the multipliers after them.
pub fn refuted<'a>(
    alloc: Global,
    first: &[Rel],
    more: &[Rel],
    multipliers: &'a [Mults],
) -> Result<Option<&'a [Mults]>, FormSum>
    ensures value { IfOk result (λ o. MatchOption o (refuted (first.now ++ more.now) multipliers.now ≡ Fails)
        (λ rest. refuted (first.now ++ more.now) multipliers.now ≡ Gives rest.now)) }
    ensures wide { TellsTooWide result (refuted (first.now ++ more.now) multipliers.now) }
{
    match multipliers.split_first() {
        Some((m, rest)) => {
            if refutes_both(alloc, first, more, m.of.as_slice())? {
                Ok(Some(rest))
            } else {
                Ok(None)
            }
        }
        None => Ok(None),
    }
}

/// Whether the next multipliers refute what is known and the contrary of a fact, and the multipliers after them.
fn excluded<'a>(
    alloc: Global,
    first: &[Rel],
    more: &mut Vec<Rel>,
    contrary: Rel,
    multipliers: &'a [Mults],
) -> Result<Option<&'a [Mults]>, FormSum>
    ensures value { IfOk result (λ o. MatchOption o (refuted ((first.now ++ more.old.items) ++ contrary ∷ []) multipliers.now ≡ Fails)
        (λ rest. refuted ((first.now ++ more.old.items) ++ contrary ∷ []) multipliers.now ≡ Gives rest.now)) }
    ensures wide { TellsTooWide result (refuted ((first.now ++ more.old.items) ++ contrary ∷ []) multipliers.now) }
    ensures same { OnOk result (more.new.items ≡ more.old.items) }
{
    more.push(contrary)?;
    let rest = refuted(alloc, first, more.as_slice(), multipliers)?;
    more.pop();
    Ok(rest)
}

/// Whether the next multipliers show a relation from what is known, and the multipliers after them.
pub fn shown<'a>(
    alloc: Global,
    first: &[Rel],
    more: &mut Vec<Rel>,
    fact: &Rel,
    multipliers: &'a [Mults],
) -> Result<Option<&'a [Mults]>, FormSum>
    ensures value { IfOk result (λ o. MatchOption o (shown (first.now ++ more.old.items) fact.now multipliers.now ≡ Fails)
        (λ rest. shown (first.now ++ more.old.items) fact.now multipliers.now ≡ Gives rest.now)) }
    ensures wide { TellsTooWide result (shown (first.now ++ more.old.items) fact.now multipliers.now) }
    ensures same { OnOk result (more.new.items ≡ more.old.items) }
{
    let contrary = above_zero(alloc, &fact.form)?;
    let Some(rest) = excluded(alloc, first, more, contrary, multipliers)? else {
        return Ok(None);
    };
    if !fact.equal {
        return Ok(Some(rest));
    }
    let contrary = below_zero(alloc, &fact.form)?;
    excluded(alloc, first, more, contrary, rest)
}
