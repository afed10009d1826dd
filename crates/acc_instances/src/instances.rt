//! Relations at linear values: these stand for the own variables, which come behind the first n.
ghost use Rattle.std.specs.Prelude.{◌≡◌, [], MatchOption, Some, None, IfOk, OnOk};
ghost use Rattle.acc_base.specs.Sums.{TellsWide};
ghost use Rattle.acc_instanced.specs.Summands.{lin_parts, with_summand, with_summands, is_summand_wide};
ghost use Rattle.acc_instanced.specs.Instances.{atom_at, is_atom_long, value_of, term_at, raw_at, is_term_wide, are_terms_wide};
ghost use Rattle.acc_instanced.specs.Instances.{form_at, is_form_wide, fact_at};
ghost use Rattle.acc_instanced.specs.Meanings.{IsInstance};

use crate::summands::{add_lin, add_parts, add_summand};
use crate::values::{lins_at, value_for};
use acc_base::forms::{Atom, Form, Lin, Rel, Unknown};
use acc_base::numbers::bounded;
use acc_base::sequences::Seq;
use acc_base::sums::FormSum;
use std::alloc::{AllocError, Global};

/// An atom at linear values; an own variable stays as it is.
fn atom_at(alloc: Global, n: u32, own: &[Lin], atom: &Atom) -> Result<Atom, FormSum>
    ensures value { IfOk result (λ a. a ≡ atom_at n own.now atom.now) }
    ensures wide { TellsWide result (is_atom_long n own.now atom.now) }
{
    let key = lins_at(alloc, n, own, atom.key())?;
    Ok(atom.with_key(key))
}

/// What stands for an atom, if it is an own variable.
fn value_of<'a>(n: u32, own: &'a [Lin], atom: &Atom) -> Option<&'a Lin>
    ensures { MatchOption result (value_of n own.now atom.now ≡ None) (λ l. value_of n own.now atom.now ≡ Some l.now) }
{
    match atom {
        Atom::Var(x) => value_for(n, own, *x),
        Atom::One | Atom::Has(_, _) | Atom::Col(_, _, _) => None,
        Atom::Count(_, _) | Atom::Sum(_, _, _) => None,
    }
}

/// Adds a summand whose number is bounded.
fn add_bounded(gained: &mut Form, unknown: Unknown, m: i128) -> Result<(), FormSum>
    ensures value { OnOk result (gained.new ≡ with_summand (unknown, m) gained.old) }
    ensures wide { TellsWide result (is_summand_wide (unknown, m) gained.old) }
{
    let m = bounded(m).ok_or(FormSum::Wide)?;
    add_summand(gained, unknown, m)
}

/// The parts of a linear value.
fn parts_of(alloc: Global, l: &Lin) -> Result<Vec<(Atom, i64)>, AllocError>
    ensures { IfOk result (λ v. v.items ≡ lin_parts l.now) }
{
    let mut parts = Vec::new(alloc);
    add_lin(&mut parts, l)?;
    Ok(parts)
}

/// Adds a term at linear values.
fn add_term_at(
    alloc: Global,
    gained: &mut Form,
    n: u32,
    own: &[Lin],
    unknown: &Unknown,
    m: i128,
) -> Result<(), FormSum>
    ensures value { OnOk result (gained.new ≡ with_summands (term_at n own.now (unknown.now, m)) gained.old) }
    ensures wide { TellsWide result (is_term_wide n own.now (unknown.now, m) gained.old) }
{
    let under = lins_at(alloc, n, own, unknown.under.as_slice())?;
    let atom = atom_at(alloc, n, own, &unknown.atom)?;
    match value_of(n, own, &unknown.atom) {
        Some(l) => {
            let parts = parts_of(alloc, l)?;
            add_parts(gained, &under, m, parts.as_slice())
        }
        None => add_bounded(gained, Unknown { under, atom }, m),
    }
}

/// A form at linear values, before its terms are collected.
fn raw_at(alloc: Global, n: u32, own: &[Lin], form: &Form) -> Result<Form, FormSum>
    ensures value { IfOk result (λ g. g ≡ raw_at n own.now form.now) }
    ensures wide { TellsWide result (are_terms_wide n own.now form.now.terms (record { terms = []; constant = form.now.constant })) }
{
    let mut gained = Form {
        terms: Seq::new(alloc),
        constant: form.constant,
    };
    for (unknown, m) in form.terms.as_slice() {
        add_term_at(alloc, &mut gained, n, own, unknown, *m)?;
    }
    Ok(gained)
}

/// A form at linear values.
fn form_at(alloc: Global, n: u32, own: &[Lin], form: &Form) -> Result<Form, FormSum>
    ensures value { IfOk result (λ f. f ≡ form_at n own.now form.now) }
    ensures wide { TellsWide result (is_form_wide n own.now form.now) }
{
    let raw = raw_at(alloc, n, own, form)?;
    let none = Form {
        terms: Seq::new(alloc),
        constant: 0,
    };
    none.plus(alloc, &raw, 1)
}

/// A relation at linear values.
fn relation_of(alloc: Global, n: u32, own: &[Lin], relation: &Rel) -> Result<Rel, FormSum>
    ensures value { IfOk result (λ r. r ≡ (fact_at n own.now relation.now).rel) }
    ensures wide { TellsWide result (fact_at n own.now relation.now).wide }
{
    let form = form_at(alloc, n, own, &relation.form)?;
    Ok(Rel {
        form,
        equal: relation.equal,
    })
}

/// An instance: a relation of a hypothesis at linear values, which stand for the hypothesis's own variables; these come behind
/// the first n. It means for all rows and numbers of the first n variables what the relation means where the own variables
/// have the numbers that the values are worth.
///
/// `Wide` exactly where a number on the way is too large: a product, a coefficient or a constant of a linear value beyond 64
/// bits, or another number beyond 2^120 on either side of 0. `Memory` where memory ran out.
pub fn relation_at(alloc: Global, n: u32, own: &[Lin], relation: &Rel) -> Result<Rel, FormSum>
    ensures value { IfOk result (λ r. r ≡ (fact_at n own.now relation.now).rel) }
    ensures wide { TellsWide result (fact_at n own.now relation.now).wide }
    ensures law { IfOk result (λ r. IsInstance n own.now relation.now r) }
{
    relation_of(alloc, n, own, relation)
}
