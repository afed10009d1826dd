//! Forms and relations of an obligation's variables.
ghost use Rattle.std.specs.Prelude.{◌≡◌, [], ◌∷◌, ◌++◌, map, IfOk, OnOk, pos, negsuc, neg_ℤ, ◌+ℤ◌};
ghost use Rattle.acc_base.specs.Forms.{at_most, form, is_zero};
ghost use Rattle.acc_oblig.specs.Relations.{times, variable, coefficient_term, lin_form, negated_term, negated, plus_number};
ghost use Rattle.acc_oblig.specs.Relations.{is_at_most_bound, is_at_least_minus_bound, is_number, is_nothing, value_bounds, number_bounds};
ghost use Rattle.acc_oblig.specs.Relations.{is_less, alone, not_all_none, never};

use acc_base::bounds::LARGEST_NUMBER;
use acc_base::forms::{Atom, Form, Lin, Rel, Unknown};
use acc_base::sequences::Seq;
use std::alloc::{AllocError, Global};

/// A coefficient times an atom without condition.
pub fn times(alloc: Global, n: i128, atom: Atom) -> (Unknown, i128)
    ensures { result ≡ times n atom }
{
    let unknown = Unknown {
        under: Seq::new(alloc),
        atom,
    };
    (unknown, n)
}

/// A coefficient times a variable.
pub fn variable(alloc: Global, n: i128, x: u32) -> (Unknown, i128)
    ensures { result ≡ variable n x }
{
    times(alloc, n, Atom::Var(x))
}

/// A form of one term.
pub fn one_term(alloc: Global, term: (Unknown, i128), constant: i128) -> Result<Form, AllocError>
    ensures { IfOk result (λ f. f ≡ form (term ∷ []) constant) }
{
    let mut terms = Seq::new(alloc);
    terms.push(term)?;
    Ok(Form { terms, constant })
}

/// A form of two terms.
pub fn two_terms(
    alloc: Global,
    first: (Unknown, i128),
    second: (Unknown, i128),
    constant: i128,
) -> Result<Form, AllocError>
    ensures { IfOk result (λ f. f ≡ form (first ∷ second ∷ []) constant) }
{
    let mut terms = Seq::new(alloc);
    terms.push(first)?;
    terms.push(second)?;
    Ok(Form { terms, constant })
}

/// That a form is at most 0.
pub fn at_most(form: Form) -> Rel
    ensures { result ≡ at_most form }
{
    Rel { form, equal: false }
}

/// That a form is 0.
pub fn is_zero(form: Form) -> Rel
    ensures { result ≡ is_zero form }
{
    Rel { form, equal: true }
}

/// That a variable is at most the largest number.
fn is_at_most_bound(alloc: Global, x: u32) -> Result<Rel, AllocError>
    ensures { IfOk result (λ r. r ≡ is_at_most_bound x) }
{
    let x = variable(alloc, 1, x);
    Ok(at_most(one_term(alloc, x, -(LARGEST_NUMBER as i128))?))
}

/// That a variable is at least minus the largest number.
fn is_at_least_minus_bound(alloc: Global, x: u32) -> Result<Rel, AllocError>
    ensures { IfOk result (λ r. r ≡ is_at_least_minus_bound x) }
{
    let x = variable(alloc, -1, x);
    Ok(at_most(one_term(alloc, x, -(LARGEST_NUMBER as i128))?))
}

/// That a variable is at least 1.
fn is_number(alloc: Global, x: u32) -> Result<Rel, AllocError>
    ensures { IfOk result (λ r. r ≡ is_number x) }
{
    let x = variable(alloc, -1, x);
    Ok(at_most(one_term(alloc, x, 1)?))
}

/// That a variable is 0.
pub fn is_nothing(alloc: Global, x: u32) -> Result<Rel, AllocError>
    ensures { IfOk result (λ r. r ≡ is_nothing x) }
{
    let x = variable(alloc, 1, x);
    Ok(is_zero(one_term(alloc, x, 0)?))
}

/// That a variable is less than another.
pub fn is_less(alloc: Global, x: u32, y: u32) -> Result<Rel, AllocError>
    ensures { IfOk result (λ r. r ≡ is_less x y) }
{
    let x = variable(alloc, 1, x);
    let y = variable(alloc, -1, y);
    Ok(at_most(two_terms(alloc, x, y, 1)?))
}

/// Adds that a variable lies within the range.
pub fn add_value_bounds(alloc: Global, out: &mut Seq<Rel>, x: u32) -> Result<(), AllocError>
    ensures { OnOk result (out.new ≡ out.old ++ value_bounds x) }
{
    out.push(is_at_most_bound(alloc, x)?)?;
    out.push(is_at_least_minus_bound(alloc, x)?)
}

/// Adds that a variable is a number of a transaction.
pub fn add_number_bounds(alloc: Global, out: &mut Seq<Rel>, x: u32) -> Result<(), AllocError>
    ensures { OnOk result (out.new ≡ out.old ++ number_bounds x) }
{
    out.push(is_at_most_bound(alloc, x)?)?;
    out.push(is_number(alloc, x)?)
}

/// The term of a coefficient.
fn coefficient_term(alloc: Global, c: &(u32, i64)) -> (Unknown, i128)
    ensures { result ≡ coefficient_term c.now }
{
    variable(alloc, c.1 as i128, c.0)
}

/// The term of a coefficient, times -1.
fn negated_term(alloc: Global, c: &(u32, i64)) -> (Unknown, i128)
    ensures { result ≡ negated_term (coefficient_term c.now) }
{
    variable(alloc, -(c.1 as i128), c.0)
}

/// Adds the terms of coefficients.
fn add_coefficient_terms(
    alloc: Global,
    out: &mut Seq<(Unknown, i128)>,
    coeffs: &[(u32, i64)],
) -> Result<(), AllocError>
    ensures { OnOk result (out.new ≡ out.old ++ map coefficient_term coeffs.now) }
{
    for c in coeffs {
        out.push(coefficient_term(alloc, c))?;
    }
    Ok(())
}

/// Adds the terms of coefficients, each times -1.
pub fn add_negated_terms(
    alloc: Global,
    out: &mut Seq<(Unknown, i128)>,
    coeffs: &[(u32, i64)],
) -> Result<(), AllocError>
    ensures { OnOk result (out.new ≡ out.old ++ map negated_term (map coefficient_term coeffs.now)) }
{
    for c in coeffs {
        out.push(negated_term(alloc, c))?;
    }
    Ok(())
}

/// A linear value as a form.
pub fn lin_form(alloc: Global, l: &Lin) -> Result<Form, AllocError>
    ensures { IfOk result (λ f. f ≡ lin_form l.now) }
{
    let mut terms = Seq::new(alloc);
    add_coefficient_terms(alloc, &mut terms, l.coeffs.as_slice())?;
    Ok(Form {
        terms,
        constant: l.constant as i128,
    })
}

/// A linear value times -1 as a form.
pub fn negated_form(alloc: Global, l: &Lin) -> Result<Form, AllocError>
    ensures { IfOk result (λ f. f ≡ negated (lin_form l.now)) }
{
    let mut terms = Seq::new(alloc);
    add_negated_terms(alloc, &mut terms, l.coeffs.as_slice())?;
    Ok(Form {
        terms,
        constant: -(l.constant as i128),
    })
}

/// A variable as a linear value.
pub fn alone(alloc: Global, x: u32) -> Result<Lin, AllocError>
    ensures { IfOk result (λ l. l ≡ alone x) }
{
    let mut coeffs = Seq::new(alloc);
    coeffs.push((x, 1))?;
    Ok(Lin {
        coeffs,
        constant: 0,
    })
}

/// That linear values aren't all 0.
pub fn not_all_none(alloc: Global, under: Seq<Lin>) -> Result<Rel, AllocError>
    ensures { IfOk result (λ r. r ≡ not_all_none under) }
{
    let unknown = Unknown {
        under,
        atom: Atom::One,
    };
    Ok(is_zero(one_term(alloc, (unknown, 1), 0)?))
}

/// What never holds.
pub fn never(alloc: Global) -> Rel
    ensures { result ≡ never }
{
    at_most(Form {
        terms: Seq::new(alloc),
        constant: 1,
    })
}
