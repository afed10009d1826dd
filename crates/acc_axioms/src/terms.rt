//! Forms that axioms are made of.
ghost use Rattle.std.specs.Prelude.{◌≡◌, ◌++◌, ◌∷◌, [], map, IfOk, OnOk};
ghost use Rattle.acc_base.specs.Forms.{form, at_most, is_zero};
ghost use Rattle.acc_axioms.specs.Axioms.{plain, less, less_atom, variable_term, minus_variable, lin_form, lin_above, lin_below};
ghost use Rattle.acc_axioms.specs.Axioms.{lin_difference, differences};

use acc_base::forms::{Atom, Form, Lin, Rel, Unknown};
use acc_base::sequences::{Seq, copied};
use std::alloc::{AllocError, Global};

/// An atom that stands under nothing.
pub fn plain(alloc: Global, atom: Atom) -> Unknown
    ensures { result ≡ plain atom }
{
    Unknown {
        under: Seq::new(alloc),
        atom,
    }
}

/// That a form is at most 0.
pub fn at_most(form: Form) -> Rel
    ensures { result ≡ at_most form }
{
    Rel { form, equal: false }
}

/// That a form is 0.
pub fn is_zero(form: Form) -> Rel
    ensures { result ≡ is_zero form }
{
    Rel { form, equal: true }
}

/// A list of one relation.
pub fn single(alloc: Global, relation: Rel) -> Result<Seq<Rel>, AllocError>
    ensures { IfOk result (λ s. s ≡ relation ∷ []) }
{
    let mut list = Seq::new(alloc);
    list.push(relation)?;
    Ok(list)
}

/// So often an unknown, and a constant.
pub fn one_term(
    alloc: Global,
    unknown: Unknown,
    n: i128,
    constant: i128,
) -> Result<Form, AllocError>
    ensures { IfOk result (λ f. f ≡ form ((unknown, n) ∷ []) constant) }
{
    let mut terms = Seq::new(alloc);
    terms.push((unknown, n))?;
    Ok(Form { terms, constant })
}

/// An unknown less another.
pub fn less(alloc: Global, u: Unknown, v: Unknown) -> Result<Form, AllocError>
    ensures { IfOk result (λ f. f ≡ less u v) }
{
    let mut terms = Seq::new(alloc);
    terms.push((u, 1))?;
    terms.push((v, -1))?;
    Ok(Form { terms, constant: 0 })
}

/// An unknown less an atom; the atom 1 is the number.
pub fn less_atom(alloc: Global, u: Unknown, atom: &Atom) -> Result<Form, AllocError>
    ensures { IfOk result (λ f. f ≡ less_atom u atom.now) }
{
    match atom {
        Atom::One => one_term(alloc, u, 1, -1),
        Atom::Var(_)
        | Atom::Has(_, _)
        | Atom::Col(_, _, _)
        | Atom::Count(_, _)
        | Atom::Sum(_, _, _) => { less(alloc, u, plain(alloc, copied(atom)?)) }
    }
}

/// A variable's term.
fn variable_term(alloc: Global, term: &(u32, i64)) -> (Unknown, i128)
    ensures { result ≡ variable_term term.now }
{
    (plain(alloc, Atom::Var(term.0)), i128::from(term.1))
}

/// A variable's term, taken away.
fn minus_variable(alloc: Global, term: &(u32, i64)) -> (Unknown, i128)
    ensures { result ≡ minus_variable term.now }
{
    (plain(alloc, Atom::Var(term.0)), -i128::from(term.1))
}

/// Adds the variables of a linear value.
fn add_variables(
    alloc: Global,
    terms: &mut Seq<(Unknown, i128)>,
    coeffs: &[(u32, i64)],
) -> Result<(), AllocError>
    ensures { OnOk result (terms.new ≡ terms.old ++ map variable_term coeffs.now) }
{
    for coefficient in coeffs {
        terms.push(variable_term(alloc, coefficient))?;
    }
    Ok(())
}

/// Adds the variables of a linear value, taken away.
fn take_variables(
    alloc: Global,
    terms: &mut Seq<(Unknown, i128)>,
    coeffs: &[(u32, i64)],
) -> Result<(), AllocError>
    ensures { OnOk result (terms.new ≡ terms.old ++ map minus_variable coeffs.now) }
{
    for coefficient in coeffs {
        terms.push(minus_variable(alloc, coefficient))?;
    }
    Ok(())
}

/// A linear value as a form.
pub fn lin_form(alloc: Global, l: &Lin) -> Result<Form, AllocError>
    ensures { IfOk result (λ f. f ≡ lin_form l.now) }
{
    let mut terms = Seq::new(alloc);
    add_variables(alloc, &mut terms, l.coeffs.as_slice())?;
    Ok(Form {
        terms,
        constant: i128::from(l.constant),
    })
}

/// A linear value and 1.
pub fn lin_above(alloc: Global, l: &Lin) -> Result<Form, AllocError>
    ensures { IfOk result (λ f. f ≡ lin_above l.now) }
{
    let mut terms = Seq::new(alloc);
    add_variables(alloc, &mut terms, l.coeffs.as_slice())?;
    Ok(Form {
        terms,
        constant: i128::from(l.constant) + 1,
    })
}

/// 1 less a linear value.
pub fn lin_below(alloc: Global, l: &Lin) -> Result<Form, AllocError>
    ensures { IfOk result (λ f. f ≡ lin_below l.now) }
{
    let mut terms = Seq::new(alloc);
    take_variables(alloc, &mut terms, l.coeffs.as_slice())?;
    Ok(Form {
        terms,
        constant: 1 - i128::from(l.constant),
    })
}

/// A linear value less another.
fn lin_difference(alloc: Global, a: &Lin, b: &Lin) -> Result<Form, AllocError>
    ensures { IfOk result (λ f. f ≡ lin_difference a.now b.now) }
{
    let mut terms = Seq::new(alloc);
    add_variables(alloc, &mut terms, a.coeffs.as_slice())?;
    take_variables(alloc, &mut terms, b.coeffs.as_slice())?;
    Ok(Form {
        terms,
        constant: i128::from(a.constant) - i128::from(b.constant),
    })
}

/// That the parts of two keys are equal, as far as both go.
fn add_differences(
    alloc: Global,
    rels: &mut Seq<Rel>,
    a: &[Lin],
    b: &[Lin],
) -> Result<(), AllocError>
    ensures { OnOk result (rels.new ≡ rels.old ++ differences a.now b.now) }
{
    match a {
        [] => Ok(()),
        [x, xs @ ..] => match b {
            [] => Ok(()),
            [y, ys @ ..] => {
                rels.push(is_zero(lin_difference(alloc, x, y)?))?;
                add_differences(alloc, rels, xs, ys)
            }
        },
    }
}

/// That the parts of two keys are equal, as far as both go.
pub fn differences(alloc: Global, a: &[Lin], b: &[Lin]) -> Result<Seq<Rel>, AllocError>
    ensures { IfOk result (λ rels. rels ≡ differences a.now b.now) }
{
    let mut rels = Seq::new(alloc);
    add_differences(alloc, &mut rels, a, b)?;
    Ok(rels)
}

/// That linear values are 0.
pub fn all_zero(alloc: Global, ls: &[Lin]) -> Result<Seq<Rel>, AllocError>
    ensures { IfOk result (λ rels. rels ≡ map (λ l. is_zero (lin_form l)) ls.now) }
{
    let mut rels = Seq::new(alloc);
    for l in ls {
        rels.push(is_zero(lin_form(alloc, l)?))?;
    }
    Ok(rels)
}
