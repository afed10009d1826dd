//! What the reads of a step make true of their variables.
ghost use Rattle.std.specs.Prelude.{◌≡◌, ◌∷◌, [], ◌++◌, IfOk, OnOk};
ghost use Rattle.acc_oblig.specs.Relations.{is_value, is_lin, is_quotient, read_rels};
ghost use Rattle.acc_oblig_assumptions.specs.Quotients.{quotient_low, quotient_high};

use acc_base::forms::{Atom, Form, Lin, Rel};
use acc_base::sequences::Seq;
use acc_base::steps::Read;
use acc_oblig::naming::Naming;
use acc_oblig_named::forms::{add_negated_terms, at_most, is_zero, times, two_terms, variable};
use acc_oblig_named::naming::{named, named_lin, named_lins};
use std::alloc::{AllocError, Global};

/// That a variable is an atom's value.
fn is_value(alloc: Global, x: u32, atom: Atom) -> Result<Rel, AllocError>
    ensures { IfOk result (λ r. r ≡ is_value x atom) }
{
    let variable = variable(alloc, 1, x);
    Ok(is_zero(two_terms(alloc, variable, times(alloc, -1, atom), 0)?))
}

/// Adds that a variable is an atom's value.
fn add_value(alloc: Global, out: &mut Seq<Rel>, x: u32, atom: Atom) -> Result<(), AllocError>
    ensures { OnOk result (out.new ≡ out.old ++ is_value x atom ∷ []) }
{
    out.push(is_value(alloc, x, atom)?)
}

/// That a variable is a linear value.
fn is_lin(alloc: Global, x: u32, l: &Lin) -> Result<Rel, AllocError>
    ensures { IfOk result (λ r. r ≡ is_lin x l.now) }
{
    let mut terms = Seq::new(alloc);
    terms.push(variable(alloc, 1, x))?;
    add_negated_terms(alloc, &mut terms, l.coeffs.as_slice())?;
    Ok(is_zero(Form {
        terms,
        constant: -(l.constant as i128),
    }))
}

/// Adds that a variable is a linear value.
fn add_lin_value(alloc: Global, out: &mut Seq<Rel>, x: u32, l: &Lin) -> Result<(), AllocError>
    ensures { OnOk result (out.new ≡ out.old ++ is_lin x l.now ∷ []) }
{
    out.push(is_lin(alloc, x, l)?)
}

/// That a constant times a variable is at most another variable.
fn quotient_low(alloc: Global, x: u32, y: u32, by: i64) -> Result<Rel, AllocError>
    ensures { IfOk result (λ r. r ≡ quotient_low x y by) }
{
    let product = variable(alloc, by as i128, x);
    let other = variable(alloc, -1, y);
    Ok(at_most(two_terms(alloc, product, other, 0)?))
}

/// That a variable is at most a constant times another and that constant minus 1.
fn quotient_high(alloc: Global, x: u32, y: u32, by: i64) -> Result<Rel, AllocError>
    ensures { IfOk result (λ r. r ≡ quotient_high x y by) }
{
    let less = -(by as i128);
    let other = variable(alloc, 1, y);
    let product = variable(alloc, less, x);
    Ok(at_most(two_terms(alloc, other, product, 1 + less)?))
}

/// Adds that a variable is the quotient of another by a constant, rounded down.
fn add_quotient(
    alloc: Global,
    out: &mut Seq<Rel>,
    x: u32,
    y: u32,
    by: i64,
) -> Result<(), AllocError>
    ensures { OnOk result (out.new ≡ out.old ++ is_quotient x y by) }
{
    out.push(quotient_low(alloc, x, y, by)?)?;
    out.push(quotient_high(alloc, x, y, by)?)
}

/// Adds what a read makes true of its variable.
pub fn add_read_rels(
    alloc: Global,
    out: &mut Seq<Rel>,
    n: &Naming,
    x: u32,
    r: &Read,
) -> Result<(), AllocError>
    ensures { OnOk result (out.new ≡ out.old ++ read_rels n.now x r.now) }
{
    match r {
        Read::Let(_, l) => add_lin_value(alloc, out, x, &named_lin(alloc, n, l)?),
        Read::Col(_, t, k, c) => {
            add_value(alloc, out, x, Atom::Col(*t, named_lins(alloc, n, k)?, *c))
        }
        Read::Has(_, t, k) => add_value(alloc, out, x, Atom::Has(*t, named_lins(alloc, n, k)?)),
        Read::Count(_, t, p) => {
            add_value(alloc, out, x, Atom::Count(*t, named_lins(alloc, n, p)?))
        }
        Read::Sum(_, t, p, c) => {
            add_value(alloc, out, x, Atom::Sum(*t, named_lins(alloc, n, p)?, *c))
        }
        Read::Least(_, _, _) | Read::Greatest(_, _, _) => Ok(()),
        Read::Take(_) | Read::Mul(_, _, _) => Ok(()),
        Read::Div(_, y, by) => add_quotient(alloc, out, x, named(n, *y), *by),
    }
}
