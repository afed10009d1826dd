//! Values under the names that their variables have in an obligation.
ghost use Rattle.std.specs.Prelude.{◌+◌, ◌^◌, ◌<◌, length, ◌≡◌, ◌++◌, map, IfOk, OnOk};
ghost use Rattle.acc_base.specs.Items.{numbers_from};
ghost use Rattle.acc_oblig.specs.Naming.{own_naming, named_clause, own_clause, named, named_coeff, named_lin, named_lins};
ghost use Rattle.acc_oblig.specs.Naming.{named_atom, named_unknown, named_term, named_form, named_rel, named_action};

use acc_base::forms::{Atom, Clause, Form, Lin, Rel, Unknown};
use acc_base::sequences::{Seq, copied};
use acc_base::steps::Action;
use acc_oblig::naming::Naming;
use std::alloc::{AllocError, Global};

/// The name of a variable.
pub fn named(n: &Naming, v: u32) -> u32
    ensures { result ≡ named n.now v }
{
    match n.names.as_slice().get(v as usize) {
        Some(x) => *x,
        None => n.past,
    }
}

/// Adds coefficients under their names.
fn add_coefficients(
    out: &mut Seq<(u32, i64)>,
    n: &Naming,
    coeffs: &[(u32, i64)],
) -> Result<(), AllocError>
    ensures { OnOk result (out.new ≡ out.old ++ map (named_coeff n.now) coeffs.now) }
{
    for c in coeffs {
        out.push((named(n, c.0), c.1))?;
    }
    Ok(())
}

/// A linear value under its names.
pub fn named_lin(alloc: Global, n: &Naming, l: &Lin) -> Result<Lin, AllocError>
    ensures { IfOk result (λ m. m ≡ named_lin n.now l.now) }
{
    let mut coeffs = Seq::new(alloc);
    add_coefficients(&mut coeffs, n, l.coeffs.as_slice())?;
    Ok(Lin {
        coeffs,
        constant: l.constant,
    })
}

/// Adds linear values under their names.
fn add_lins(alloc: Global, out: &mut Seq<Lin>, n: &Naming, ls: &[Lin]) -> Result<(), AllocError>
    ensures { OnOk result (out.new ≡ out.old ++ named_lins n.now ls.now) }
{
    for l in ls {
        out.push(named_lin(alloc, n, l)?)?;
    }
    Ok(())
}

/// Linear values under their names.
pub fn named_lins(alloc: Global, n: &Naming, ls: &Seq<Lin>) -> Result<Seq<Lin>, AllocError>
    ensures { IfOk result (λ ms. ms ≡ named_lins n.now ls.now) }
{
    let mut out = Seq::new(alloc);
    add_lins(alloc, &mut out, n, ls.as_slice())?;
    Ok(out)
}

/// An atom under its names.
pub fn named_atom(alloc: Global, n: &Naming, a: &Atom) -> Result<Atom, AllocError>
    ensures { IfOk result (λ b. b ≡ named_atom n.now a.now) }
{
    match a {
        Atom::One => Ok(Atom::One),
        Atom::Var(x) => Ok(Atom::Var(named(n, *x))),
        Atom::Has(t, k) => Ok(Atom::Has(*t, named_lins(alloc, n, k)?)),
        Atom::Col(t, k, c) => Ok(Atom::Col(*t, named_lins(alloc, n, k)?, *c)),
        Atom::Count(t, p) => Ok(Atom::Count(*t, named_lins(alloc, n, p)?)),
        Atom::Sum(t, p, c) => Ok(Atom::Sum(*t, named_lins(alloc, n, p)?, *c)),
    }
}

/// A term under its names.
fn named_term(alloc: Global, n: &Naming, t: &(Unknown, i128)) -> Result<(Unknown, i128), AllocError>
    ensures { IfOk result (λ u. u ≡ named_term n.now t.now) }
{
    let unknown = Unknown {
        under: named_lins(alloc, n, &t.0.under)?,
        atom: named_atom(alloc, n, &t.0.atom)?,
    };
    Ok((unknown, t.1))
}

/// Adds terms under their names.
fn add_terms(
    alloc: Global,
    out: &mut Seq<(Unknown, i128)>,
    n: &Naming,
    ts: &[(Unknown, i128)],
) -> Result<(), AllocError>
    ensures { OnOk result (out.new ≡ out.old ++ map (named_term n.now) ts.now) }
{
    for t in ts {
        out.push(named_term(alloc, n, t)?)?;
    }
    Ok(())
}

/// A relation under its names.
pub fn named_rel(alloc: Global, n: &Naming, r: &Rel) -> Result<Rel, AllocError>
    ensures { IfOk result (λ s. s ≡ named_rel n.now r.now) }
{
    let mut terms = Seq::new(alloc);
    add_terms(alloc, &mut terms, n, r.form.terms.as_slice())?;
    Ok(Rel {
        form: Form {
            terms,
            constant: r.form.constant,
        },
        equal: r.equal,
    })
}

/// Adds so many variables, from one on.
pub fn add_numbers_from(out: &mut Seq<u32>, own: u32, k: u32) -> Result<(), AllocError>
    requires { own + k < 2 ^ 32 }
    ensures { OnOk result (out.new ≡ out.old ++ numbers_from own k) }
{
    for i in 0..k {
        out.push(own + i)?;
    }
    Ok(())
}

/// Names, and behind them so many variables from `own` on.
pub fn own_naming(names: &Seq<u32>, own: u32, k: u32) -> Result<Naming, AllocError>
    requires { own + k < 2 ^ 32 }
    ensures { IfOk result (λ n. n ≡ own_naming names.now own k) }
{
    let mut names = copied(names)?;
    add_numbers_from(&mut names, own, k)?;
    Ok(Naming {
        names,
        past: own + k,
    })
}

/// Adds relations under their names.
fn add_rels(alloc: Global, out: &mut Seq<Rel>, n: &Naming, rs: &[Rel]) -> Result<(), AllocError>
    ensures { OnOk result (out.new ≡ out.old ++ map (named_rel n.now) rs.now) }
{
    for r in rs {
        out.push(named_rel(alloc, n, r)?)?;
    }
    Ok(())
}

/// A clause under its names.
pub fn named_clause(alloc: Global, n: &Naming, c: &Clause) -> Result<Clause, AllocError>
    ensures { IfOk result (λ b. b ≡ named_clause n.now c.now) }
{
    let mut guards = Seq::new(alloc);
    add_rels(alloc, &mut guards, n, c.guards.as_slice())?;
    Ok(Clause {
        vars: copied(&c.vars)?,
        guards,
        rel: named_rel(alloc, n, &c.rel)?,
    })
}

/// A clause whose own variables are those from `own` on.
pub fn own_clause(
    alloc: Global,
    names: &Seq<u32>,
    own: u32,
    c: &Clause,
) -> Result<Clause, AllocError>
    requires { own + length c.now.vars < 2 ^ 32 }
    ensures { IfOk result (λ b. b ≡ own_clause names.now own c.now) }
{
    let n = own_naming(names, own, c.vars.len() as u32)?;
    named_clause(alloc, &n, c)
}

/// A row's key and the values behind it, under their names.
fn named_row(
    alloc: Global,
    n: &Naming,
    key: &Seq<Lin>,
    values: &Seq<Lin>,
) -> Result<(Seq<Lin>, Seq<Lin>), AllocError>
    ensures { IfOk result (λ row. row ≡ (named_lins n.now key.now, named_lins n.now values.now)) }
{
    let key = named_lins(alloc, n, key)?;
    Ok((key, named_lins(alloc, n, values)?))
}

/// A row's key and the value of one column, under their names.
fn named_cell(
    alloc: Global,
    n: &Naming,
    key: &Seq<Lin>,
    value: &Lin,
) -> Result<(Seq<Lin>, Lin), AllocError>
    ensures { IfOk result (λ cell. cell ≡ (named_lins n.now key.now, named_lin n.now value.now)) }
{
    let key = named_lins(alloc, n, key)?;
    Ok((key, named_lin(alloc, n, value)?))
}

/// An action under its names.
pub fn named_action(alloc: Global, n: &Naming, a: &Action) -> Result<Action, AllocError>
    ensures { IfOk result (λ b. b ≡ named_action n.now a.now) }
{
    match a {
        Action::Put(t, k, vs) => {
            let (key, values) = named_row(alloc, n, k, vs)?;
            Ok(Action::Put(*t, key, values))
        }
        Action::Del(t, k) => Ok(Action::Del(*t, named_lins(alloc, n, k)?)),
        Action::Set(t, k, c, v) => {
            let (key, value) = named_cell(alloc, n, k, v)?;
            Ok(Action::Set(*t, key, *c, value))
        }
        Action::Add(t, k, c, v) => {
            let (key, value) = named_cell(alloc, n, k, v)?;
            Ok(Action::Add(*t, key, *c, value))
        }
    }
}
