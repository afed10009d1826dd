//! What the least and the greatest component make true for all numbers.
ghost use Rattle.std.specs.Prelude.{◌≡◌, ◌∷◌, [], ◌++◌, IfOk, OnOk, codes};
ghost use Rattle.acc_oblig.specs.Relations.{alone, some_rows, no_rows, none_there, is_nothing, is_less, plain, extreme, read_hyps};
ghost use Rattle.acc_oblig_assumptions.specs.Extremes.{behind_there, nothing_of_none, none_beyond};

use acc_base::forms::{Atom, Clause, Lin, Rel};
use acc_base::sequences::{Seq, Text, copied};
use acc_base::steps::Read;
use acc_oblig::naming::Naming;
use acc_oblig_named::forms::{alone, at_most, is_less, is_nothing, is_zero, one_term, times};
use acc_oblig_named::naming::named_lins;
use std::alloc::{AllocError, Global};

/// That there are rows under a prefix.
fn some_rows(alloc: Global, t: u32, p: Seq<Lin>) -> Result<Rel, AllocError>
    ensures { IfOk result (λ r. r ≡ some_rows t p) }
{
    let count = times(alloc, -1, Atom::Count(t, p));
    Ok(at_most(one_term(alloc, count, 1)?))
}

/// That there are no rows under a prefix.
fn no_rows(alloc: Global, t: u32, p: Seq<Lin>) -> Result<Rel, AllocError>
    ensures { IfOk result (λ r. r ≡ no_rows t p) }
{
    let count = times(alloc, 1, Atom::Count(t, p));
    Ok(at_most(one_term(alloc, count, 0)?))
}

/// That the count of rows under a prefix is 0.
fn none_there(alloc: Global, t: u32, p: Seq<Lin>) -> Result<Rel, AllocError>
    ensures { IfOk result (λ r. r ≡ none_there t p) }
{
    let count = times(alloc, 1, Atom::Count(t, p));
    Ok(is_zero(one_term(alloc, count, 0)?))
}

/// A prefix and a variable behind it.
fn with_last(alloc: Global, p: &Seq<Lin>, x: u32) -> Result<Seq<Lin>, AllocError>
    ensures { IfOk result (λ q. q ≡ p.now ++ alone x ∷ []) }
{
    let mut longer = copied(p)?;
    longer.push(alone(alloc, x)?)?;
    Ok(longer)
}

/// A clause without variables of its own, with one guard.
pub fn guarded(alloc: Global, guard: Rel, rel: Rel) -> Result<Clause, AllocError>
    ensures { IfOk result (λ c. c ≡ plain (guard ∷ []) rel) }
{
    let mut guards = Seq::new(alloc);
    guards.push(guard)?;
    Ok(Clause {
        vars: Seq::new(alloc),
        guards,
        rel,
    })
}

/// That there are rows under a prefix that is lent.
fn some_under(alloc: Global, t: u32, p: &Seq<Lin>) -> Result<Rel, AllocError>
    ensures { IfOk result (λ r. r ≡ some_rows t p.now) }
{
    some_rows(alloc, t, copied(p)?)
}

/// That there are rows under a prefix and a variable behind it.
fn some_behind(alloc: Global, t: u32, p: &Seq<Lin>, x: u32) -> Result<Rel, AllocError>
    ensures { IfOk result (λ r. r ≡ some_rows t (p.now ++ alone x ∷ [])) }
{
    some_rows(alloc, t, with_last(alloc, p, x)?)
}

/// That the count of rows under a prefix and a variable behind it is 0.
fn none_behind(alloc: Global, t: u32, p: &Seq<Lin>, x: u32) -> Result<Rel, AllocError>
    ensures { IfOk result (λ r. r ≡ none_there t (p.now ++ alone x ∷ [])) }
{
    none_there(alloc, t, with_last(alloc, p, x)?)
}

/// Where there are rows, there are some behind the variable.
fn behind_there(alloc: Global, t: u32, p: &Seq<Lin>, x: u32) -> Result<Clause, AllocError>
    ensures { IfOk result (λ c. c ≡ behind_there t p.now x) }
{
    let some = some_under(alloc, t, p)?;
    let behind = some_behind(alloc, t, p, x)?;
    guarded(alloc, some, behind)
}

/// Where there are no rows, the variable is 0.
fn nothing_of_none(alloc: Global, t: u32, p: &Seq<Lin>, x: u32) -> Result<Clause, AllocError>
    ensures { IfOk result (λ c. c ≡ nothing_of_none t p.now x) }
{
    let none = no_rows(alloc, t, copied(p)?)?;
    guarded(alloc, none, is_nothing(alloc, x)?)
}

/// The name `k`.
pub fn own_name(alloc: Global) -> Result<Text, AllocError>
    ensures { IfOk result (λ t. t ≡ codes "k") }
{
    let mut name = Seq::new(alloc);
    name.push(b'k')?;
    Ok(name)
}

/// Two relations.
fn both(alloc: Global, first: Rel, second: Rel) -> Result<Seq<Rel>, AllocError>
    ensures { IfOk result (λ rs. rs ≡ first ∷ second ∷ []) }
{
    let mut rels = Seq::new(alloc);
    rels.push(first)?;
    rels.push(second)?;
    Ok(rels)
}

/// The names of one variable, `k`.
fn own_names(alloc: Global) -> Result<Seq<Text>, AllocError>
    ensures { IfOk result (λ names. names ≡ codes "k" ∷ []) }
{
    let mut names = Seq::new(alloc);
    names.push(own_name(alloc)?)?;
    Ok(names)
}

/// Where there are rows, there are none behind a number beyond the variable.
fn none_beyond(
    alloc: Global,
    t: u32,
    p: &Seq<Lin>,
    k: u32,
    beyond: Rel,
) -> Result<Clause, AllocError>
    ensures { IfOk result (λ c. c ≡ none_beyond t p.now k beyond) }
{
    let some = some_under(alloc, t, p)?;
    let guards = both(alloc, some, beyond)?;
    Ok(Clause {
        vars: own_names(alloc)?,
        guards,
        rel: none_behind(alloc, t, p, k)?,
    })
}

/// Adds that there are rows behind a variable where there are any, and that it is 0 where there are none.
fn add_there(
    alloc: Global,
    out: &mut Seq<Clause>,
    t: u32,
    p: &Seq<Lin>,
    x: u32,
) -> Result<(), AllocError>
    ensures { OnOk result (out.new ≡ out.old ++ behind_there t p.now x ∷ nothing_of_none t p.now x ∷ []) }
{
    out.push(behind_there(alloc, t, p, x)?)?;
    out.push(nothing_of_none(alloc, t, p, x)?)
}

/// Adds that a variable is the first or the last component under a prefix.
fn add_extreme(
    alloc: Global,
    out: &mut Seq<Clause>,
    t: u32,
    p: &Seq<Lin>,
    x: u32,
    k: u32,
    beyond: Rel,
) -> Result<(), AllocError>
    ensures { OnOk result (out.new ≡ out.old ++ extreme t p.now x k beyond) }
{
    add_there(alloc, out, t, p, x)?;
    out.push(none_beyond(alloc, t, p, k, beyond)?)
}

/// Adds that a variable is the first component under a prefix.
fn add_least(
    alloc: Global,
    out: &mut Seq<Clause>,
    t: u32,
    p: &Seq<Lin>,
    x: u32,
    k: u32,
) -> Result<(), AllocError>
    ensures { OnOk result (out.new ≡ out.old ++ extreme t p.now x k (is_less k x)) }
{
    let beyond = is_less(alloc, k, x)?;
    add_extreme(alloc, out, t, p, x, k, beyond)
}

/// Adds that a variable is the last component under a prefix.
fn add_greatest(
    alloc: Global,
    out: &mut Seq<Clause>,
    t: u32,
    p: &Seq<Lin>,
    x: u32,
    k: u32,
) -> Result<(), AllocError>
    ensures { OnOk result (out.new ≡ out.old ++ extreme t p.now x k (is_less x k)) }
{
    let beyond = is_less(alloc, x, k)?;
    add_extreme(alloc, out, t, p, x, k, beyond)
}

/// Adds what a read makes true of its variable for all numbers k.
pub fn add_read_hyps(
    alloc: Global,
    out: &mut Seq<Clause>,
    n: &Naming,
    k: u32,
    x: u32,
    r: &Read,
) -> Result<(), AllocError>
    ensures { OnOk result (out.new ≡ out.old ++ read_hyps n.now k x r.now) }
{
    match r {
        Read::Least(_, t, p) => add_least(alloc, out, *t, &named_lins(alloc, n, p)?, x, k),
        Read::Greatest(_, t, p) => add_greatest(alloc, out, *t, &named_lins(alloc, n, p)?, x, k),
        Read::Let(_, _) | Read::Col(_, _, _, _) | Read::Has(_, _, _) => Ok(()),
        Read::Count(_, _, _) | Read::Sum(_, _, _, _) => Ok(()),
        Read::Take(_) | Read::Mul(_, _, _) | Read::Div(_, _, _) => Ok(()),
    }
}
