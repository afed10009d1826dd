//! The axioms that a pass tries.
ghost use Rattle.std.specs.Prelude.{◌≡◌, ◌++◌, ◌∷◌, [], take, ◌+◌, IfOk, OnOk};
ghost use Rattle.acc_axioms.specs.Axioms.{is_plain, count};
ghost use Rattle.acc_prover_candidates.specs.Candidates.{with_shuts, with_one, for_opened, for_empty, keyed, columned, is_pair, with_same, with_pairs};
ghost use Rattle.acc_prover_candidates.specs.Candidates.{is_known, with_front, with_key_fronts, with_fronts, with_unknown, candidates};
ghost use Rattle.acc_axioms.specs.declared.nodes.Schema.TheVariants.{Shut};
ghost use Rattle.acc_axioms.specs.declared.nodes.TheConstants.{BELOW, ABOVE};

use crate::names::is_known;
use acc_axioms::kinds::AxiomKind;
use acc_axioms::nodes::{ABOVE, BELOW, Schema};
use acc_axioms::terms::plain;
use acc_base::atoms::AtomKind;
use acc_base::forms::{Atom, Lin, Unknown};
use acc_base::sequences::{Seq, copied};
use std::alloc::{AllocError, Global};

// ---- an unknown that stands under values

/// Both axioms for the value with this number.
fn add_shut(found: &mut Vec<Schema>, u: &Unknown, n: u32) -> Result<(), AllocError>
    ensures { OnOk result (found.new.items ≡ found.old.items ++ Shut u.now n BELOW ∷ Shut u.now n ABOVE ∷ []) }
{
    found.push(Schema::Shut(copied(u)?, n, BELOW))?;
    found.push(Schema::Shut(copied(u)?, n, ABOVE))?;
    Ok(())
}

fn add_shuts(found: &mut Vec<Schema>, u: &Unknown) -> Result<(), AllocError>
    ensures { OnOk result (found.new.items ≡ with_shuts found.old.items u.now) }
{
    let mut n = 0u32;
    for _value in u.under.as_slice() {
        add_shut(found, u, n)?;
        n = next(n)?;
    }
    Ok(())
}

/// Whether an unknown stands under nothing.
fn is_plain(u: &Unknown) -> bool
    ensures { result ≡ is_plain u.now }
{
    u.under.len() == 0
}

/// An axiom behind the others, if there is one.
fn add(found: &mut Vec<Schema>, one: Option<Schema>) -> Result<(), AllocError>
    ensures { OnOk result (found.new.items ≡ with_one found.old.items one) }
{
    if let Some(schema) = one {
        found.push(schema)?;
    }
    Ok(())
}

fn for_opened(u: &Unknown) -> Result<Option<Schema>, AllocError>
    ensures { IfOk result (λ o. o ≡ for_opened u.now) }
{
    if is_plain(u) {
        return Ok(None);
    }
    Ok(Some(Schema::Opened(copied(u)?)))
}

// ---- an atom of a table

fn for_empty(u: &Unknown) -> Result<Option<Schema>, AllocError>
    ensures { IfOk result (λ o. o ≡ for_empty u.now) }
{
    if u.atom.table().is_none() {
        return Ok(None);
    }
    Ok(Some(Schema::Empty(copied(u)?)))
}

/// The table and the key of an unknown that counts always, if its atom is of a kind.
fn keyed(u: &Unknown, kind: AtomKind) -> Result<Option<(u32, Seq<Lin>)>, AllocError>
    ensures { IfOk result (λ o. o ≡ keyed kind u.now) }
{
    if !is_plain(u) || u.atom.kind() != kind {
        return Ok(None);
    }
    match &u.atom {
        Atom::One | Atom::Var(_) => Ok(None),
        Atom::Has(t, k) | Atom::Col(t, k, _) => Ok(Some((*t, copied(k)?))),
        Atom::Count(t, p) | Atom::Sum(t, p, _) => Ok(Some((*t, copied(p)?))),
    }
}

/// The same with its column.
fn columned(u: &Unknown, kind: AtomKind) -> Result<Option<(u32, Seq<Lin>, u32)>, AllocError>
    ensures { IfOk result (λ o. o ≡ columned kind u.now) }
{
    if !is_plain(u) || u.atom.kind() != kind {
        return Ok(None);
    }
    match &u.atom {
        Atom::One | Atom::Var(_) | Atom::Has(_, _) | Atom::Count(_, _) => Ok(None),
        Atom::Col(t, k, c) | Atom::Sum(t, k, c) => Ok(Some((*t, copied(k)?, *c))),
    }
}

// ---- two unknowns

fn is_pair(u: &Unknown, v: &Unknown) -> bool
    ensures { result ≡ is_pair u.now v.now }
{
    is_plain(u) && is_plain(v) && u.atom.is_alike(&v.atom)
}

fn add_same(found: &mut Vec<Schema>, u: &Unknown, v: &Unknown) -> Result<(), AllocError>
    ensures { OnOk result (found.new.items ≡ with_same u.now found.old.items v.now) }
{
    if !is_pair(u, v) {
        return Ok(());
    }
    found.push(Schema::Same(copied(u)?, copied(v)?))?;
    Ok(())
}

/// An unknown with each of those behind it. The cost is the product of their number and the length of keys.
fn add_pairs(found: &mut Vec<Schema>, u: &Unknown, later: &[Unknown]) -> Result<(), AllocError>
    ensures { OnOk result (found.new.items ≡ with_pairs found.old.items u.now later.now) }
{
    for v in later {
        add_same(found, u, v)?;
    }
    Ok(())
}

// ---- an atom that counts always

/// The number behind this one, unless there is none.
fn next(n: u32) -> Result<u32, AllocError>
    ensures { IfOk result (λ m. m ≡ n + 1) }
{
    n.checked_add(1).ok_or(AllocError)
}

/// The count under the front of a key with so many parts.
fn front_of(alloc: Global, t: u32, k: &Seq<Lin>, n: u32) -> Result<Unknown, AllocError>
    ensures { IfOk result (λ u. u ≡ count t (take n k.now)) }
{
    let mut front = copied(k)?;
    front.truncate(n as usize);
    Ok(plain(alloc, Atom::Count(t, front)))
}

/// The axiom for the front of a key with so many parts, if its count is known.
fn add_front(
    alloc: Global,
    names: &[Unknown],
    found: &mut Vec<Schema>,
    t: u32,
    k: &Seq<Lin>,
    n: u32,
) -> Result<(), AllocError>
    ensures { OnOk result (found.new.items ≡ with_front names.now found.old.items t k.now n) }
{
    let front = front_of(alloc, t, k, n)?;
    if !is_known(names, &front) {
        return Ok(());
    }
    found.push(Schema::Front(t, copied(k)?, n))?;
    Ok(())
}

/// The axioms for the fronts of a key.
fn add_key_fronts(
    alloc: Global,
    names: &[Unknown],
    found: &mut Vec<Schema>,
    t: u32,
    k: &Seq<Lin>,
) -> Result<(), AllocError>
    ensures { OnOk result (found.new.items ≡ with_key_fronts names.now found.old.items t k.now) }
{
    let mut n = 0;
    for _part in k.as_slice() {
        n = next(n)?;
        add_front(alloc, names, found, t, k, n)?;
    }
    Ok(())
}

fn add_fronts(
    alloc: Global,
    names: &[Unknown],
    found: &mut Vec<Schema>,
    keyed: Option<(u32, Seq<Lin>)>,
) -> Result<(), AllocError>
    ensures { OnOk result (found.new.items ≡ with_fronts names.now found.old.items keyed) }
{
    match keyed {
        None => Ok(()),
        Some((t, k)) => add_key_fronts(alloc, names, found, t, &k),
    }
}

// ---- of one kind

/// The axioms of a kind for an unknown, where others come later.
fn add_unknown(
    alloc: Global,
    names: &[Unknown],
    kind: AxiomKind,
    found: &mut Vec<Schema>,
    u: &Unknown,
    later: &[Unknown],
) -> Result<(), AllocError>
    ensures { OnOk result (found.new.items ≡ with_unknown names.now kind found.old.items u.now later.now) }
{
    let one = match kind {
        AxiomKind::Shut => return add_shuts(found, u),
        AxiomKind::Opened => for_opened(u)?,
        AxiomKind::Empty => for_empty(u)?,
        AxiomKind::Same => return add_pairs(found, u, later),
        AxiomKind::Fresh => keyed(u, AtomKind::Has)?.map(|(t, k)| Schema::Fresh(t, k)),
        AxiomKind::Has => keyed(u, AtomKind::Has)?.map(|(t, k)| Schema::Has(t, k)),
        AxiomKind::Front => return add_fronts(alloc, names, found, keyed(u, AtomKind::Has)?),
        AxiomKind::OneCount => keyed(u, AtomKind::Count)?.map(|(t, k)| Schema::OneCount(t, k)),
        AxiomKind::Count => keyed(u, AtomKind::Count)?.map(|(t, p)| Schema::Count(t, p)),
        AxiomKind::NoCol => columned(u, AtomKind::Col)?.map(|(t, k, c)| Schema::NoCol(t, k, c)),
        AxiomKind::OneSum => columned(u, AtomKind::Sum)?.map(|(t, k, c)| Schema::OneSum(t, k, c)),
        AxiomKind::NoSum => columned(u, AtomKind::Sum)?.map(|(t, p, c)| Schema::NoSum(t, p, c)),
    };
    add(found, one)
}

/// The axioms of a kind for unknowns, in their order. `Memory` too where an unknown stands under 2^32 values or a key has 2^32 parts.
pub fn candidates(
    alloc: Global,
    names: &[Unknown],
    kind: AxiomKind,
) -> Result<Vec<Schema>, AllocError>
    ensures { IfOk result (λ v. v.items ≡ candidates names.now kind) }
{
    let mut found = Vec::new(alloc);
    let mut left = names;
    while let Some((u, later)) = left.split_first() {
        add_unknown(alloc, names, kind, &mut found, u, later)?;
        left = later;
    }
    Ok(found)
}
