//! Axioms: what must be shown for one, and what it adds.
ghost use Rattle.std.specs.Prelude.{◌≡◌, ◌∷◌, [], ◌&&◌, not, nat_le, length, take, map, slice_get, pos, negsuc, IfOk, IfSome};
ghost use Rattle.acc_base.specs.Atoms.{key_of, alike};
ghost use Rattle.acc_base.specs.Forms.{form, at_most, is_zero};
ghost use Rattle.acc_axioms.specs.Axioms.{has, col, count, sum, plus, minus, less, less_atom, alone, lin_form, differences, is_table};
ghost use Rattle.acc_axioms.specs.Axioms.{is_table_atom, is_plain, demand, off, axiom_of};
ghost use Rattle.acc_axioms.specs.Needs.{AnswersDemand};
ghost use Rattle.acc_axioms.specs.Truths.{AddsTrue};
ghost use Rattle.acc_axioms.specs.declared.nodes.Schema.TheVariants as schema;

use crate::conditions::{ends_in_own, is_plain, is_private, is_table, is_table_atom, is_whole};
use crate::nodes::{ABOVE, BELOW, Schema};
use crate::terms::{
    all_zero, at_most, differences, is_zero, less, less_atom, lin_above, lin_below, one_term,
    plain, single,
};
use acc_base::designs::Design;
use acc_base::forms::{Atom, Form, Lin, Rel, Unknown};
use acc_base::sequences::{Seq, copied};
use acc_base::sequents::{Rule, Sequent};
use std::alloc::{AllocError, Global};

/// What must be shown for an axiom, and what it adds.
#[derive(Drop)]
pub struct Need {
    pub facts: Seq<Rel>,
    pub added: Seq<Rel>,
}

/// What an axiom needs, and none where it may not be used.
type Needed = Result<Option<Need>, AllocError>;

// ---- unknowns and what is said of them

fn has(alloc: Global, t: u32, k: &Seq<Lin>) -> Result<Unknown, AllocError>
    ensures { IfOk result (λ u. u ≡ has t k.now) }
{
    Ok(plain(alloc, Atom::Has(t, copied(k)?)))
}

fn col(alloc: Global, t: u32, k: &Seq<Lin>, c: u32) -> Result<Unknown, AllocError>
    ensures { IfOk result (λ u. u ≡ col t k.now c) }
{
    Ok(plain(alloc, Atom::Col(t, copied(k)?, c)))
}

fn count(alloc: Global, t: u32, p: &Seq<Lin>) -> Result<Unknown, AllocError>
    ensures { IfOk result (λ u. u ≡ count t p.now) }
{
    Ok(plain(alloc, Atom::Count(t, copied(p)?)))
}

fn sum(alloc: Global, t: u32, p: &Seq<Lin>, c: u32) -> Result<Unknown, AllocError>
    ensures { IfOk result (λ u. u ≡ sum t p.now c) }
{
    Ok(plain(alloc, Atom::Sum(t, copied(p)?, c)))
}

/// An unknown alone.
fn alone(alloc: Global, u: Unknown) -> Result<Form, AllocError>
    ensures { IfOk result (λ f. f ≡ alone u) }
{
    one_term(alloc, u, 1, 0)
}

/// The facts and what they add, where the axiom may be used.
fn needed(may: bool, facts: Seq<Rel>, added: Seq<Rel>) -> Option<Need>
    ensures { AnswersDemand result (demand may facts added) }
{
    if may {
        Some(Need { facts, added })
    } else {
        None
    }
}

/// A relation that holds without a fact.
fn holds(alloc: Global, may: bool, added: Rel) -> Needed
    ensures { IfOk result (λ o. AnswersDemand o (demand may [] (added ∷ []))) }
{
    Ok(needed(may, Seq::new(alloc), single(alloc, added)?))
}

/// An unknown is 0.
fn zero(alloc: Global, may: bool, u: Unknown) -> Needed
    ensures { IfOk result (λ o. AnswersDemand o (demand may [] (is_zero (alone u) ∷ []))) }
{
    holds(alloc, may, is_zero(alone(alloc, u)?))
}

/// An unknown is 0 where a fact holds.
fn zero_where(alloc: Global, may: bool, fact: Rel, u: Unknown) -> Needed
    ensures { IfOk result (λ o. AnswersDemand o (demand may (fact ∷ []) (is_zero (alone u) ∷ []))) }
{
    let facts = single(alloc, fact)?;
    let zero = is_zero(alone(alloc, u)?);
    Ok(needed(may, facts, single(alloc, zero)?))
}

/// An unknown is 0 where another is at most 0.
fn zero_without(alloc: Global, may: bool, other: Unknown, u: Unknown) -> Needed
    ensures { IfOk result (λ o. AnswersDemand o (demand may (at_most (alone other) ∷ []) (is_zero (alone u) ∷ []))) }
{
    let none = at_most(alone(alloc, other)?);
    zero_where(alloc, may, none, u)
}

/// Two unknowns are equal.
fn equal(alloc: Global, may: bool, u: Unknown, v: Unknown) -> Needed
    ensures { IfOk result (λ o. AnswersDemand o (demand may [] (is_zero (less u v) ∷ []))) }
{
    holds(alloc, may, is_zero(less(alloc, u, v)?))
}

// ---- the axioms

fn has_need(alloc: Global, may: bool, t: u32, k: &Seq<Lin>) -> Needed
    ensures { IfOk result (λ o. AnswersDemand o (demand may []
        (at_most (form (minus (has t k.now) ∷ []) (pos 0)) ∷ at_most (form (plus (has t k.now) ∷ []) (negsuc 0)) ∷ []))) }
{
    let least = one_term(alloc, has(alloc, t, k)?, -1, 0)?;
    let most = one_term(alloc, has(alloc, t, k)?, 1, -1)?;
    let mut added = single(alloc, at_most(least))?;
    added.push(at_most(most))?;
    Ok(needed(may, Seq::new(alloc), added))
}

fn count_need(alloc: Global, may: bool, t: u32, p: &Seq<Lin>) -> Needed
    ensures { IfOk result (λ o. AnswersDemand o (demand may [] (at_most (form (minus (count t p.now) ∷ []) (pos 0)) ∷ []))) }
{
    let least = one_term(alloc, count(alloc, t, p)?, -1, 0)?;
    holds(alloc, may, at_most(least))
}

/// The same linear values again.
fn copies(alloc: Global, ls: &[Lin]) -> Result<Seq<Lin>, AllocError>
    ensures { IfOk result (λ list. list ≡ ls.now) }
{
    let mut list = Seq::new(alloc);
    for l in ls {
        list.push(copied(l)?)?;
    }
    Ok(list)
}

fn front_need(alloc: Global, d: &Design, t: u32, k: &Seq<Lin>, n: u32) -> Needed
    ensures { IfOk result (λ o. AnswersDemand o (demand (is_table d.now t && nat_le n (length k.now)) []
        (at_most (less (has t k.now) (count t (take n k.now))) ∷ []))) }
{
    if !(is_table(d, t) && n as usize <= k.len()) {
        return Ok(None);
    }
    let front = copies(alloc, &k.as_slice()[..n as usize])?;
    let prefix = plain(alloc, Atom::Count(t, front));
    let row = has(alloc, t, k)?;
    holds(alloc, true, at_most(less(alloc, row, prefix)?))
}

fn same_need(alloc: Global, may: bool, u: &Unknown, v: &Unknown) -> Needed
    ensures { IfOk result (λ o. AnswersDemand o (demand may (differences (key_of u.now.atom) (key_of v.now.atom))
        (is_zero (less u.now v.now) ∷ []))) }
{
    let facts = differences(alloc, u.atom.key(), v.atom.key())?;
    let u = copied(u)?;
    let equal = is_zero(less(alloc, u, copied(v)?)?);
    Ok(needed(may, facts, single(alloc, equal)?))
}

fn no_col_need(alloc: Global, may: bool, t: u32, k: &Seq<Lin>, c: u32) -> Needed
    ensures { IfOk result (λ o. AnswersDemand o (demand may (at_most (alone (has t k.now)) ∷ []) (is_zero (alone (col t k.now c)) ∷ []))) }
{
    let row = has(alloc, t, k)?;
    zero_without(alloc, may, row, col(alloc, t, k, c)?)
}

fn no_sum_need(alloc: Global, may: bool, t: u32, p: &Seq<Lin>, c: u32) -> Needed
    ensures { IfOk result (λ o. AnswersDemand o (demand may (at_most (alone (count t p.now)) ∷ [])
        (is_zero (alone (sum t p.now c)) ∷ []))) }
{
    let rows = count(alloc, t, p)?;
    zero_without(alloc, may, rows, sum(alloc, t, p, c)?)
}

fn one_count_need(alloc: Global, may: bool, t: u32, k: &Seq<Lin>) -> Needed
    ensures { IfOk result (λ o. AnswersDemand o (demand may [] (is_zero (less (count t k.now) (has t k.now)) ∷ []))) }
{
    let rows = count(alloc, t, k)?;
    equal(alloc, may, rows, has(alloc, t, k)?)
}

fn one_sum_need(alloc: Global, may: bool, t: u32, k: &Seq<Lin>, c: u32) -> Needed
    ensures { IfOk result (λ o. AnswersDemand o (demand may [] (is_zero (less (sum t k.now c) (col t k.now c)) ∷ []))) }
{
    let total = sum(alloc, t, k, c)?;
    equal(alloc, may, total, col(alloc, t, k, c)?)
}

fn opened_need(alloc: Global, u: &Unknown) -> Needed
    ensures { IfOk result (λ o. AnswersDemand o (demand (not (is_plain u.now)) (map (λ l. is_zero (lin_form l)) u.now.under)
        (is_zero (less_atom u.now u.now.atom) ∷ []))) }
{
    let facts = all_zero(alloc, u.under.as_slice())?;
    let atom = is_zero(less_atom(alloc, copied(u)?, &u.atom)?);
    Ok(needed(!is_plain(u), facts, single(alloc, atom)?))
}

fn shut_need(alloc: Global, u: &Unknown, n: u32, side: u32) -> Needed
    ensures { IfOk result (λ o. AnswersDemand o (off (slice_get u.now.under n) side u.now)) }
{
    let Some(l) = u.under.as_slice().get(n as usize) else {
        return Ok(None);
    };
    let off = match side {
        BELOW => lin_above(alloc, l)?,
        ABOVE => lin_below(alloc, l)?,
        _ => return Ok(None),
    };
    zero_where(alloc, true, at_most(off), copied(u)?)
}

/// Whether two unknowns differ in their keys alone, and stand under nothing.
fn may_be_same(d: &Design, u: &Unknown, v: &Unknown) -> bool
    ensures { result ≡ (is_table_atom d.now u.now.atom && (alike u.now.atom v.now.atom && (is_plain u.now && is_plain v.now))) }
{
    is_table_atom(d, &u.atom) && u.atom.is_alike(&v.atom) && is_plain(u) && is_plain(v)
}

fn empty_need(alloc: Global, d: &Design, q: &Sequent, u: &Unknown) -> Needed
    ensures { IfOk result (λ o. AnswersDemand o (axiom_of d.now q.now (schema.Empty u.now))) }
{
    let may = q.origin.rule == Rule::Empty && is_table_atom(d, &u.atom);
    zero(alloc, may, copied(u)?)
}

fn fresh_need(alloc: Global, d: &Design, q: &Sequent, t: u32, k: &Seq<Lin>) -> Needed
    ensures { IfOk result (λ o. AnswersDemand o (axiom_of d.now q.now (schema.Fresh t k.now))) }
{
    let may = q.origin.rule == Rule::Begins
        && is_private(d, t)
        && is_whole(d, t, k.as_slice())
        && ends_in_own(d, q, k.as_slice());
    zero(alloc, may, has(alloc, t, k)?)
}

/// What an axiom needs, and none where it may not be used.
fn demanded(alloc: Global, design: &Design, sequent: &Sequent, schema: &Schema) -> Needed
    ensures { IfOk result (λ o. AnswersDemand o (axiom_of design.now sequent.now schema.now)) }
{
    match schema {
        Schema::Has(t, k) => has_need(alloc, is_table(design, *t), *t, k),
        Schema::Count(t, p) => count_need(alloc, is_table(design, *t), *t, p),
        Schema::Front(t, k, n) => front_need(alloc, design, *t, k, *n),
        Schema::Same(u, v) => same_need(alloc, may_be_same(design, u, v), u, v),
        Schema::NoCol(t, k, c) => no_col_need(alloc, is_table(design, *t), *t, k, *c),
        Schema::NoSum(t, p, c) => no_sum_need(alloc, is_table(design, *t), *t, p, *c),
        Schema::OneCount(t, k) => {
            one_count_need(alloc, is_whole(design, *t, k.as_slice()), *t, k)
        }
        Schema::OneSum(t, k, c) => {
            one_sum_need(alloc, is_whole(design, *t, k.as_slice()), *t, k, *c)
        }
        Schema::Opened(u) => opened_need(alloc, u),
        Schema::Shut(u, n, side) => shut_need(alloc, u, *n, *side),
        Schema::Empty(u) => empty_need(alloc, design, sequent, u),
        Schema::Fresh(t, k) => fresh_need(alloc, design, sequent, *t, k),
    }
}

/// What an axiom with its arguments needs in a proof of a sequent, and none where it may not be used. What it adds is true
/// wherever the facts that it needs are.
pub fn need_of(
    alloc: Global,
    design: &Design,
    sequent: &Sequent,
    schema: &Schema,
) -> Result<Option<Need>, AllocError>
    ensures value { IfOk result (λ o. AnswersDemand o (axiom_of design.now sequent.now schema.now)) }
    ensures law { IfOk result (λ o. IfSome o (AddsTrue design.now sequent.now)) }
{
    demanded(alloc, design, sequent, schema)
}
