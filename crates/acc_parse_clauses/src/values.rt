//! Linear values and relations between them.
ghost use Rattle.std.specs.Prelude.{◌≡◌, ◌∷◌, ◌++◌, [], map, All, IfOk, OnOk};
ghost use Rattle.std.specs.List.{flat_map};
ghost use Rattle.acc_terms.specs.Parts.{negated, IsTermSized};
ghost use Rattle.acc_parse_limits.specs.Walks.{after};
ghost use Rattle.acc_parse_clauses.specs.Values.{part_of, signed, signed_part, parts_of, kept, lin_by, lin_of, lins_of, values_of, compared};
ghost use Rattle.acc_parse_clauses.specs.Values.{is_equation, lin_rel_of, guard_of};
ghost use Rattle.acc_parse_clauses.specs.Sizes.{size_mark, term_sizes, terms_sizes, sum_sizes, sums_sizes, values_sizes, lin_rel_sizes};
ghost use Rattle.acc_parse_clauses.specs.Sizes.{guard_sizes};
ghost use Rattle.acc_parse_clauses.specs.Views.{variables_in};

use crate::scopes::{VariableNames, variable};
use acc_base::bounds::LARGEST_NUMBER;
use acc_base::forms::{Lin, LinRel};
use acc_base::sequences::Seq;
use acc_parse_limits::{Limit, Walk};
use acc_parse_syntax::boxes::Boxed;
use acc_parse_syntax::trees::{LinRelTree, LinRels, Relation, SignedTerm, Sum, Sums, Term};
use acc_terms::{Part, Terms, collected, difference};
use std::alloc::{AllocError, Global};

fn part<'a>(variables: &VariableNames<'_, 'a>, term: &'a Term) -> Part<u32>
    ensures value { result ≡ part_of (variables_in variables.now) term.now }
    ensures sized { IsTermSized result }
{
    match term {
        Term::Constant(n) => Part {
            of: None,
            number: i128::from(*n),
        },
        Term::Plain(x) => Part {
            of: Some(variable(variables, x)),
            number: 1,
        },
        Term::Product(n, x) => Part {
            of: Some(variable(variables, x)),
            number: i128::from(*n),
        },
    }
}

/// A term behind a plus or a minus.
pub fn signed<K: Drop>(minus: bool, part: Part<K>) -> Part<K>
    requires { IsTermSized part }
    ensures value { result ≡ signed minus part }
    ensures sized { IsTermSized result }
{
    let number = if minus { 0 - part.number } else { part.number };
    Part {
        of: part.of,
        number,
    }
}

/// The terms of a linear value.
fn parts<'a>(
    alloc: Global,
    variables: &VariableNames<'_, 'a>,
    sum: &'a Sum,
) -> Result<Seq<Part<u32>>, AllocError>
    ensures value { IfOk result (λ ps. ps ≡ parts_of (variables_in variables.now) sum.now) }
    ensures sized { IfOk result (All IsTermSized) }
{
    let mut parts = Seq::new(alloc);
    parts.push(signed(sum.minus, part(variables, &sum.first)))?;
    for other in sum.others.as_slice() {
        parts.push(signed(other.minus, part(variables, &other.term)))?;
    }
    Ok(parts)
}

/// A collected number of a linear value: 0 where it isn't within 2^45 of 0, and then the statement passes the limit of numbers.
pub fn kept(walk: &mut Walk, n: i128) -> i64
    ensures value { result ≡ kept n }
    ensures walk { walk.new ≡ after walk.old (size_mark n) }
{
    const LARGEST: i128 = LARGEST_NUMBER as i128;
    let small = -LARGEST <= n && n <= LARGEST;
    walk.pass_if(Limit::NumberSize, !small);
    if small { n as i64 } else { 0 }
}

/// Meets collected coefficients.
pub fn meet_terms<K>(walk: &mut Walk, terms: &[(K, i128)])
    ensures { walk.new ≡ after walk.old (flat_map term_sizes terms.now) }
{
    for (_, n) in terms {
        kept(walk, *n);
    }
}

/// The linear value of collected terms.
fn lin_by(alloc: Global, walk: &mut Walk, terms: &Terms<u32>) -> Result<Lin, AllocError>
    ensures value { IfOk result (λ l. l ≡ lin_by terms.now) }
    ensures walk { OnOk result (walk.new ≡ after walk.old (terms_sizes terms.now)) }
{
    let mut coeffs = Seq::new(alloc);
    for (x, n) in terms.terms.as_slice() {
        coeffs.push((*x, kept(walk, *n)))?;
    }
    let constant = kept(walk, terms.constant);
    Ok(Lin { coeffs, constant })
}

/// The linear value that is written.
pub fn lin<'a>(
    alloc: Global,
    walk: &mut Walk,
    variables: &VariableNames<'_, 'a>,
    sum: &'a Sum,
) -> Result<Lin, AllocError>
    ensures value { IfOk result (λ l. l ≡ lin_of (variables_in variables.now) sum.now) }
    ensures walk { OnOk result (walk.new ≡ after walk.old (sum_sizes (variables_in variables.now) sum.now)) }
{
    let parts = parts(alloc, variables, sum)?;
    let terms = collected(alloc, parts.as_slice())?;
    lin_by(alloc, walk, &terms)
}

/// Linear values, one after the other.
pub fn lins<'a>(
    alloc: Global,
    walk: &mut Walk,
    variables: &VariableNames<'_, 'a>,
    sums: &'a Sums,
) -> Result<Seq<Lin>, AllocError>
    ensures value { IfOk result (λ ls. ls ≡ lins_of (variables_in variables.now) sums.now) }
    ensures walk { OnOk result (walk.new ≡ after walk.old (sums_sizes (variables_in variables.now) sums.now)) }
{
    let mut lins = Seq::new(alloc);
    lins.push(lin(alloc, walk, variables, &sums.first)?)?;
    for other in sums.others.as_slice() {
        lins.push(lin(alloc, walk, variables, other)?)?;
    }
    Ok(lins)
}

/// The values of a row's columns.
pub fn values<'a>(
    alloc: Global,
    walk: &mut Walk,
    variables: &VariableNames<'_, 'a>,
    values: &'a Option<Boxed<Sums>>,
) -> Result<Seq<Lin>, AllocError>
    ensures value { IfOk result (λ ls. ls ≡ values_of (variables_in variables.now) values.now) }
    ensures walk { OnOk result (walk.new ≡ after walk.old (values_sizes (variables_in variables.now) values.now)) }
{
    match values {
        Some(sums) => lins(alloc, walk, variables, sums.get()),
        None => Ok(Seq::new(alloc)),
    }
}

/// The terms that a relation compares with 0.
pub fn compared<K: Drop>(
    relation: &Relation,
    left: Seq<Part<K>>,
    right: Seq<Part<K>>,
) -> Result<Seq<Part<K>>, AllocError>
    requires left_sized { All IsTermSized left }
    requires right_sized { All IsTermSized right }
    ensures value { IfOk result (λ ps. ps ≡ compared relation.now left right) }
    ensures sized { IfOk result (All IsTermSized) }
{
    match relation {
        Relation::AtMost => difference(left, right),
        Relation::AtLeast => difference(right, left),
        Relation::Equal => difference(left, right),
    }
}

/// Whether a relation is `=`.
pub fn is_equation(relation: &Relation) -> bool
    ensures { result ≡ is_equation relation.now }
{
    match relation {
        Relation::AtMost | Relation::AtLeast => false,
        Relation::Equal => true,
    }
}

/// The relation of linear values that is written.
fn lin_rel<'a>(
    alloc: Global,
    walk: &mut Walk,
    variables: &VariableNames<'_, 'a>,
    rel: &'a LinRelTree,
) -> Result<LinRel, AllocError>
    ensures value { IfOk result (λ r. r ≡ lin_rel_of (variables_in variables.now) rel.now) }
    ensures walk { OnOk result (walk.new ≡ after walk.old (lin_rel_sizes (variables_in variables.now) rel.now)) }
{
    let left = parts(alloc, variables, &rel.left)?;
    let right = parts(alloc, variables, &rel.right)?;
    let parts = compared(&rel.relation, left, right)?;
    let terms = collected(alloc, parts.as_slice())?;
    Ok(LinRel {
        lin: lin_by(alloc, walk, &terms)?,
        equal: is_equation(&rel.relation),
    })
}

/// One or more relations.
fn lin_rels<'a>(
    alloc: Global,
    walk: &mut Walk,
    variables: &VariableNames<'_, 'a>,
    trees: &'a LinRels,
) -> Result<Seq<LinRel>, AllocError>
    ensures value { IfOk result
        (λ rs. rs ≡ map (lin_rel_of (variables_in variables.now)) (trees.now.first ∷ trees.now.others)) }
    ensures walk { OnOk result
        (walk.new
        ≡ after walk.old (flat_map (lin_rel_sizes (variables_in variables.now)) (trees.now.first ∷ trees.now.others))) }
{
    let mut rels = Seq::new(alloc);
    rels.push(lin_rel(alloc, walk, variables, &trees.first)?)?;
    for other in trees.others.as_slice() {
        rels.push(lin_rel(alloc, walk, variables, other)?)?;
    }
    Ok(rels)
}

/// The relations of a guard.
pub fn guard<'a>(
    alloc: Global,
    walk: &mut Walk,
    variables: &VariableNames<'_, 'a>,
    guard: &'a Option<Boxed<LinRels>>,
) -> Result<Seq<LinRel>, AllocError>
    ensures value { IfOk result (λ rs. rs ≡ guard_of (variables_in variables.now) guard.now) }
    ensures walk { OnOk result (walk.new ≡ after walk.old (guard_sizes (variables_in variables.now) guard.now)) }
{
    match guard {
        Some(trees) => lin_rels(alloc, walk, variables, trees.get()),
        None => Ok(Seq::new(alloc)),
    }
}
