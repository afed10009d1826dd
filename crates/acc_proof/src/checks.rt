//! Whether a list of nodes is a proof of a sequent.
ghost use Rattle.std.specs.Prelude.{◌≡◌, ◌++◌, ◌∷◌, [], ℕ, map, reverse, take, MatchOption, IfOk, OnOk, IsTrue, if◌then◌else◌, Some};
ghost use Rattle.acc_proof.specs.Checked.{Gives, Fails};
ghost use Rattle.acc_proof.specs.Proofs.{split_of, leaf_of, instance_of, sure, use_axiom, node_of, walked, verdict, Proved, NotProved};
ghost use Rattle.acc_proof.specs.Facts.{all_shown};
ghost use Rattle.acc_instanced.specs.Instances.{fact_at};
ghost use Rattle.acc_axioms.specs.Axioms.{axiom_of};
ghost use Rattle.acc_proof.specs.Opened.{pending};
ghost use Rattle.acc_proof.specs.Causes.{TellsTooWide, at_node, TellsNode};
ghost use Rattle.acc_base.specs.TrueSequents.{SequentTrue};

use crate::errors::ProofError;
use crate::facts::{above_zero, below_zero, shown};
use acc_axioms::axioms::need_of;
use acc_axioms::nodes::{Node, Proof, Schema};
use acc_axioms::terms::{is_zero, single};
use acc_base::designs::Design;
use acc_base::forms::{Clause, Form, Lin, Rel};
use acc_base::sequences::{Seq, copied};
use acc_base::sequents::Sequent;
use acc_base::sums::FormSum;
use acc_farkas::refuting::{Mults, refutes_both};
use acc_instances::instances::relation_at;
use std::alloc::{AllocError, Global};

/// An open branch: how many of the relations that are known beside the sequent's it has, and what it adds.
#[derive(Drop)]
pub struct Pending {
    pub known: usize,
    pub added: Seq<Rel>,
}

/// Goes on with a branch: the relations that it has and those that it adds.
fn resume(more: &mut Vec<Rel>, branch: Pending) -> Result<(), AllocError>
    ensures { OnOk result (more.new.items ≡ take branch.known more.old.items ++ branch.added) }
{
    more.truncate(branch.known);
    for relation in branch.added.into_vec() {
        more.push(relation)?;
    }
    Ok(())
}

/// Opens branches, the first one next, where so many relations are known.
fn open_all(
    stack: &mut Vec<Pending>,
    branches: Seq<Seq<Rel>>,
    known: usize,
) -> Result<(), AllocError>
    ensures { OnOk result (reverse stack.new.items ≡ map (pending known) branches ++ reverse stack.old.items) }
{
    let mut branches = branches.into_vec();
    while let Some(added) = branches.pop() {
        stack.push(Pending { known, added })?;
    }
    Ok(())
}

/// One branch.
fn one_branch(alloc: Global, added: Seq<Rel>) -> Result<Seq<Seq<Rel>>, AllocError>
    ensures { IfOk result (λ s. s ≡ added ∷ []) }
{
    let mut list = Seq::new(alloc);
    list.push(added)?;
    Ok(list)
}

/// Adds a branch of one relation.
fn add_branch(alloc: Global, list: &mut Seq<Seq<Rel>>, relation: Rel) -> Result<(), AllocError>
    ensures { OnOk result (list.new ≡ list.old ++ (relation ∷ []) ∷ []) }
{
    list.push(single(alloc, relation)?)
}

/// Three branches, of one relation each.
fn three_branches(alloc: Global, a: Rel, b: Rel, c: Rel) -> Result<Seq<Seq<Rel>>, AllocError>
    ensures { IfOk result (λ s. s ≡ (a ∷ []) ∷ (b ∷ []) ∷ (c ∷ []) ∷ []) }
{
    let mut list = Seq::new(alloc);
    add_branch(alloc, &mut list, a)?;
    add_branch(alloc, &mut list, b)?;
    add_branch(alloc, &mut list, c)?;
    Ok(list)
}

/// The branches of a split.
fn split_of(alloc: Global, form: &Form) -> Result<Option<Seq<Seq<Rel>>>, FormSum>
    ensures value { IfOk result (λ o. MatchOption o (split_of form.now ≡ Fails) (λ bs. split_of form.now ≡ Gives bs)) }
    ensures wide { TellsTooWide result (split_of form.now) }
{
    let low = below_zero(alloc, form)?;
    let high = above_zero(alloc, form)?;
    let zero = is_zero(copied(form)?);
    Ok(Some(three_branches(alloc, low, zero, high)?))
}

/// No branch, where the multipliers refute what is known.
fn leaf_of(
    alloc: Global,
    first: &[Rel],
    more: &[Rel],
    multipliers: &Mults,
) -> Result<Option<Seq<Seq<Rel>>>, FormSum>
    ensures value { IfOk result (λ o. MatchOption o (leaf_of (first.now ++ more.now) multipliers.now ≡ Fails)
        (λ bs. leaf_of (first.now ++ more.now) multipliers.now ≡ Gives bs)) }
    ensures wide { TellsTooWide result (leaf_of (first.now ++ more.now) multipliers.now) }
{
    if refutes_both(alloc, first, more, multipliers.of.as_slice())? {
        Ok(Some(Seq::new(alloc)))
    } else {
        Ok(None)
    }
}

/// Whether the next multipliers show relations one after the other, and the multipliers after them.
fn all_shown<'a>(
    alloc: Global,
    first: &[Rel],
    more: &mut Vec<Rel>,
    facts: &[Rel],
    multipliers: &'a [Mults],
) -> Result<Option<&'a [Mults]>, FormSum>
    ensures value { IfOk result (λ o. MatchOption o (all_shown (first.now ++ more.old.items) (map sure facts.now) multipliers.now ≡ Fails)
        (λ rest. all_shown (first.now ++ more.old.items) (map sure facts.now) multipliers.now ≡ Gives rest.now)) }
    ensures wide { TellsTooWide result (all_shown (first.now ++ more.old.items) (map sure facts.now) multipliers.now) }
    ensures same { OnOk result (more.new.items ≡ more.old.items) }
{
    let mut left = multipliers;
    for fact in facts {
        match shown(alloc, first, more, fact, left)? {
            Some(rest) => left = rest,
            None => return Ok(None),
        }
    }
    Ok(Some(left))
}

/// Whether the next multipliers show guards at linear values one after the other, and the multipliers after them.
fn guards_shown<'a>(
    alloc: Global,
    first: &[Rel],
    more: &mut Vec<Rel>,
    n: u32,
    own: &[Lin],
    guards: &[Rel],
    multipliers: &'a [Mults],
) -> Result<Option<&'a [Mults]>, FormSum>
    ensures value { IfOk result (λ o. MatchOption o (all_shown (first.now ++ more.old.items)
        (map (fact_at n own.now) guards.now) multipliers.now ≡ Fails)
        (λ rest. all_shown (first.now ++ more.old.items) (map (fact_at n own.now) guards.now) multipliers.now ≡ Gives rest.now)) }
    ensures wide { TellsTooWide result (all_shown (first.now ++ more.old.items) (map (fact_at n own.now) guards.now) multipliers.now) }
    ensures same { OnOk result (more.new.items ≡ more.old.items) }
{
    let mut left = multipliers;
    for guard in guards {
        let fact = relation_at(alloc, n, own, guard)?;
        match shown(alloc, first, more, &fact, left)? {
            Some(rest) => left = rest,
            None => return Ok(None),
        }
    }
    Ok(Some(left))
}

/// What a hypothesis at linear values adds.
fn instance_of(
    alloc: Global,
    first: &[Rel],
    more: &mut Vec<Rel>,
    n: u32,
    clause: &Clause,
    own: &[Lin],
    multipliers: &[Mults],
) -> Result<Option<Seq<Seq<Rel>>>, FormSum>
    ensures value { IfOk result (λ o. MatchOption o (instance_of n (first.now ++ more.old.items) (Some clause.now) own.now multipliers.now
        ≡ Fails) (λ bs. instance_of n (first.now ++ more.old.items) (Some clause.now) own.now multipliers.now ≡ Gives bs)) }
    ensures wide { TellsTooWide result (instance_of n (first.now ++ more.old.items) (Some clause.now) own.now multipliers.now) }
    ensures same { OnOk result (more.new.items ≡ more.old.items) }
{
    if own.len() != clause.vars.len() {
        return Ok(None);
    }
    match guards_shown(
        alloc,
        first,
        more,
        n,
        own,
        clause.guards.as_slice(),
        multipliers,
    )? {
        Some([]) => {
            let added = relation_at(alloc, n, own, &clause.rel)?;
            Ok(Some(one_branch(alloc, single(alloc, added)?)?))
        }
        _ => Ok(None),
    }
}

/// What an axiom adds.
fn use_axiom(
    alloc: Global,
    design: &Design,
    sequent: &Sequent,
    more: &mut Vec<Rel>,
    schema: &Schema,
    multipliers: &[Mults],
) -> Result<Option<Seq<Seq<Rel>>>, FormSum>
    ensures value { IfOk result (λ o. MatchOption o (use_axiom (sequent.now.rels ++ more.old.items)
        (axiom_of design.now sequent.now schema.now) multipliers.now ≡ Fails)
        (λ bs. use_axiom (sequent.now.rels ++ more.old.items) (axiom_of design.now sequent.now schema.now) multipliers.now ≡ Gives bs)) }
    ensures wide { TellsTooWide result (use_axiom (sequent.now.rels ++ more.old.items)
        (axiom_of design.now sequent.now schema.now) multipliers.now) }
    ensures same { OnOk result (more.new.items ≡ more.old.items) }
{
    let Some(need) = need_of(alloc, design, sequent, schema)? else {
        return Ok(None);
    };
    match all_shown(
        alloc,
        sequent.rels.as_slice(),
        more,
        need.facts.as_slice(),
        multipliers,
    )? {
        Some([]) => Ok(Some(one_branch(alloc, need.added)?)),
        _ => Ok(None),
    }
}

/// What the branches behind a node add to what is known, and none where the node fails.
fn node_of(
    alloc: Global,
    design: &Design,
    sequent: &Sequent,
    more: &mut Vec<Rel>,
    node: &Node,
) -> Result<Option<Seq<Seq<Rel>>>, FormSum>
    ensures value { IfOk result (λ o. MatchOption o (node_of design.now sequent.now (sequent.now.rels ++ more.old.items) node.now ≡ Fails)
        (λ bs. node_of design.now sequent.now (sequent.now.rels ++ more.old.items) node.now ≡ Gives bs)) }
    ensures wide { TellsTooWide result (node_of design.now sequent.now (sequent.now.rels ++ more.old.items) node.now) }
    ensures same { OnOk result (more.new.items ≡ more.old.items) }
{
    let first = sequent.rels.as_slice();
    match node {
        Node::Split(form) => split_of(alloc, form),
        Node::Inst(h, own, multipliers) => match sequent.hyps.as_slice().get(*h as usize) {
            Some(clause) => instance_of(
                alloc,
                first,
                more,
                sequent.vars,
                clause,
                own.as_slice(),
                multipliers.as_slice(),
            ),
            None => Ok(None),
        },
        Node::Axiom(schema, multipliers) => use_axiom(
            alloc,
            design,
            sequent,
            more,
            schema,
            multipliers.as_slice(),
        ),
        Node::Leaf(multipliers) => leaf_of(alloc, first, more.as_slice(), multipliers),
    }
}

/// An error within a node, at that node.
fn at_node(error: FormSum, node: u64) -> ProofError
    ensures { result ≡ at_node node error }
{
    match error {
        FormSum::Wide => ProofError::Wide(node),
        FormSum::Memory => ProofError::Memory,
    }
}

/// The branch that a proof begins with, where a relation is known beside those of the sequent.
fn first_open(alloc: Global, goal: Rel) -> Result<Vec<Pending>, AllocError>
    ensures { IfOk result (λ v. v.items ≡ pending 0 (goal ∷ []) ∷ []) }
{
    let added = single(alloc, goal)?;
    let mut open = Vec::new(alloc);
    open.push(Pending { known: 0, added })?;
    Ok(open)
}

/// Whether the nodes end all branches, where the goal isn't met.
fn walk(
    alloc: Global,
    design: &Design,
    sequent: &Sequent,
    goal: Rel,
    nodes: &[Node],
) -> Result<bool, ProofError>
    ensures value { IfOk result (λ yes. walked design.now sequent.now 0 nodes.now ((sequent.now.rels ++ goal ∷ []) ∷ [])
        ≡ (if yes then Proved else NotProved)) }
    ensures wide { TellsNode result (walked design.now sequent.now 0 nodes.now ((sequent.now.rels ++ goal ∷ []) ∷ [])) }
{
    let mut more = Vec::new(alloc);
    let mut open = first_open(alloc, goal)?;
    let mut number = 0u64;
    for node in nodes {
        let Some(branch) = open.pop() else {
            return Ok(false);
        };
        resume(&mut more, branch)?;
        match node_of(alloc, design, sequent, &mut more, node) {
            Err(error) => return Err(at_node(error, number)),
            Ok(None) => return Ok(false),
            Ok(Some(branches)) => open_all(&mut open, branches, more.len())?,
        }
        number += 1;
    }
    Ok(open.is_empty())
}

/// Whether a list of nodes is a proof of a sequent.
fn judged(
    alloc: Global,
    design: &Design,
    sequent: &Sequent,
    nodes: &[Node],
) -> Result<bool, ProofError>
    ensures value { IfOk result (λ yes. verdict design.now sequent.now nodes.now ≡ (if yes then Proved else NotProved)) }
    ensures wide { TellsNode result (verdict design.now sequent.now nodes.now) }
{
    let goal = above_zero(alloc, &sequent.goal).map_err(|e| at_node(e, 0))?;
    walk(alloc, design, sequent, goal, nodes)
}

/// Whether a list of nodes is a proof of a sequent over the tables and types of a design; then the sequent is true.
///
/// `Wide` exactly where a number at that node is too large before any node fails. `Memory` where memory ran out.
pub fn proves(
    alloc: Global,
    design: &Design,
    sequent: &Sequent,
    proof: &Proof,
) -> Result<bool, ProofError>
    ensures value { IfOk result (λ yes. verdict design.now sequent.now proof.now.nodes ≡ (if yes then Proved else NotProved)) }
    ensures wide { TellsNode result (verdict design.now sequent.now proof.now.nodes) }
    ensures law { IfOk result (λ yes. IsTrue yes → SequentTrue design.now sequent.now) }
{
    judged(alloc, design, sequent, proof.nodes.as_slice())
}
