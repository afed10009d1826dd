//! Leaving out what a proof doesn't need: a node one of whose branches uses nothing that the node adds to it. That branch stands in the
//! node's place, so an instance or an axiom goes alone, and a split goes with its other branches.
//!
//! No clause says that what is left is a proof: the search asks that of the checker. The nodes are gone through once from the last to
//! the first, so what is left has no such node. The cost is that of the proof's length times the relations that are known.
use crate::renumbering::renumbered;
use acc_axioms::kinds::AxiomKind;
use acc_axioms::nodes::Node;
use acc_base::sequences::Seq;
use acc_farkas::refuting::Mults;
use std::alloc::{AllocError, Global};

/// How many branches are open behind a node.
pub(crate) fn branches_of(node: &Node) -> usize {
    match node {
        Node::Split(_) => 3,
        Node::Inst(_, _, _) | Node::Axiom(_, _) => 1,
        Node::Leaf(_) => 0,
    }
}

/// How many relations an axiom of a kind adds.
fn added_by_axiom(kind: AxiomKind) -> usize {
    match kind {
        AxiomKind::Has => 2,
        AxiomKind::Count | AxiomKind::Front | AxiomKind::Same => 1,
        AxiomKind::NoCol | AxiomKind::NoSum | AxiomKind::OneCount | AxiomKind::OneSum => 1,
        AxiomKind::Opened | AxiomKind::Shut | AxiomKind::Empty | AxiomKind::Fresh => 1,
    }
}

/// How many relations each of them adds.
pub(crate) fn added_by(node: &Node) -> usize {
    match node {
        Node::Split(_) | Node::Inst(_, _, _) => 1,
        Node::Axiom(schema, _) => added_by_axiom(schema.kind()),
        Node::Leaf(_) => 0,
    }
}

fn open_behind(open: &mut Vec<usize>, known: usize, node: &Node) -> Result<(), AllocError> {
    for _branch in 0..branches_of(node) {
        open.push(known.saturating_add(added_by(node)))?;
    }
    Ok(())
}

/// How many relations are known at each node.
fn known_counts(alloc: Global, first: usize, nodes: &[Node]) -> Result<Vec<usize>, AllocError> {
    let mut counts = Vec::new(alloc);
    let mut open = Vec::new(alloc);
    open.push(first)?;
    for node in nodes {
        let known = open.pop().unwrap_or(0);
        counts.push(known)?;
        open_behind(&mut open, known, node)?;
    }
    Ok(counts)
}

/// Marks the place of a relation as used.
fn mark(used: &mut Vec<bool>, place: usize) -> Result<(), AllocError> {
    for _missing in used.len()..place.saturating_add(1) {
        used.push(false)?;
    }
    if let Some(mark) = used.get_mut(place) {
        *mark = true;
    }
    Ok(())
}

/// Marks the places of multipliers that are below a number.
fn mark_all(used: &mut Vec<bool>, known: usize, multipliers: &Mults) -> Result<(), AllocError> {
    for (place, _) in multipliers.of.as_slice() {
        let place = *place as usize;
        if place < known {
            mark(used, place)?;
        }
    }
    Ok(())
}

fn mark_lists(used: &mut Vec<bool>, known: usize, lists: &[Mults]) -> Result<(), AllocError> {
    for multipliers in lists {
        mark_all(used, known, multipliers)?;
    }
    Ok(())
}

/// Marks what a node uses.
fn mark_node(used: &mut Vec<bool>, known: usize, node: &Node) -> Result<(), AllocError> {
    match node {
        Node::Split(_) => Ok(()),
        Node::Inst(_, _, lists) => mark_lists(used, known, lists.as_slice()),
        Node::Axiom(_, lists) => mark_lists(used, known, lists.as_slice()),
        Node::Leaf(multipliers) => mark_all(used, known, multipliers),
    }
}

/// Marks what others mark too.
fn mark_others(used: &mut Vec<bool>, others: &[bool]) -> Result<(), AllocError> {
    for place in 0..others.len() {
        if others[place] {
            mark(used, place)?;
        }
    }
    Ok(())
}

/// What is left of a node and of the branches behind it.
#[derive(Clone, Copy)]
pub(crate) enum Left {
    /// The node, and each of its branches.
    All,
    /// The branch with this number alone, in the node's place.
    Branch(usize),
}

/// What the branches behind a node use, the first one first: they are taken off those that are open.
fn uses_behind(
    alloc: Global,
    open: &mut Vec<Vec<bool>>,
    node: &Node,
) -> Result<Vec<Vec<bool>>, AllocError> {
    let mut behind = Vec::new(alloc);
    for _branch in 0..branches_of(node) {
        if let Some(used) = open.pop() {
            behind.push(used)?;
        }
    }
    Ok(behind)
}

/// Whether a place from a first one on is used.
fn is_used_from(used: &[bool], first: usize) -> bool {
    for place in first..used.len() {
        if used[place] {
            return true;
        }
    }
    false
}

/// The number of the first branch that uses no relation from this one on.
fn first_without(behind: &[Vec<bool>], known: usize) -> Option<usize> {
    for number in 0..behind.len() {
        if !is_used_from(behind[number].as_slice(), known) {
            return Some(number);
        }
    }
    None
}

/// What a node where so many relations are known uses, and the branches behind it.
fn used_by_all(
    alloc: Global,
    known: usize,
    node: &Node,
    behind: &[Vec<bool>],
) -> Result<Vec<bool>, AllocError> {
    let mut used = Vec::new(alloc);
    for others in behind {
        mark_others(&mut used, others.as_slice())?;
    }
    used.truncate(known);
    mark_node(&mut used, known, node)?;
    Ok(used)
}

/// What is left of a node where so many relations are known. What that uses comes in place of what the branches behind the node use.
fn take_node(
    alloc: Global,
    open: &mut Vec<Vec<bool>>,
    known: usize,
    node: &Node,
) -> Result<Left, AllocError> {
    let mut behind = uses_behind(alloc, open, node)?;
    match first_without(behind.as_slice(), known) {
        Some(number) if number < behind.len() => {
            open.push(behind.swap_remove(number))?;
            Ok(Left::Branch(number))
        }
        _ => {
            open.push(used_by_all(alloc, known, node, behind.as_slice())?)?;
            Ok(Left::All)
        }
    }
}

/// What is left of each node, the last one first.
fn left_of(alloc: Global, counts: Vec<usize>, nodes: &[Node]) -> Result<Vec<Left>, AllocError> {
    let mut counts = counts;
    let mut open = Vec::new(alloc);
    let mut left = Vec::new(alloc);
    for _node in 0..nodes.len() {
        let known = counts.pop().unwrap_or(0);
        if let Some(node) = nodes.get(counts.len()) {
            left.push(take_node(alloc, &mut open, known, node)?)?;
        }
    }
    Ok(left)
}

/// The nodes that are left, where so many relations are known first.
pub fn pruned(alloc: Global, first: usize, nodes: &[Node]) -> Result<Seq<Node>, AllocError> {
    let counts = known_counts(alloc, first, nodes)?;
    let left = left_of(alloc, counts, nodes)?;
    renumbered(alloc, first, nodes, left)
}
