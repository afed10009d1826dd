//! Nodes of a proof some of which are left out: the places of relations are told anew.
use crate::pruning::{Left, added_by, branches_of};
use acc_axioms::nodes::Node;
use acc_base::sequences::{Seq, copied};
use acc_farkas::refuting::Mults;
use std::alloc::{AllocError, Global};

/// A branch: of each relation that is known in the whole proof its place in what is left, and how many are left.
#[derive(Drop)]
struct Places {
    of: Vec<u32>,
    left: u32,
}

/// The places at first, where all stay.
fn first_places(alloc: Global, first: usize) -> Result<Places, AllocError> {
    let mut of = Vec::new(alloc);
    let mut left = 0u32;
    for _relation in 0..first {
        of.push(left)?;
        left = left.saturating_add(1);
    }
    Ok(Places { of, left })
}

/// The places behind a node, where it stays and where it doesn't.
fn places_behind(
    alloc: Global,
    places: &Places,
    added: usize,
    stays: bool,
) -> Result<Places, AllocError> {
    let mut of = places.of.clone()?;
    let mut left = places.left;
    for _relation in 0..added {
        of.push(left)?;
        if stays {
            left = left.saturating_add(1);
        }
    }
    Ok(Places { of, left })
}

/// The multipliers at their new places. The contrary of a fact stands behind all that is known.
fn moved(alloc: Global, places: &Places, multipliers: &Mults) -> Result<Mults, AllocError> {
    let mut of = Seq::new(alloc);
    for (place, by) in multipliers.of.as_slice() {
        let place = match places.of.get(*place as usize) {
            Some(place) => *place,
            None => places.left,
        };
        of.push((place, *by))?;
    }
    Ok(Mults { of })
}

fn moved_lists(alloc: Global, places: &Places, lists: &[Mults]) -> Result<Seq<Mults>, AllocError> {
    let mut all = Seq::new(alloc);
    for multipliers in lists {
        all.push(moved(alloc, places, multipliers)?)?;
    }
    Ok(all)
}

/// A node with its multipliers at their new places.
fn moved_node(alloc: Global, places: &Places, node: &Node) -> Result<Node, AllocError> {
    match node {
        Node::Split(form) => Ok(Node::Split(copied(form)?)),
        Node::Inst(h, values, lists) => {
            let values = copied(values)?;
            let lists = moved_lists(alloc, places, lists.as_slice())?;
            Ok(Node::Inst(*h, values, lists))
        }
        Node::Axiom(schema, lists) => {
            let lists = moved_lists(alloc, places, lists.as_slice())?;
            Ok(Node::Axiom(copied(schema)?, lists))
        }
        Node::Leaf(multipliers) => Ok(Node::Leaf(moved(alloc, places, multipliers)?)),
    }
}

/// The branch with this number behind a node, if it is left.
fn branch_behind(
    alloc: Global,
    places: &Places,
    node: &Node,
    left: Left,
    branch: usize,
) -> Result<Option<Places>, AllocError> {
    match left {
        Left::All => Ok(Some(places_behind(alloc, places, added_by(node), true)?)),
        Left::Branch(number) if number == branch => {
            Ok(Some(places_behind(alloc, places, added_by(node), false)?))
        }
        Left::Branch(_) => Ok(None),
    }
}

/// Opens the branches behind a node, the first one next.
fn open_behind(
    alloc: Global,
    open: &mut Vec<Option<Places>>,
    places: &Places,
    node: &Node,
    left: Left,
) -> Result<(), AllocError> {
    for branch in (0..branches_of(node)).rev() {
        open.push(branch_behind(alloc, places, node, left, branch)?)?;
    }
    Ok(())
}

/// Opens the branches behind a node of a branch that isn't left.
fn open_none(open: &mut Vec<Option<Places>>, node: &Node) -> Result<(), AllocError> {
    for _branch in 0..branches_of(node) {
        open.push(None)?;
    }
    Ok(())
}

/// Adds the next node, if it is left, and opens the branches behind it.
fn add_node(
    alloc: Global,
    nodes: &mut Seq<Node>,
    open: &mut Vec<Option<Places>>,
    node: &Node,
    left: Left,
) -> Result<(), AllocError> {
    let Some(Some(places)) = open.pop() else {
        return open_none(open, node);
    };
    if let Left::All = left {
        nodes.push(moved_node(alloc, &places, node)?)?;
    }
    open_behind(alloc, open, &places, node, left)
}

/// The nodes that are left, where it is told of each what is left of it, from the last one on, and so many relations are known first.
pub(crate) fn renumbered(
    alloc: Global,
    first: usize,
    all: &[Node],
    left: Vec<Left>,
) -> Result<Seq<Node>, AllocError> {
    let mut left = left;
    let mut nodes = Seq::new(alloc);
    let mut open = Vec::new(alloc);
    open.push(Some(first_places(alloc, first)?))?;
    for node in all {
        let left = left.pop().unwrap_or(Left::All);
        add_node(alloc, &mut nodes, &mut open, node, left)?;
    }
    Ok(nodes)
}
