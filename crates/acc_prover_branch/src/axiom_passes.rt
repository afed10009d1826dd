//! The pass over axioms.
ghost use Rattle.std.specs.Prelude.{◌≡◌, ◌++◌, true, Some, OnOk};
ghost use Rattle.acc_axioms.specs.Axioms.{demand};
ghost use Rattle.acc_prover_branch.specs.Courses.{LeavesCourse};
ghost use Rattle.acc_prover_branch.specs.Known.{known_of};
ghost use Rattle.acc_prover_branch.specs.AxiomPasses.{with_axiom, try_demand, try_axiom, try_kind, axioms_pass};

use crate::halts::Halt;
use crate::known::{Branch, shows_all};
use acc_axioms::axioms::{Need, need_of};
use acc_axioms::kinds::AxiomKind;
use acc_axioms::nodes::{Node, Schema};
use acc_base::designs::Design;
use acc_base::forms::Rel;
use acc_base::sequences::{Seq, copied};
use acc_base::sequents::Sequent;
use acc_elim::solver::Solver;
use acc_farkas::refuting::Mults;
use acc_prover_candidates::candidates::candidates;
use acc_prover_candidates::kinds::all_kinds;
use acc_prover_candidates::schemas::is_among;
use std::alloc::{AllocError, Global};

/// Adds relations behind the others.
fn add_rels(rels: &mut Solver, added: Seq<Rel>) -> Result<(), AllocError>
    ensures { OnOk result (rels.new ≡ rels.old ++ added) }
{
    for rel in added.into_vec() {
        rels.push(rel)?;
    }
    Ok(())
}

/// Adds what an axiom says, and its node.
fn add_axiom(
    known: &mut Branch,
    nodes: &mut Vec<Node>,
    schema: &Schema,
    added: Seq<Rel>,
    found: Vec<Mults>,
) -> Result<(), AllocError>
    ensures { OnOk result ((known_of known.new, nodes.new.items)
        ≡ with_axiom (known_of known.old, nodes.old.items) schema.now added (Some found.items)) }
{
    add_rels(&mut known.rels, added)?;
    known.axioms.push(copied(schema)?)?;
    nodes.push(Node::Axiom(copied(schema)?, Seq::from_vec(found)))?;
    Ok(())
}

/// Adds an axiom that may be used, where what it needs is shown.
fn try_need(
    alloc: Global,
    known: &mut Branch,
    nodes: &mut Vec<Node>,
    schema: &Schema,
    need: Need,
) -> Result<(), Halt>
    ensures { LeavesCourse result (known_of known.new, nodes.new.items)
        (try_demand (known_of known.old, nodes.old.items) schema.now (demand true need.facts need.added)) }
{
    let mut found = Vec::new(alloc);
    let facts = need.facts.as_slice();
    if !shows_all(alloc, &mut known.rels, &mut found, facts)? {
        return Ok(());
    }
    add_axiom(known, nodes, schema, need.added, found)?;
    Ok(())
}

/// Adds an axiom, unless it was added, where it may be used and what it needs is shown.
fn try_axiom(
    alloc: Global,
    design: &Design,
    sequent: &Sequent,
    known: &mut Branch,
    nodes: &mut Vec<Node>,
    schema: &Schema,
) -> Result<(), Halt>
    ensures { LeavesCourse result (known_of known.new, nodes.new.items)
        (try_axiom design.now sequent.now (known_of known.old, nodes.old.items) schema.now) }
{
    if is_among(known.axioms.as_slice(), schema) {
        return Ok(());
    }
    match need_of(alloc, design, sequent, schema)? {
        None => Ok(()),
        Some(need) => try_need(alloc, known, nodes, schema, need),
    }
}

/// Adds the axioms of a kind for what is known when its turn comes.
fn try_kind(
    alloc: Global,
    design: &Design,
    sequent: &Sequent,
    known: &mut Branch,
    nodes: &mut Vec<Node>,
    kind: AxiomKind,
) -> Result<(), Halt>
    ensures { LeavesCourse result (known_of known.new, nodes.new.items)
        (try_kind design.now sequent.now (known_of known.old, nodes.old.items) kind) }
{
    let names = known.rels.unknowns(alloc)?;
    let tried = candidates(alloc, names.as_slice(), kind)?;
    for schema in &tried {
        try_axiom(alloc, design, sequent, known, nodes, schema)?;
    }
    Ok(())
}

/// Adds each axiom of which is shown what it demands, kind by kind, with a node for each. Each fact that is asked costs an elimination, and
/// an equation two.
pub fn axioms_pass(
    alloc: Global,
    design: &Design,
    sequent: &Sequent,
    known: &mut Branch,
    nodes: &mut Vec<Node>,
) -> Result<(), Halt>
    ensures { LeavesCourse result (known_of known.new, nodes.new.items)
        (axioms_pass design.now sequent.now (known_of known.old, nodes.old.items)) }
{
    let kinds = all_kinds();
    for kind in &kinds {
        try_kind(alloc, design, sequent, known, nodes, *kind)?;
    }
    Ok(())
}
