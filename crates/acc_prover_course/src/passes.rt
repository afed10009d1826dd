//! The two passes of a branch.
ghost use Rattle.std.specs.Prelude.{◌≡◌, Some, OnOk};
ghost use Rattle.std.specs.List.{list_any};
ghost use Rattle.acc_prover_branch.specs.Courses.{LeavesCourse};
ghost use Rattle.acc_prover_branch.specs.Known.{known_of};
ghost use Rattle.acc_prover_course.specs.Passes.{is_place, with_instance, try_instance, instances_pass, passes};

use acc_axioms::nodes::Node;
use acc_base::designs::Design;
use acc_base::sequences::{Seq, copied};
use acc_base::sequents::Sequent;
use acc_farkas::refuting::Mults;
use acc_inst::making::Instance;
use acc_prover_branch::axiom_passes::axioms_pass;
use acc_prover_branch::halts::Halt;
use acc_prover_branch::known::{Branch, shows_all};
use std::alloc::{AllocError, Global};

fn is_added(insts: &[usize], i: usize) -> bool
    ensures { result ≡ list_any (is_place i) insts.now }
{
    for j in insts {
        if *j == i {
            return true;
        }
    }
    false
}

/// Adds what an instance says, and its node.
fn add_instance(
    known: &mut Branch,
    nodes: &mut Vec<Node>,
    i: usize,
    instance: &Instance,
    found: Vec<Mults>,
) -> Result<(), AllocError>
    ensures { OnOk result ((known_of known.new, nodes.new.items)
        ≡ with_instance (known_of known.old, nodes.old.items) i instance.now (Some found.items)) }
{
    known.rels.push(copied(&instance.rel)?)?;
    known.insts.push(i)?;
    let values = copied(&instance.values)?;
    nodes.push(Node::Inst(instance.hypothesis, values, Seq::from_vec(found)))?;
    Ok(())
}

/// Adds an instance, unless it was added, where its guards are shown.
fn try_instance(
    alloc: Global,
    known: &mut Branch,
    nodes: &mut Vec<Node>,
    i: usize,
    instance: &Instance,
) -> Result<(), Halt>
    ensures { LeavesCourse result (known_of known.new, nodes.new.items)
        (try_instance (known_of known.old, nodes.old.items) i instance.now) }
{
    if is_added(known.insts.as_slice(), i) {
        return Ok(());
    }
    let mut found = Vec::new(alloc);
    let guards = instance.guards.as_slice();
    if !shows_all(alloc, &mut known.rels, &mut found, guards)? {
        return Ok(());
    }
    add_instance(known, nodes, i, instance, found)?;
    Ok(())
}

/// Adds each instance that isn't added and whose guards are shown.
fn instances_pass(
    alloc: Global,
    known: &mut Branch,
    nodes: &mut Vec<Node>,
    made: &[Instance],
) -> Result<(), Halt>
    ensures { LeavesCourse result (known_of known.new, nodes.new.items) (instances_pass made.now (known_of known.old, nodes.old.items)) }
{
    let mut i = 0;
    for instance in made {
        try_instance(alloc, known, nodes, i, instance)?;
        i += 1;
    }
    Ok(())
}

/// Both passes: what they add to what is known, with a node for each instance and each axiom. Each fact costs one elimination, or two.
pub fn passes(
    alloc: Global,
    design: &Design,
    sequent: &Sequent,
    made: &[Instance],
    known: &mut Branch,
    nodes: &mut Vec<Node>,
) -> Result<(), Halt>
    ensures { LeavesCourse result (known_of known.new, nodes.new.items)
        (passes design.now sequent.now made.now (known_of known.old, nodes.old.items)) }
{
    instances_pass(alloc, known, nodes, made)?;
    axioms_pass(alloc, design, sequent, known, nodes)
}
