//! The course of a search: the nodes of its proof, or what ends it.
ghost use Rattle.std.specs.Prelude.{◌≡◌, Ok, map, IfOk, MatchResult};
ghost use Rattle.acc_inst.specs.Making.{instance_of};
ghost use Rattle.acc_inst.specs.Lists.{lists_of};
ghost use Rattle.acc_base.specs.Computing.{chain};
ghost use Rattle.acc_prover_branch.specs.Courses.{AnswersCourse, LeavesCourse, StoppedBy};
ghost use Rattle.acc_prover_branch.specs.Known.{known_of, try_above_zero};
ghost use Rattle.acc_prover_course.specs.Searches.{branch, of_lists, starting, started, course};

use crate::branches::branch;
use acc_axioms::nodes::Node;
use acc_base::designs::Design;
use acc_base::forms::{Form, Lin, Rel};
use acc_base::sequences::Seq;
use acc_base::sequents::Sequent;
use acc_inst::listing::InstError;
use acc_inst::lists::{Made, made_lists};
use acc_inst::making::Instance;
use acc_prover_branch::Solver;
use acc_prover_branch::halts::Halt;
use acc_prover_branch::known::{Branch, try_above_zero};
use acc_prover_candidates::copies::copied_rels;
use std::alloc::{AllocError, Global};

/// The lists of a sequent with what its instances say.
fn listed(alloc: Global, sequent: &Sequent, hints: &[Lin]) -> Result<Made, Halt>
    ensures value { MatchResult result (λ m. of_lists (lists_of sequent.now hints.now) ≡ Ok m.listed)
        (λ e. StoppedBy e (of_lists (lists_of sequent.now hints.now))) }
    ensures made { IfOk result (λ m. m.made ≡ map (instance_of sequent.now) m.listed.insts) }
{
    match made_lists(alloc, sequent, hints) {
        Ok(made) => Ok(made),
        Err(InstError::Crowded) => Err(Halt::Crowded),
        Err(InstError::Wide) => Err(Halt::Wide),
        Err(InstError::Memory) => Err(Halt::Memory),
    }
}

/// A branch that knows the relations of a sequent, and that its goal isn't met.
fn starting(alloc: Global, sequent: &Sequent, contrary: Rel) -> Result<Branch, AllocError>
    ensures { IfOk result (λ b. known_of b ≡ starting sequent.now contrary) }
{
    let mut rels = copied_rels(alloc, sequent.rels.as_slice())?;
    rels.push(contrary)?;
    Ok(Branch {
        rels: Solver::new(alloc, rels),
        insts: Vec::new(alloc),
        axioms: Vec::new(alloc),
    })
}

/// The nodes of the search behind others, where these are the instances and the splits.
fn add_nodes(
    alloc: Global,
    design: &Design,
    sequent: &Sequent,
    made: &[Instance],
    splits: &[Form],
    nodes: &mut Vec<Node>,
) -> Result<(), Halt>
    ensures { LeavesCourse result nodes.new.items (chain (try_above_zero sequent.now.goal) (λ contrary.
        branch design.now sequent.now made.now splits.now (starting sequent.now contrary, nodes.old.items))) }
{
    let contrary = try_above_zero(alloc, &sequent.goal)?;
    let mut known = starting(alloc, sequent, contrary)?;
    branch(alloc, design, sequent, made, &mut known, nodes, splits)
}

/// The nodes of the search, where these are the instances and the splits.
fn started(
    alloc: Global,
    design: &Design,
    sequent: &Sequent,
    made: &[Instance],
    splits: &[Form],
) -> Result<Seq<Node>, Halt>
    ensures { AnswersCourse result (started design.now sequent.now made.now splits.now) }
{
    let mut nodes = Vec::new(alloc);
    add_nodes(alloc, design, sequent, made, splits, &mut nodes)?;
    Ok(Seq::from_vec(nodes))
}

/// The nodes of the search for a proof of a sequent of a design, or what ends it: instances and splits are listed with these hints, and
/// the branches are walked depth first. Each branch tries each instance and each axiom by eliminations, and a split opens three.
pub fn course(
    alloc: Global,
    design: &Design,
    sequent: &Sequent,
    hints: &[Lin],
) -> Result<Seq<Node>, Halt>
    ensures { AnswersCourse result (course design.now sequent.now hints.now) }
{
    let lists = listed(alloc, sequent, hints)?;
    let made = lists.made.as_slice();
    let splits = lists.listed.splits.as_slice();
    started(alloc, design, sequent, made, splits)
}
