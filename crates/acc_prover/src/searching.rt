//! The search for a proof of a sequent.
ghost use Rattle.std.specs.Prelude.{◌≡◌, IsTrue, IfOk};
ghost use Rattle.acc_base.specs.TrueSequents.{SequentTrue};
ghost use Rattle.acc_cert_bounds.specs.InBounds.{nodes as are_in_bounds, nodes_near as are_near};
ghost use Rattle.acc_prover_searched.specs.Searches.{course};
ghost use Rattle.acc_prover_searched.specs.Courses.{IsProof};
ghost use Rattle.acc_prover_searched.specs.OpenLeaves.{IsOpenLeaf};
ghost use Rattle.acc_prover.specs.Tellings.{Tells, IfProved, IfUnproved, KeepsProof};

use crate::found::{Found, SearchError};
use acc_axioms::nodes::{Node, Proof};
use acc_base::designs::Design;
use acc_base::forms::Lin;
use acc_base::sequences::Seq;
use acc_base::sequents::Sequent;
use acc_cert_bounds::bounded::Bounded;
use acc_proof::checks::proves;
use acc_proof::errors::ProofError;
use acc_prover_pruning::pruning::pruned;
use acc_prover_searched::{Halt, course};
use std::alloc::{AllocError, Global};

/// The proof that has these nodes; a certificate's file can hold its numbers.
fn whole(nodes: Seq<Node>) -> Proof
    requires { IsTrue (are_near nodes) }
    ensures nodes { result.nodes ≡ nodes }
    ensures bounds { IsTrue (are_in_bounds result.nodes) }
{
    prove!(nodes.is_in_bounds());
    Proof { nodes }
}

/// The nodes of a proof without those that nothing uses, where that is a proof too and a certificate's file can hold its numbers, and else
/// all of them.
fn shorter(
    alloc: Global,
    design: &Design,
    sequent: &Sequent,
    nodes: Seq<Node>,
) -> Result<Proof, AllocError>
    requires { IsTrue (are_near nodes) }
    ensures proof { IsProof design.now sequent.now nodes → IfOk result (λ p. IsProof design.now sequent.now p.nodes) }
    ensures bounds { IfOk result (λ p. IsTrue (are_in_bounds p.nodes)) }
{
    let first = sequent.rels.len().saturating_add(1);
    let nodes_left = pruned(alloc, first, nodes.as_slice())?;
    let left = Proof { nodes: nodes_left };
    match proves(alloc, design, sequent, &left) {
        Ok(true) if left.is_in_bounds() => Ok(left),
        Ok(_) => Ok(whole(nodes)),
        Err(ProofError::Wide(_)) => Ok(whole(nodes)),
        Err(ProofError::Memory) => Err(AllocError),
    }
}

/// What is found where the search ends so.
fn found(
    alloc: Global,
    design: &Design,
    sequent: &Sequent,
    end: Result<Seq<Node>, Halt>,
) -> Result<Found, SearchError>
    requires { IfOk end (λ nodes. IsTrue (are_near nodes)) }
    ensures kind { Tells result end }
    ensures proof { KeepsProof design.now sequent.now end result }
    ensures bounds { IfProved result (λ nodes. IsTrue (are_in_bounds nodes)) }
{
    match end {
        Ok(nodes) => Ok(Found::Proved(shorter(alloc, design, sequent, nodes)?)),
        Err(Halt::Open(leaf, point)) => Ok(Found::Unproved(leaf, point)),
        Err(Halt::Crowded) => Err(SearchError::Crowded),
        Err(Halt::Wide) => Err(SearchError::Wide),
        Err(Halt::Many) => Err(SearchError::Many),
        Err(Halt::Memory) => Err(SearchError::Memory),
    }
}

/// Searches for a proof of a sequent of a design, where the hints are linear values of its variables. The instances of the hypotheses and
/// the forms to split by are listed first. Then the search knows the sequent's relations and that its goal is above 0, and goes depth
/// first: elimination is tried at each branch, then the instances whose guards and the axioms whose facts it shows are added, then the
/// next split opens three branches.
///
/// `Proved` has a proof that is accepted, so the sequent is true, and whose numbers a certificate's file can hold. `Unproved` has what is
/// known in the first branch that stays open, and a point at which all of that holds.
///
/// `Crowded` where there are over 4,096 instances or over 256 splits; `Wide` where a number is too large, and `Many` where a system has
/// over 4,096 relations, whichever comes first. `Memory` where memory ran out, or where there are 2^32 hypotheses, variables, relations or
/// unknowns, or values that an unknown stands under; it says nothing of the sequent.
///
/// Each branch tries each instance and each axiom by eliminations, and the splits may triple the branches each.
pub fn search(
    alloc: Global,
    design: &Design,
    sequent: &Sequent,
    hints: &[Lin],
) -> Result<Found, SearchError>
    ensures kind { Tells result (course design.now sequent.now hints.now) }
    ensures accepted { IfProved result (IsProof design.now sequent.now) }
    ensures bounds { IfProved result (λ nodes. IsTrue (are_in_bounds nodes)) }
    ensures law { IfProved result (λ nodes. SequentTrue design.now sequent.now) }
    ensures leaf { IfUnproved result (IsOpenLeaf sequent.now hints.now) }
{
    let end = course(alloc, design, sequent, hints);
    found(alloc, design, sequent, end)
}
