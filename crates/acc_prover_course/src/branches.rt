//! The branches of a search, depth first.
ghost use Rattle.std.specs.Prelude.{◌≡◌, ◌++◌, ◌∷◌, [], Ok, Some, IfOk, OnOk, MatchResult};
ghost use Rattle.acc_base.specs.Forms.{is_zero};
ghost use Rattle.acc_axioms.specs.declared.nodes.Node.TheVariants.{Split};
ghost use Rattle.acc_prover_branch.specs.Courses.{AnswersCourse, LeavesCourse, LeavesWith, StoppedBy};
ghost use Rattle.acc_prover_branch.specs.Known.{known_of};
ghost use Rattle.acc_prover_course.specs.Searches.{knowing, point_in, nodes_ended, ended, tried, closing, relation, under, leaf_end};
ghost use Rattle.acc_prover_course.specs.Searches.{branch_under, three, branch};

use crate::passes::passes;
use acc_axioms::nodes::Node;
use acc_axioms::terms::is_zero;
use acc_base::designs::Design;
use acc_base::forms::{Form, Rel};
use acc_base::sequences::{Seq, copied};
use acc_base::sequents::Sequent;
use acc_inst::making::Instance;
use acc_prover_branch::halts::Halt;
use acc_prover_branch::known::{Branch, try_above_zero, try_below_zero, verdict};
use acc_prover_branch::{Solver, Verdict};
use acc_prover_candidates::copies::{copied_numbers, copied_rels, copied_schemas};
use std::alloc::{AllocError, Global};

/// The sign of a split's form in one of its branches.
#[derive(Clone, Copy)]
pub enum Sign {
    Below,
    Zero,
    Above,
}

/// A branch that knows one more relation.
fn knowing(alloc: Global, known: &Branch, rel: Rel) -> Result<Branch, AllocError>
    ensures { IfOk result (λ b. known_of b ≡ knowing (known_of known.now) rel) }
{
    let mut rels = copied_rels(alloc, known.rels.as_slice())?;
    rels.push(rel)?;
    let insts = copied_numbers(alloc, known.insts.as_slice())?;
    let axioms = copied_schemas(alloc, known.axioms.as_slice())?;
    Ok(Branch {
        rels: Solver::new(alloc, rels),
        insts,
        axioms,
    })
}

/// A leaf behind the nodes, where what is known is refuted; else a point at which it holds.
fn ended(nodes: &mut Vec<Node>, verdict: Verdict) -> Result<Option<Seq<(i128, i128)>>, AllocError>
    ensures nodes { OnOk result (nodes.new.items ≡ nodes_ended nodes.old.items verdict) }
    ensures point { IfOk result (λ o. o ≡ point_in verdict) }
{
    match verdict {
        Verdict::Refuted(multipliers) => {
            nodes.push(Node::Leaf(multipliers))?;
            Ok(None)
        }
        Verdict::Solved(point) => Ok(Some(point)),
    }
}

/// What is known after both passes, and a point where that isn't refuted.
fn tried(
    alloc: Global,
    design: &Design,
    sequent: &Sequent,
    made: &[Instance],
    known: &mut Branch,
    nodes: &mut Vec<Node>,
) -> Result<Option<Seq<(i128, i128)>>, Halt>
    ensures { LeavesWith result (known_of known.new, nodes.new.items)
        (tried design.now sequent.now made.now (known_of known.old, nodes.old.items)) }
{
    passes(alloc, design, sequent, made, known, nodes)?;
    let verdict = verdict(alloc, &mut known.rels)?;
    let point = ended(nodes, verdict)?;
    Ok(point)
}

/// The same where nothing is added to what is refuted at the beginning.
fn closing(
    alloc: Global,
    design: &Design,
    sequent: &Sequent,
    made: &[Instance],
    known: &mut Branch,
    nodes: &mut Vec<Node>,
) -> Result<Option<Seq<(i128, i128)>>, Halt>
    ensures { LeavesWith result (known_of known.new, nodes.new.items)
        (closing design.now sequent.now made.now (known_of known.old, nodes.old.items)) }
{
    match verdict(alloc, &mut known.rels)? {
        Verdict::Refuted(multipliers) => {
            nodes.push(Node::Leaf(multipliers))?;
            Ok(None)
        }
        Verdict::Solved(_) => tried(alloc, design, sequent, made, known, nodes),
    }
}

/// That a form has a sign.
fn relation(alloc: Global, sign: Sign, form: &Form) -> Result<Rel, Halt>
    ensures { AnswersCourse result (relation sign form.now) }
{
    match sign {
        Sign::Below => try_below_zero(alloc, form),
        Sign::Zero => Ok(is_zero(copied(form)?)),
        Sign::Above => try_above_zero(alloc, form),
    }
}

/// What is known in the branch where a form has a sign.
fn under(alloc: Global, known: &Branch, sign: Sign, form: &Form) -> Result<Branch, Halt>
    ensures { MatchResult result (λ b. under sign (known_of known.now) form.now ≡ Ok (known_of b))
        (λ e. StoppedBy e (under sign (known_of known.now) form.now)) }
{
    let rel = relation(alloc, sign, form)?;
    let branch = knowing(alloc, known, rel)?;
    Ok(branch)
}

fn open(alloc: Global, known: &Branch, nodes: &[Node], point: Seq<(i128, i128)>) -> Halt
    ensures { StoppedBy result (leaf_end ((known_of known.now, nodes.now), Some point)) }
{
    match copied_rels(alloc, known.rels.as_slice()) {
        Ok(rels) => Halt::Open(Seq::from_vec(rels), point),
        Err(AllocError) => Halt::Memory,
    }
}

/// A branch without splits left.
fn leaf(
    alloc: Global,
    design: &Design,
    sequent: &Sequent,
    made: &[Instance],
    known: &mut Branch,
    nodes: &mut Vec<Node>,
) -> Result<(), Halt>
    ensures { LeavesCourse result nodes.new.items (branch design.now sequent.now made.now [] (known_of known.old, nodes.old.items)) }
{
    match closing(alloc, design, sequent, made, known, nodes)? {
        None => Ok(()),
        Some(point) => Err(open(alloc, known, nodes.as_slice(), point)),
    }
}

fn add_split(nodes: &mut Vec<Node>, form: &Form) -> Result<(), AllocError>
    ensures { OnOk result (nodes.new.items ≡ nodes.old.items ++ Split form.now ∷ []) }
{
    nodes.push(Node::Split(copied(form)?))?;
    Ok(())
}

/// The branch of a split where its form has a sign.
#[cycle(branch)]
fn branch_under(
    alloc: Global,
    design: &Design,
    sequent: &Sequent,
    made: &[Instance],
    known: &Branch,
    nodes: &mut Vec<Node>,
    sign: Sign,
    form: &Form,
    rest: &[Form],
) -> Result<(), Halt>
    ensures { LeavesCourse result nodes.new.items
        (branch_under (branch design.now sequent.now made.now rest.now) sign form.now (known_of known.now, nodes.old.items)) }
{
    let mut under = under(alloc, known, sign, form)?;
    branch(alloc, design, sequent, made, &mut under, nodes, rest)
}

/// The branches of a split, one after the other, with the splits behind it left.
#[cycle(branch)]
fn three(
    alloc: Global,
    design: &Design,
    sequent: &Sequent,
    made: &[Instance],
    known: &Branch,
    nodes: &mut Vec<Node>,
    form: &Form,
    rest: &[Form],
) -> Result<(), Halt>
    ensures { LeavesCourse result nodes.new.items
        (three (branch design.now sequent.now made.now rest.now) form.now (known_of known.now, nodes.old.items)) }
{
    add_split(nodes, form)?;
    branch_under(
        alloc,
        design,
        sequent,
        made,
        known,
        nodes,
        Sign::Below,
        form,
        rest,
    )?;
    branch_under(
        alloc,
        design,
        sequent,
        made,
        known,
        nodes,
        Sign::Zero,
        form,
        rest,
    )?;
    branch_under(
        alloc,
        design,
        sequent,
        made,
        known,
        nodes,
        Sign::Above,
        form,
        rest,
    )
}

/// A branch with these splits left: closed, with its nodes in preorder behind the others, or what ends the search.
#[cycle(branch)]
pub fn branch(
    alloc: Global,
    design: &Design,
    sequent: &Sequent,
    made: &[Instance],
    known: &mut Branch,
    nodes: &mut Vec<Node>,
    splits: &[Form],
) -> Result<(), Halt>
    ensures { LeavesCourse result nodes.new.items
        (branch design.now sequent.now made.now splits.now (known_of known.old, nodes.old.items)) }
{
    match splits {
        [] => leaf(alloc, design, sequent, made, known, nodes),
        [form, rest @ ..] => {
            let Some(_) = closing(alloc, design, sequent, made, known, nodes)? else {
                return Ok(());
            };
            three(alloc, design, sequent, made, known, nodes, form, rest)
        }
    }
}
