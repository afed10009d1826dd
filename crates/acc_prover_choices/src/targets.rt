//! The targets of a sequent.
ghost use Rattle.std.specs.Prelude.{◌≡◌, ◌∷◌, [], IfOk, OnOk};
ghost use Rattle.std.specs.List.{list_any};
ghost use Rattle.acc_prover_choices.specs.Parts.{with_first, with_firsts};
ghost use Rattle.acc_prover_choices.specs.Targets.{same_target, targets_in, rel_targets, targets_of};

use crate::atoms::same_lins;
use acc_base::forms::{Form, Lin, Rel, Unknown};
use acc_base::sequences::{Seq, copied};
use acc_base::sequents::Sequent;
use std::alloc::{AllocError, Global};

/// The table and the key, or the prefix, of an atom.
#[derive(Drop)]
pub struct Target {
    pub table: u32,
    pub key: Seq<Lin>,
}

/// Values again.
pub fn copied_lins(alloc: Global, lins: &[Lin]) -> Result<Seq<Lin>, AllocError>
    ensures { IfOk result (λ v. v ≡ lins.now) }
{
    let mut again = Seq::new(alloc);
    for lin in lins {
        again.push(copied(lin)?)?;
    }
    Ok(again)
}

fn same_target(a: &Target, b: &Target) -> bool
    ensures { result ≡ same_target a.now b.now }
{
    a.table == b.table && same_lins(a.key.as_slice(), b.key.as_slice())
}

/// Whether a target stands among others.
fn is_among(targets: &[Target], target: &Target) -> bool
    ensures { result ≡ list_any (same_target target.now) targets.now }
{
    for other in targets {
        if same_target(target, other) {
            return true;
        }
    }
    false
}

/// One more target, unless it stands there.
fn add(targets: &mut Vec<Target>, target: Target) -> Result<(), AllocError>
    ensures { OnOk result (targets.new.items ≡ with_first same_target targets.old.items target) }
{
    if is_among(targets.as_slice(), &target) {
        return Ok(());
    }
    targets.push(target)?;
    Ok(())
}

/// The target of a term's atom.
#[tactic(auto, using(crate::proofs::TableAtoms::no_target, crate::proofs::TableAtoms::one_target))]
fn add_term(
    alloc: Global,
    targets: &mut Vec<Target>,
    term: &(Unknown, i128),
) -> Result<(), AllocError>
    ensures { OnOk result (targets.new.items ≡ with_firsts same_target targets.old.items (targets_in (term.now ∷ []))) }
{
    let atom = &term.0.atom;
    match atom.table() {
        None => Ok(()),
        Some(table) => {
            let key = copied_lins(alloc, atom.key())?;
            add(targets, Target { table, key })
        }
    }
}

/// The targets of a form.
#[tactic(auto, using(crate::proofs::TableAtoms::one_more))]
fn add_form(alloc: Global, targets: &mut Vec<Target>, form: &Form) -> Result<(), AllocError>
    ensures { OnOk result (targets.new.items ≡ with_firsts same_target targets.old.items (targets_in form.now.terms)) }
{
    for term in form.terms.as_slice() {
        add_term(alloc, targets, term)?;
    }
    Ok(())
}

/// The targets of relations.
fn add_rels(alloc: Global, targets: &mut Vec<Target>, rels: &[Rel]) -> Result<(), AllocError>
    ensures { OnOk result (targets.new.items ≡ with_firsts same_target targets.old.items (rel_targets rels.now)) }
{
    for rel in rels {
        add_form(alloc, targets, &rel.form)?;
    }
    Ok(())
}

/// The targets of a sequent, each once.
pub fn targets_of(alloc: Global, sequent: &Sequent) -> Result<Vec<Target>, AllocError>
    ensures { IfOk result (λ ts. ts.items ≡ targets_of sequent.now) }
{
    let mut targets = Vec::new(alloc);
    add_rels(alloc, &mut targets, sequent.rels.as_slice())?;
    add_form(alloc, &mut targets, &sequent.goal)?;
    Ok(targets)
}
