//! The forms by which a search splits.
ghost use Rattle.std.specs.Prelude.{◌≡◌, [], negsuc, pos, IfOk, OnOk};
ghost use Rattle.std.specs.List.{fold, list_any};
ghost use Rattle.acc_prover_choices.specs.Parts.{with_first};
ghost use Rattle.acc_inst.specs.Lists.{no_terms, is_nothing, cancels, same_split, with_split, with_lin, with_lins, with_unders, with_form};
ghost use Rattle.acc_inst.specs.Lists.{with_rel, with_instance, with_guard, with_guards, splits_of};

use crate::making::Instance;
use acc_axioms::terms::lin_form;
use acc_base::forms::{Form, Lin, Rel, Unknown};
use acc_base::sequences::{Seq, copied};
use acc_base::sequents::Sequent;
use acc_base::sums::FormSum;
use std::alloc::{AllocError, Global};

fn no_terms(terms: &[(Unknown, i128)]) -> bool
    ensures { result ≡ no_terms terms.now }
{
    match terms {
        [] => true,
        [_, ..] => false,
    }
}

fn is_nothing(form: &Form) -> bool
    ensures { result ≡ is_nothing form.now }
{
    no_terms(form.terms.as_slice()) && form.constant == 0
}

fn cancels(alloc: Global, by: i128, f: &Form, g: &Form) -> Result<bool, AllocError>
    ensures { IfOk result (λ b. b ≡ cancels by f.now g.now) }
{
    match f.plus(alloc, g, by) {
        Ok(sum) => Ok(is_nothing(&sum)),
        Err(FormSum::Wide) => Ok(false),
        Err(FormSum::Memory) => Err(AllocError),
    }
}

/// Whether a form is another, or less it.
fn same_split(alloc: Global, f: &Form, g: &Form) -> Result<bool, AllocError>
    ensures { IfOk result (λ b. b ≡ same_split f.now g.now) }
{
    if cancels(alloc, -1, f, g)? {
        return Ok(true);
    }
    cancels(alloc, 1, f, g)
}

fn is_among(alloc: Global, splits: &[Form], form: &Form) -> Result<bool, AllocError>
    ensures { IfOk result (λ b. b ≡ list_any (same_split form.now) splits.now) }
{
    for other in splits {
        if same_split(alloc, form, other)? {
            return Ok(true);
        }
    }
    Ok(false)
}

fn add(alloc: Global, splits: &mut Vec<Form>, form: Form) -> Result<(), AllocError>
    ensures { OnOk result (splits.new.items ≡ with_split splits.old.items form) }
{
    if no_terms(form.terms.as_slice()) {
        return Ok(());
    }
    if is_among(alloc, splits.as_slice(), &form)? {
        return Ok(());
    }
    splits.push(form)?;
    Ok(())
}

fn add_lin(alloc: Global, splits: &mut Vec<Form>, lin: &Lin) -> Result<(), AllocError>
    ensures { OnOk result (splits.new.items ≡ with_lin splits.old.items lin.now) }
{
    let form = lin_form(alloc, lin)?;
    add(alloc, splits, form)
}

fn add_lins(alloc: Global, splits: &mut Vec<Form>, lins: &[Lin]) -> Result<(), AllocError>
    ensures { OnOk result (splits.new.items ≡ with_lins splits.old.items lins.now) }
{
    for lin in lins {
        add_lin(alloc, splits, lin)?;
    }
    Ok(())
}

fn add_unders(
    alloc: Global,
    splits: &mut Vec<Form>,
    term: &(Unknown, i128),
) -> Result<(), AllocError>
    ensures { OnOk result (splits.new.items ≡ with_unders splits.old.items term.now) }
{
    add_lins(alloc, splits, term.0.under.as_slice())
}

fn add_form(alloc: Global, splits: &mut Vec<Form>, form: &Form) -> Result<(), AllocError>
    ensures { OnOk result (splits.new.items ≡ with_form splits.old.items form.now) }
{
    for term in form.terms.as_slice() {
        add_unders(alloc, splits, term)?;
    }
    Ok(())
}

fn add_rels(alloc: Global, splits: &mut Vec<Form>, rels: &[Rel]) -> Result<(), AllocError>
    ensures { OnOk result (splits.new.items ≡ fold with_rel splits.old.items rels.now) }
{
    for rel in rels {
        add_form(alloc, splits, &rel.form)?;
    }
    Ok(())
}

fn add_instance(
    alloc: Global,
    splits: &mut Vec<Form>,
    instance: &Instance,
) -> Result<(), AllocError>
    ensures { OnOk result (splits.new.items ≡ with_instance splits.old.items instance.now) }
{
    add_rels(alloc, splits, instance.guards.as_slice())?;
    add_form(alloc, splits, &instance.rel.form)
}

fn add_instances(alloc: Global, splits: &mut Vec<Form>, made: &[Instance]) -> Result<(), AllocError>
    ensures { OnOk result (splits.new.items ≡ fold with_instance splits.old.items made.now) }
{
    for instance in made {
        add_instance(alloc, splits, instance)?;
    }
    Ok(())
}

fn add_guard(alloc: Global, splits: &mut Vec<Form>, guard: &Rel) -> Result<(), AllocError>
    ensures { OnOk result (splits.new.items ≡ with_guard splits.old.items guard.now) }
{
    let form = copied(&guard.form)?;
    add(alloc, splits, form)
}

fn add_guards(alloc: Global, splits: &mut Vec<Form>, instance: &Instance) -> Result<(), AllocError>
    ensures { OnOk result (splits.new.items ≡ with_guards splits.old.items instance.now) }
{
    for guard in instance.guards.as_slice() {
        add_guard(alloc, splits, guard)?;
    }
    Ok(())
}

fn add_all_guards(
    alloc: Global,
    splits: &mut Vec<Form>,
    made: &[Instance],
) -> Result<(), AllocError>
    ensures { OnOk result (splits.new.items ≡ fold with_guards splits.old.items made.now) }
{
    for instance in made {
        add_guards(alloc, splits, instance)?;
    }
    Ok(())
}

fn sequent_splits(alloc: Global, sequent: &Sequent, hints: &[Lin]) -> Result<Vec<Form>, AllocError>
    ensures { IfOk result (λ v. v.items ≡ with_form (fold with_rel (with_lins [] hints.now) sequent.now.rels) sequent.now.goal) }
{
    let mut splits = Vec::new(alloc);
    add_lins(alloc, &mut splits, hints)?;
    add_rels(alloc, &mut splits, sequent.rels.as_slice())?;
    add_form(alloc, &mut splits, &sequent.goal)?;
    Ok(splits)
}

/// The forms to split by.
pub fn splits_of(
    alloc: Global,
    sequent: &Sequent,
    hints: &[Lin],
    made: &[Instance],
) -> Result<Seq<Form>, AllocError>
    ensures { IfOk result (λ v. v ≡ splits_of sequent.now hints.now made.now) }
{
    let mut splits = sequent_splits(alloc, sequent, hints)?;
    add_instances(alloc, &mut splits, made)?;
    add_all_guards(alloc, &mut splits, made)?;
    Ok(Seq::from_vec(splits))
}
