//! What a form gains by an action.
ghost use Rattle.std.specs.Prelude.{◌≡◌, ◌||◌, IfOk, OnOk};
ghost use Rattle.acc_base.specs.Sums.{TellsWide};
ghost use Rattle.acc_instanced.specs.Summands.{with_summands, are_summands_wide};
ghost use Rattle.acc_preconditions.specs.Gains.{term_summands, is_term_long, gained, is_gained_wide};

use crate::changes::{change, key_of};
use crate::unders::{has_false, lengthened};
use acc_base::forms::{Form, Unknown};
use acc_base::sequences::Seq;
use acc_base::steps::Action;
use acc_base::sums::FormSum;
use acc_instances::summands::add_parts;
use std::alloc::Global;

/// Adds what a term gains.
fn add_gains(
    alloc: Global,
    gained: &mut Form,
    action: &Action,
    term: &(Unknown, i128),
) -> Result<(), FormSum>
    ensures value { OnOk result (gained.new ≡ with_summands (term_summands action.now term.now) gained.old) }
    ensures wide { TellsWide result (is_term_long action.now term.now
        || are_summands_wide (term_summands action.now term.now) gained.old) }
{
    let (unknown, m) = term;
    let parts = change(alloc, action, &unknown.atom)?;
    if parts.is_empty() {
        return Ok(());
    }
    let place = unknown.atom.key();
    let under = lengthened(alloc, &unknown.under, place, key_of(action).as_slice())?;
    if has_false(under.as_slice()) {
        return Ok(());
    }
    add_parts(gained, &under, *m, parts.as_slice())
}

/// What a form gains: the constant that it begins with, and what its terms gain.
pub fn gained(alloc: Global, action: &Action, form: &Form) -> Result<Form, FormSum>
    ensures value { IfOk result (λ g. g ≡ gained action.now form.now) }
    ensures wide { TellsWide result (is_gained_wide action.now form.now) }
{
    let mut gained = Form {
        terms: Seq::new(alloc),
        constant: form.constant,
    };
    for term in form.terms.as_slice() {
        add_gains(alloc, &mut gained, action, term)?;
    }
    Ok(gained)
}
