//! Values for a hypothesis's own variables.
ghost use Rattle.std.specs.Prelude.{◌≡◌, [], IfOk, OnOk};
ghost use Rattle.std.specs.List.{list_any};
ghost use Rattle.acc_instanced.specs.Instances.{zero_lin};
ghost use Rattle.acc_prover_choices.specs.Parts.{LeavesListing};
ghost use Rattle.acc_prover_choices.specs.Targets.{same_lins};
ghost use Rattle.acc_prover_choices.specs.Choices.{value_by, values_in};
ghost use Rattle.acc_prover_choices.specs.Walks.{with_few, with_value, values_by};

use crate::atoms::same_lins;
use crate::listing::InstError;
use crate::patterns::place_at;
use acc_base::bounds::MOST_INSTANCES;
use acc_base::forms::Lin;
use acc_base::sequences::{Seq, copied};
use std::alloc::{AllocError, Global};

fn nothing(alloc: Global) -> Lin
    ensures { result ≡ zero_lin }
{
    Lin {
        coeffs: Seq::new(alloc),
        constant: 0,
    }
}

/// So many zeros: the values before any target is chosen.
#[tactic(auto, using(crate::proofs::Numbers::map_one_more))]
pub fn nothings(alloc: Global, count: usize) -> Result<Seq<Lin>, AllocError>
    ensures { IfOk result (λ v. v ≡ values_in count []) }
{
    let mut values = Seq::new(alloc);
    for _ in 0..count {
        values.push(nothing(alloc))?;
    }
    Ok(values)
}

fn value_by(
    alloc: Global,
    key: &[Lin],
    place: Option<usize>,
    so_far: &Lin,
) -> Result<Lin, AllocError>
    ensures { IfOk result (λ v. v ≡ value_by key.now place so_far.now) }
{
    match place {
        None => copied(so_far),
        Some(i) => match key.get(i) {
            None => Ok(nothing(alloc)),
            Some(value) => copied(value),
        },
    }
}

fn add_value(
    alloc: Global,
    key: &[Lin],
    news: &[Option<usize>],
    values: &mut Seq<Lin>,
    so_far: &Lin,
) -> Result<(), AllocError>
    ensures { OnOk result (values.new ≡ with_value key.now news.now values.old so_far.now) }
{
    let place = place_at(news, values.len());
    let value = value_by(alloc, key, place, so_far)?;
    values.push(value)?;
    Ok(())
}

/// Values so far with a target's components.
pub fn values_by(
    alloc: Global,
    key: &[Lin],
    news: &[Option<usize>],
    so_far: &[Lin],
) -> Result<Seq<Lin>, AllocError>
    ensures { IfOk result (λ v. v ≡ values_by key.now news.now so_far.now) }
{
    let mut values = Seq::new(alloc);
    for value in so_far {
        add_value(alloc, key, news, &mut values, value)?;
    }
    Ok(values)
}

fn is_among(found: &[Seq<Lin>], values: &[Lin]) -> bool
    ensures { result ≡ list_any (same_lins values.now) found.now }
{
    for other in found {
        if same_lins(values, other.as_slice()) {
            return true;
        }
    }
    false
}

/// One more list of values, unless it stands there or there are too many.
pub fn add_few(found: &mut Vec<Seq<Lin>>, values: Seq<Lin>) -> Result<(), InstError>
    ensures { LeavesListing result found.new.items (with_few same_lins found.old.items values) }
{
    if is_among(found.as_slice(), values.as_slice()) {
        return Ok(());
    }
    if found.len() >= MOST_INSTANCES {
        return Err(InstError::Crowded);
    }
    found.push(values)?;
    Ok(())
}
