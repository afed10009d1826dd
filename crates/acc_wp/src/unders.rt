//! What has to be 0 so that an action touches what an unknown counts.
ghost use Rattle.std.specs.Prelude.{◌≡◌, IfOk, OnOk};
ghost use Rattle.std.specs.List.{list_any};
ghost use Rattle.acc_base.specs.Sums.{TellsWide};
ghost use Rattle.acc_preconditions.specs.Unders.{differences, are_long, is_zero, is_false, with_under, lengthened};

use crate::lins::lin_minus;
use acc_base::forms::Lin;
use acc_base::sequences::{Seq, copied};
use acc_base::sums::FormSum;
use std::alloc::{AllocError, Global};

/// Whether a linear value is the constant 0.
fn is_zero(l: &Lin) -> bool
    ensures { result ≡ is_zero l.now }
{
    l.coeffs.is_empty() && l.constant == 0
}

/// Whether a linear value is a constant other than 0.
fn is_false(l: &Lin) -> bool
    ensures { result ≡ is_false l.now }
{
    l.coeffs.is_empty() && l.constant != 0
}

/// Whether one of these linear values is a constant other than 0, so that they can't all be 0.
pub fn has_false(under: &[Lin]) -> bool
    ensures { result ≡ list_any is_false under.now }
{
    under.iter().any(|l| is_false(l))
}

/// Adds what has to be 0, unless it is 0 or stands there already.
fn add_under(under: &mut Seq<Lin>, difference: Lin) -> Result<(), AllocError>
    ensures { OnOk result (under.new ≡ with_under difference under.old) }
{
    if !is_zero(&difference) && !under.as_slice().contains(&difference) {
        under.push(difference)?;
    }
    Ok(())
}

/// What has to be 0, lengthened by the differences of the places of a key or prefix and a key.
pub fn lengthened(
    alloc: Global,
    under: &Seq<Lin>,
    place: &[Lin],
    key: &[Lin],
) -> Result<Seq<Lin>, FormSum>
    ensures value { IfOk result (λ ls. ls ≡ lengthened under.now (differences place.now key.now)) }
    ensures wide { TellsWide result (are_long place.now key.now) }
{
    let mut longer = copied(under)?;
    for (q, k) in place.iter().zip(key) {
        let difference = lin_minus(alloc, q, k)?;
        add_under(&mut longer, difference)?;
    }
    Ok(longer)
}
