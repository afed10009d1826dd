//! Numbers that are added to a set.
ghost use Rattle.std.specs.Prelude.{◌≡◌, OnOk, IfOk, slice_get};
ghost use Rattle.std.specs.Ordering.{int_cmp};
ghost use Rattle.std.specs.BTreeSet.{IsOrdered};
ghost use Rattle.std.specs.List.{list_any};
ghost use Rattle.acc_audit_ranges.specs.Ranges.{Adds, same, is_part};

use acc_base::sequences::Seq;
use std::alloc::{AllocError, Global};
use std::collections::BTreeSet;

/// Adds a number.
pub fn add(values: &mut BTreeSet<i64>, x: i64) -> Result<(), AllocError>
    ensures { OnOk result (Adds (same x) values.old values.new) }
{
    values.insert(x)?;
    Ok(())
}

/// Adds numbers.
pub fn add_all(values: &mut BTreeSet<i64>, xs: &[i64]) -> Result<(), AllocError>
    ensures { OnOk result (Adds (λ q. list_any (λ x. same x q) xs.now) values.old values.new) }
{
    for x in xs {
        add(values, *x)?;
    }
    Ok(())
}

/// Adds the component of a key at a place, if there is one.
pub fn add_part(values: &mut BTreeSet<i64>, key: &[i64], place: usize) -> Result<(), AllocError>
    ensures { OnOk result (Adds (λ q. is_part q (slice_get key.now place)) values.old values.new) }
{
    match key.get(place) {
        Some(part) => add(values, *part),
        None => Ok(()),
    }
}

/// The numbers of a set, in ascending order.
pub fn listed(alloc: Global, values: &BTreeSet<i64>) -> Result<Seq<i64>, AllocError>
    ensures list { IfOk result (λ list. list ≡ values.now.keys) }
    ensures rising { IsOrdered int_cmp values.now }
{
    let mut list = Vec::new(alloc);
    for x in values {
        list.push(*x)?;
    }
    Ok(Seq::from_vec(list))
}
