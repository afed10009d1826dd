//! How many keys have which value at which place.
ghost use Rattle.std.specs.Prelude.{◌≡◌, OnOk};
ghost use Rattle.acc_audit_ranges.specs.declared.parts.Way.TheVariants.{In, Out};
ghost use Rattle.acc_audit_ranges.specs.Parts.{number, CountsIn, Counts, Takes, is_there, has_at};

use std::alloc::{AllocError, Global};
use std::collections::BTreeMap;

/// How many keys have each value.
pub type Values = BTreeMap<i64, u64>;

/// The values at each place of each table's keys.
pub type Parts = BTreeMap<(u32, usize), Values>;

/// Whether a key comes or goes.
#[derive(Clone, Copy)]
pub enum Way {
    In,
    Out,
}

/// How many keys have a value.
fn number(values: &Values, x: i64) -> u64
    ensures { result ≡ number values.now x }
{
    match values.get(&x) {
        Some(n) => *n,
        None => 0,
    }
}

/// Counts one key more with a value.
fn one_more(values: &mut Values, x: i64) -> Result<(), AllocError>
    ensures { OnOk result (CountsIn In x values.old values.new) }
{
    let n = number(values, x);
    if n == u64::MAX {
        return Err(AllocError);
    }
    values.insert(x, n + 1)?;
    Ok(())
}

/// Counts one key less with a value.
fn one_less(values: &mut Values, x: i64) -> Result<(), AllocError>
    ensures { OnOk result (CountsIn Out x values.old values.new) }
{
    let n = number(values, x);
    if n > 1 {
        values.insert(x, n - 1)?;
        Ok(())
    } else {
        values.remove(&x);
        Ok(())
    }
}

/// Counts a key with a value.
fn count(values: &mut Values, x: i64, way: Way) -> Result<(), AllocError>
    ensures { OnOk result (CountsIn way x values.old values.new) }
{
    match way {
        Way::In => one_more(values, x),
        Way::Out => one_less(values, x),
    }
}

/// Takes the values at a place of a table's keys.
fn taken(parts: &mut Parts, alloc: Global, table: u32, place: usize) -> Values
    ensures { Takes table place parts.old parts.new result }
{
    match parts.remove(&(table, place)) {
        Some(values) => values,
        None => BTreeMap::new(alloc),
    }
}

/// Counts a key of a table with a value at a place.
fn count_at(
    parts: &mut Parts,
    alloc: Global,
    table: u32,
    place: usize,
    x: i64,
    way: Way,
) -> Result<(), AllocError>
    ensures { OnOk result (Counts way (is_there table place x) parts.old parts.new) }
{
    let mut values = taken(parts, alloc, table, place);
    count(&mut values, x, way)?;
    parts.insert((table, place), values)?;
    Ok(())
}

/// Counts a key of a table with its components. The cost is a few look-ups each.
pub fn count_key(
    parts: &mut Parts,
    alloc: Global,
    table: u32,
    key: &[i64],
    way: Way,
) -> Result<(), AllocError>
    ensures { OnOk result (Counts way (λ t j q. has_at t j q (table, key.now)) parts.old parts.new) }
{
    for place in 0..key.len() {
        count_at(parts, alloc, table, place, key[place], way)?;
    }
    Ok(())
}
