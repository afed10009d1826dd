//! Summands of forms: atoms with coefficients, under linear values that have to be 0.
ghost use Rattle.std.specs.Prelude.{◌≡◌, ◌++◌, ◌*ℤ◌, map, IfOk, OnOk};
ghost use Rattle.acc_base.specs.Bounded.{is_wide};
ghost use Rattle.acc_base.specs.Sums.{TellsWide};
ghost use Rattle.acc_instanced.specs.Summands.{variable_parts, lin_parts, part_summand, with_summand, with_summands};
ghost use Rattle.acc_instanced.specs.Summands.{is_constant_wide, is_summand_wide, are_summands_wide};

use acc_base::forms::{Atom, Form, Lin, Unknown};
use acc_base::numbers::{bounded_product, bounded_sum};
use acc_base::sequences::{Seq, copied};
use acc_base::sums::FormSum;
use std::alloc::AllocError;

/// Adds the variables of a linear value with their coefficients.
fn add_variables(parts: &mut Vec<(Atom, i64)>, value: &Lin) -> Result<(), AllocError>
    ensures { OnOk result (parts.new.items ≡ parts.old.items ++ variable_parts value.now) }
{
    for (variable, n) in value.coeffs.as_slice() {
        parts.push((Atom::Var(*variable), *n))?;
    }
    Ok(())
}

/// Adds a linear value.
pub fn add_lin(parts: &mut Vec<(Atom, i64)>, value: &Lin) -> Result<(), AllocError>
    ensures { OnOk result (parts.new.items ≡ parts.old.items ++ lin_parts value.now) }
{
    add_variables(parts, value)?;
    parts.push((Atom::One, value.constant))?;
    Ok(())
}

/// Adds a summand: a number to the constant, and any other one behind the terms.
pub fn add_summand(gained: &mut Form, unknown: Unknown, n: i128) -> Result<(), FormSum>
    ensures value { OnOk result (gained.new ≡ with_summand (unknown, n) gained.old) }
    ensures wide { TellsWide result (is_constant_wide (unknown, n) gained.old) }
{
    if unknown.is_bare_one() {
        gained.constant = bounded_sum(gained.constant, n).ok_or(FormSum::Wide)?;
    } else {
        gained.terms.push((unknown, n))?;
    }
    Ok(())
}

/// A product of a coefficient.
fn product_of(m: i128, n: i64) -> Result<i128, FormSum>
    ensures value { IfOk result (λ p. p ≡ m *ℤ n) }
    ensures wide { TellsWide result (is_wide (m *ℤ n)) }
{
    bounded_product(m, i128::from(n)).ok_or(FormSum::Wide)
}

/// Adds m times a part of a change.
fn add_part(gained: &mut Form, under: &Seq<Lin>, m: i128, part: &(Atom, i64)) -> Result<(), FormSum>
    ensures value { OnOk result (gained.new ≡ with_summand (part_summand under.now m part.now) gained.old) }
    ensures wide { TellsWide result (is_summand_wide (part_summand under.now m part.now) gained.old) }
{
    let product = product_of(m, part.1)?;
    let unknown = Unknown {
        under: copied(under)?,
        atom: copied(&part.0)?,
    };
    add_summand(gained, unknown, product)
}

/// Adds m times the parts of a change.
pub fn add_parts(
    gained: &mut Form,
    under: &Seq<Lin>,
    m: i128,
    parts: &[(Atom, i64)],
) -> Result<(), FormSum>
    ensures value { OnOk result (gained.new ≡ with_summands (map (part_summand under.now m) parts.now) gained.old) }
    ensures wide { TellsWide result (are_summands_wide (map (part_summand under.now m) parts.now) gained.old) }
{
    for part in parts {
        add_part(gained, under, m, part)?;
    }
    Ok(())
}
