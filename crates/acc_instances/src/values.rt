//! Linear values at linear values: these stand for the own variables, which come behind the first n.
ghost use Rattle.std.specs.Prelude.{◌≡◌, ◌||◌, ◌+ℤ◌, ◌*ℤ◌, map, MatchOption, Some, None, IfOk, OnOk};
ghost use Rattle.std.specs.List.{list_any};
ghost use Rattle.acc_base.specs.Sums.{TellsWide};
ghost use Rattle.acc_instanced.specs.Coefficients.{with_coefficient, with_coefficients, enlarged, is_long};
ghost use Rattle.acc_instanced.specs.Instances.{value_for, scaled, plus_part, plus_parts, zero_lin, are_parts_long, are_scaled_long};
ghost use Rattle.acc_instanced.specs.Instances.{is_part_long, lin_at, is_lin_long};

use crate::coefficients::{add_coefficient, drop_zeros, narrow_product, narrow_sum};
use acc_base::forms::Lin;
use acc_base::sequences::Seq;
use acc_base::sums::FormSum;
use std::alloc::Global;

/// What stands for a variable, if it is an own one.
pub fn value_for<'a>(n: u32, own: &'a [Lin], x: u32) -> Option<&'a Lin>
    ensures { MatchOption result (value_for n own.now x ≡ None) (λ l. value_for n own.now x ≡ Some l.now) }
{
    if x < n {
        None
    } else {
        own.get((x - n) as usize)
    }
}

/// Adds a coefficient.
fn add_own(sums: &mut Vec<(u32, i64)>, variable: u32, c: i64) -> Result<(), FormSum>
    ensures value { OnOk result (sums.new.items ≡ with_coefficient (variable, c) sums.old.items) }
    ensures wide { TellsWide result (is_long (enlarged (variable, c) sums.old.items)) }
{
    add_coefficient(sums, variable, i128::from(c))
}

/// Adds a multiple of a coefficient.
fn add_one_scaled(sums: &mut Vec<(u32, i64)>, c: i64, j: &(u32, i64)) -> Result<(), FormSum>
    ensures value { OnOk result (sums.new.items ≡ with_coefficient (scaled c j.now) sums.old.items) }
    ensures wide { TellsWide result (is_long (c *ℤ j.now.1) || is_long (enlarged (scaled c j.now) sums.old.items)) }
{
    let product = narrow_product(c, j.1)?;
    add_coefficient(sums, j.0, i128::from(product))
}

/// Adds multiples of coefficients one after the other.
fn add_scaled(sums: &mut Vec<(u32, i64)>, c: i64, coeffs: &[(u32, i64)]) -> Result<(), FormSum>
    ensures value { OnOk result (sums.new.items ≡ with_coefficients sums.old.items (map (scaled c) coeffs.now)) }
    ensures wide { TellsWide result (are_scaled_long c coeffs.now sums.old.items) }
{
    for j in coeffs {
        add_one_scaled(sums, c, j)?;
    }
    Ok(())
}

/// A constant and a product.
fn plus_product(constant: i64, a: i64, b: i64) -> Result<i64, FormSum>
    ensures value { IfOk result (λ m. m ≡ constant +ℤ a *ℤ b) }
    ensures wide { TellsWide result (is_long (a *ℤ b) || is_long (constant +ℤ a *ℤ b)) }
{
    let product = narrow_product(a, b)?;
    narrow_sum(constant, i128::from(product))
}

/// A value so far, and a coefficient of it or a multiple of what stands for its variable.
fn plus_part(n: u32, own: &[Lin], variable: u32, c: i64, s: Lin) -> Result<Lin, FormSum>
    ensures value { IfOk result (λ l. l ≡ plus_part n own.now (variable, c) (value_for n own.now variable) s) }
    ensures wide { TellsWide result (is_part_long n own.now (variable, c) (value_for n own.now variable) s) }
{
    let mut sums = s.coeffs.into_vec();
    match value_for(n, own, variable) {
        Some(l) => {
            let constant = plus_product(s.constant, c, l.constant)?;
            add_scaled(&mut sums, c, l.coeffs.as_slice())?;
            Ok(Lin {
                coeffs: Seq::from_vec(sums),
                constant,
            })
        }
        None => {
            add_own(&mut sums, variable, c)?;
            Ok(Lin {
                coeffs: Seq::from_vec(sums),
                constant: s.constant,
            })
        }
    }
}

/// The parts of a linear value at linear values, added up.
fn plus_parts(alloc: Global, n: u32, own: &[Lin], coeffs: &[(u32, i64)]) -> Result<Lin, FormSum>
    ensures value { IfOk result (λ l. l ≡ plus_parts n own.now coeffs.now zero_lin) }
    ensures wide { TellsWide result (are_parts_long n own.now coeffs.now zero_lin) }
{
    let mut s = Lin {
        coeffs: Seq::new(alloc),
        constant: 0,
    };
    for (variable, c) in coeffs {
        s = plus_part(n, own, *variable, *c, s)?;
    }
    Ok(s)
}

/// A linear value at linear values.
fn lin_at(alloc: Global, n: u32, own: &[Lin], l: &Lin) -> Result<Lin, FormSum>
    ensures value { IfOk result (λ m. m ≡ lin_at n own.now l.now) }
    ensures wide { TellsWide result (is_lin_long n own.now l.now) }
{
    let s = plus_parts(alloc, n, own, l.coeffs.as_slice())?;
    let constant = narrow_sum(s.constant, i128::from(l.constant))?;
    let mut sums = s.coeffs.into_vec();
    drop_zeros(&mut sums);
    Ok(Lin {
        coeffs: Seq::from_vec(sums),
        constant,
    })
}

/// Linear values at linear values.
pub fn lins_at(alloc: Global, n: u32, own: &[Lin], ls: &[Lin]) -> Result<Seq<Lin>, FormSum>
    ensures value { IfOk result (λ m. m ≡ map (lin_at n own.now) ls.now) }
    ensures wide { TellsWide result (list_any (is_lin_long n own.now) ls.now) }
{
    let mut list = Seq::new(alloc);
    for l in ls {
        list.push(lin_at(alloc, n, own, l)?)?;
    }
    Ok(list)
}
