//! The greatest common divisor.
ghost use Rattle.std.specs.Prelude.{◌≡◌, ◌<◌, IfOk};
ghost use Rattle.acc_rows.specs.Divisors.{divisor, common, quotient};
ghost use Rattle.acc_rows.specs.Rows.{numbers, quotients};

use acc_base::sequences::Seq;
use std::alloc::{AllocError, Global};

/// The greatest common divisor of two numbers.
pub fn divisor(a: u128, b: u128) -> u128
    ensures { result ≡ divisor a b }
{
    let mut a = a;
    let mut b = b;
    while b != 0 {
        let rest = a % b;
        a = b;
        b = rest;
    }
    a
}

/// That of a number and each of a list.
pub fn common(first: u128, list: &[(u32, i128)]) -> u128
    ensures { result ≡ common first (numbers list.now) }
{
    let mut so_far = first;
    for (_, number) in list {
        so_far = divisor(so_far, number.unsigned_abs());
    }
    so_far
}

/// A number divided by one that divides it.
pub fn quotient(number: i128, by: u128) -> i128
    requires { 1 < by }
    ensures { result ≡ quotient by number }
{
    let size = (number.unsigned_abs() / by) as i128;
    if number < 0 { -size } else { size }
}

/// A number at a place, divided by one that divides it.
fn quotient_at(term: &(u32, i128), by: u128) -> (u32, i128)
    requires { 1 < by }
    ensures { result ≡ (term.now.0, quotient by term.now.1) }
{
    (term.0, quotient(term.1, by))
}

/// Numbers divided by one that divides each.
pub fn quotients(
    alloc: Global,
    list: &[(u32, i128)],
    by: u128,
) -> Result<Seq<(u32, i128)>, AllocError>
    requires { 1 < by }
    ensures { IfOk result (λ v. v ≡ quotients by list.now) }
{
    let mut out = Seq::new(alloc);
    for term in list {
        out.push(quotient_at(term, by))?;
    }
    Ok(out)
}
