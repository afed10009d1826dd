//! Lists of numbers, each at a place, in order of place.
ghost use Rattle.std.specs.Prelude.{◌≡◌, ◌∷◌, [], Ok};
ghost use Rattle.acc_base.specs.Computing.{Answers, Leaves};
ghost use Rattle.acc_rows.specs.Answers.{tells, behind};
ghost use Rattle.acc_rows.specs.Sparse.{at, scaled, mixture, put_left, mixed};

use crate::numbers::{product_of, sum_of};
use crate::stops::Stop;
use acc_base::sequences::Seq;
use std::alloc::Global;

/// Puts a multiple of a number behind the others.
fn push_product(out: &mut Vec<(u32, i128)>, by: i128, term: &(u32, i128)) -> Result<(), Stop>
    ensures { Leaves tells result out.new.items (behind out.old.items (scaled by (term.now ∷ []))) }
{
    let (place, number) = *term;
    out.push((place, product_of(by, number)?))?;
    Ok(())
}

/// Puts multiples of numbers behind the others.
fn push_scaled(out: &mut Vec<(u32, i128)>, by: i128, numbers: &[(u32, i128)]) -> Result<(), Stop>
    ensures { Leaves tells result out.new.items (behind out.old.items (scaled by numbers.now)) }
{
    for term in numbers {
        push_product(out, by, term)?;
    }
    Ok(())
}

/// The sum of multiples of two numbers.
pub fn mixture_of(p: i128, m: i128, q: i128, n: i128) -> Result<i128, Stop>
    ensures { Answers tells result (mixture p m q n) }
{
    let a = product_of(p, m)?;
    let b = product_of(q, n)?;
    sum_of(a, b)
}

/// Puts a number behind the others, unless it is 0.
fn push_left(out: &mut Vec<(u32, i128)>, place: u32, number: i128) -> Result<(), Stop>
    ensures { Leaves tells result out.new.items (behind out.old.items (put_left place (Ok number) (Ok []))) }
{
    if number == 0 {
        return Ok(());
    }
    out.push((place, number))?;
    Ok(())
}

/// Puts the sum of multiples of two numbers at one place behind the others, unless it is 0.
fn push_mixture(
    out: &mut Vec<(u32, i128)>,
    p: i128,
    x: &(u32, i128),
    q: i128,
    y: &(u32, i128),
) -> Result<(), Stop>
    ensures { Leaves tells result out.new.items (behind out.old.items (put_left x.now.0 (mixture p x.now.1 q y.now.1) (Ok []))) }
{
    let sum = mixture_of(p, x.1, q, y.1)?;
    push_left(out, x.0, sum)
}

/// Puts `p` times a list and `q` times another behind the others, place by place.
fn push_mixed(
    out: &mut Vec<(u32, i128)>,
    p: i128,
    q: i128,
    xs: &[(u32, i128)],
    ys: &[(u32, i128)],
) -> Result<(), Stop>
    ensures { Leaves tells result out.new.items (behind out.old.items (mixed p q xs.now ys.now)) }
{
    let mut i = 0;
    let mut j = 0;
    loop {
        if i >= xs.len() {
            return push_scaled(out, q, &ys[j..]);
        }
        if j >= ys.len() {
            return push_scaled(out, p, &xs[i..]);
        }
        let x = &xs[i];
        let y = &ys[j];
        if x.0 < y.0 {
            push_product(out, p, x)?;
            i += 1;
        } else if y.0 < x.0 {
            push_product(out, q, y)?;
            j += 1;
        } else {
            push_mixture(out, p, x, q, y)?;
            i += 1;
            j += 1;
        }
    }
}

/// `p` times a list and `q` times another, place by place. The cost is that of going over both.
pub fn mixed(
    alloc: Global,
    p: i128,
    q: i128,
    xs: &[(u32, i128)],
    ys: &[(u32, i128)],
) -> Result<Seq<(u32, i128)>, Stop>
    ensures { Answers tells result (mixed p q xs.now ys.now) }
{
    let mut out = Vec::new(alloc);
    push_mixed(&mut out, p, q, xs, ys)?;
    Ok(Seq::from_vec(out))
}

/// The number at a place, 0 where none stands.
pub fn number_at(numbers: &[(u32, i128)], place: u32) -> i128
    ensures { result ≡ at place numbers.now }
{
    for (p, number) in numbers {
        if *p == place {
            return *number;
        }
    }
    0
}
