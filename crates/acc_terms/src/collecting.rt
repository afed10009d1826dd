//! Terms, collected: one an unknown, in the order in which the unknowns first appear.
ghost use Rattle.std.specs.Prelude.{◌≡◌, ◌<◌, ◌+◌, ◌^◌, All, IfOk, OnOk, unsigned_abs};
ghost use Rattle.acc_terms.specs.Parts.{IsTermSized, constant_in, constant_of};
ghost use Rattle.acc_terms.specs.Collected.{collected};
ghost use Rattle.acc_terms.specs.Sums.{with_term, with_part};

use crate::parts::Part;
use acc_base::collecting::Sums;
use acc_base::sequences::{Exact, Seq};
use std::alloc::{AllocError, Global};

/// Collected terms, each unknown once, and the constant.
#[derive(Drop)]
pub struct Terms<K> {
    pub terms: Seq<(K, i128)>,
    pub constant: i128,
}

/// What a term adds to the constant.
fn constant_in<K>(part: &Part<K>) -> i128
    ensures { result ≡ constant_in part.now }
{
    match part.of {
        Some(_) => 0,
        None => part.number,
    }
}

/// The sum of the constant terms.
fn constant<K>(parts: &[Part<K>]) -> i128
    requires { All IsTermSized parts.now }
    ensures { result ≡ constant_of parts.now }
{
    let mut sum = 0;
    for part in parts {
        sum += constant_in(part);
    }
    sum
}

/// Adds a term to the sum of its unknown.
fn add<'a, K: Exact + Ord>(
    sums: &mut Sums<'a, K>,
    unknown: &'a K,
    number: i128,
) -> Result<(), AllocError>
    requires room { All (λ t. unsigned_abs t.1 + unsigned_abs number < 2 ^ 127) sums.old }
    ensures { OnOk result (sums.new ≡ with_term K.eq unknown.now number sums.old) }
{
    let sum = sums.of(unknown) + number;
    sums.put(unknown, sum)
}

/// Adds a term to the sum of its unknown, if it has one.
fn add_part<'a, K: Exact + Ord>(sums: &mut Sums<'a, K>, part: &'a Part<K>) -> Result<(), AllocError>
    requires room { All (λ t. unsigned_abs t.1 + unsigned_abs part.now.number < 2 ^ 127) sums.old }
    ensures { OnOk result (sums.new ≡ with_part K.eq part.now sums.old) }
{
    match &part.of {
        Some(unknown) => add(sums, unknown, part.number),
        None => Ok(()),
    }
}

/// One term an unknown, in the order in which the unknowns first appear, without those that are
/// zero; and the sum of the constants. Each number is within 2^64 of 0. The cost is n log n comparisons.
pub fn collected<K: Exact + Ord + Drop>(
    alloc: Global,
    parts: &[Part<K>],
) -> Result<Terms<K>, AllocError>
    requires small { All IsTermSized parts.now }
    ensures terms { IfOk result (λ t. t.terms ≡ collected K.eq parts.now) }
    ensures constant { IfOk result (λ t. t.constant ≡ constant_of parts.now) }
{
    let mut sums = Sums::new(alloc);
    for part in parts {
        add_part(&mut sums, part)?;
    }
    Ok(Terms {
        terms: sums.kept(alloc)?,
        constant: constant(parts),
    })
}
