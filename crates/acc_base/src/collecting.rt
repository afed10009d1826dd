//! Terms, collected: a sum an unknown, which is found by the unknown.
ghost use Rattle.std.specs.Prelude.{◌≡◌, ◌<◌, [], ◌∷◌, ◌++◌, length, filter, not, pos, IfOk, IfSome, None, OnOk};
ghost use Rattle.std.specs.Ordering.{int_eq};
ghost use Rattle.std.specs.List.{list_any};
ghost use Rattle.acc_base.specs.Collecting.{sum_of, place_of, with_sum, is_left};

use crate::sequences::{Exact, Seq, copied};
use std::alloc::{AllocError, Global};
use std::collections::BTreeMap;
use std::marker::Model;

/// Whether a sum stays: it isn't 0.
fn is_left(sum: i128) -> bool
    ensures { result ≡ not (int_eq sum (pos 0)) }
{
    sum != 0
}

/// Adds an unknown again, with a sum.
fn push_copy<K: Exact + Drop>(
    terms: &mut Seq<(K, i128)>,
    unknown: &K,
    sum: i128,
) -> Result<(), AllocError>
    ensures { OnOk result (terms.new ≡ terms.old ++ (unknown.now, sum) ∷ []) }
{
    terms.push((copied(unknown)?, sum))
}

/// The sum of each unknown, in the order in which the unknowns first appear, and the place of each.
#[derive(Drop)]
pub struct Sums<'a, K: Exact + Ord> {
    sums: Vec<(&'a K, i128)>,
    places: BTreeMap<&'a K, usize>,
}

impl<'a, K: Exact + Ord> Model for Sums<'a, K> {
    ghost use Rattle.std.specs.Prelude.{List, ℤ};

    ghost Value = { List (K × ℤ) };

    ghost use Rattle.acc_base.specs.Collecting.{sums_in, Tracks};

    ghost view = { λ s. sums_in s.sums.items };

    ghost invariant = { λ s. Tracks K.eq K.cmp (sums_in s.sums.items) s.places };
}

impl<'a, K: Exact + Ord> Sums<'a, K> {
    /// No sums.
    pub fn new(alloc: Global) -> Self
        ensures { result ≡ [] }
    {
        Sums {
            sums: Vec::new(alloc),
            places: BTreeMap::new(alloc),
        }
    }

    /// The place of an unknown.
    fn place(&self, unknown: &'a K) -> Option<usize>
        ensures value { result ≡ place_of K.eq unknown.now self.now }
        ensures within { IfSome result (λ i. i < length self.now) }
    {
        self.places.get(&unknown).copied()
    }

    /// The sum of an unknown, and 0 where it has none. The cost is log n comparisons.
    pub fn of(&self, unknown: &'a K) -> i128
        ensures { result ≡ sum_of K.eq unknown.now self.now }
    {
        match self.place(unknown) {
            Some(place) => self.sums[place].1,
            None => 0,
        }
    }

    /// Adds a new unknown behind the others.
    fn push(&mut self, unknown: &'a K, sum: i128) -> Result<(), AllocError>
        requires { place_of K.eq unknown.now self.old ≡ None }
        ensures { OnOk result (self.new ≡ self.old ++ (unknown.now, sum) ∷ []) }
    {
        let place = self.sums.len();
        self.sums.push((unknown, sum))?;
        match self.places.insert(unknown, place) {
            Ok(_) => Ok(()),
            Err(_) => {
                let _ = self.sums.pop();
                Err(AllocError)
            }
        }
    }

    /// Gives an unknown a sum; it comes last where it is new. The cost is log n comparisons.
    pub fn put(&mut self, unknown: &'a K, sum: i128) -> Result<(), AllocError>
        ensures { OnOk result (self.new ≡ with_sum K.eq unknown.now sum self.old) }
    {
        match self.place(unknown) {
            Some(place) => {
                self.sums[place].1 = sum;
                Ok(())
            }
            None => self.push(unknown, sum),
        }
    }

    /// Whether a sum is not zero.
    pub fn any_left(&self) -> bool
        ensures { result ≡ list_any is_left self.now }
    {
        for (_, sum) in &self.sums {
            if is_left(*sum) {
                return true;
            }
        }
        false
    }

    /// The sums that are not zero.
    pub fn kept(&self, alloc: Global) -> Result<Seq<(K, i128)>, AllocError>
    where
        K: Drop,
        ensures { IfOk result (λ ts. ts ≡ filter is_left self.now) }
    {
        let mut terms = Seq::new(alloc);
        for (unknown, sum) in &self.sums {
            if is_left(*sum) {
                push_copy(&mut terms, *unknown, *sum)?;
            }
        }
        Ok(terms)
    }
}
