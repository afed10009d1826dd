//! What has numbers, each of which is within the bounds of a certificate's file, or isn't: numbers, pairs and lists.
ghost use Rattle.std.specs.Prelude.{◌≡◌};

use crate::numbers::{is_index, is_narrow, is_near};
use acc_base::sequences::Seq;

/// What has numbers.
pub trait Bounded {
    ghost use Rattle.std.specs.Prelude.{◌≡◌, Bool, IsTrue};

    ghost in_bounds: { Self → Bool };

    // of its numbers those that may have more than 64 bits, which are within the bounds where they are within 2^120 of 0
    ghost near: { Self → Bool };

    /// Whether its numbers are within the bounds of a certificate's file: each index is below 2^32, a linear value's numbers have 64 bits,
    /// and all others are within 2^120 of 0. The first two are so by their types, so it is up to the others alone (`near`).
    fn is_in_bounds(&self) -> bool
        ensures value { result ≡ in_bounds self.now }
        ensures near { IsTrue (near self.now) → IsTrue result };
}

impl Bounded for u32 {
    ghost use Rattle.std.specs.Prelude.{true};
    ghost use Rattle.acc_cert_bounds.specs.InBounds.{index};

    ghost in_bounds = { index };

    ghost near = { λ _. true };

    fn is_in_bounds(&self) -> bool {
        is_index(*self)
    }
}

impl Bounded for i64 {
    ghost use Rattle.std.specs.Prelude.{true};
    ghost use Rattle.acc_cert_bounds.specs.InBounds.{is_narrow};

    ghost in_bounds = { is_narrow };

    ghost near = { λ _. true };

    fn is_in_bounds(&self) -> bool {
        is_narrow(*self)
    }
}

impl Bounded for i128 {
    ghost use Rattle.acc_cert_bounds.specs.InBounds.{is_near};

    ghost in_bounds = { is_near };

    ghost near = { is_near };

    fn is_in_bounds(&self) -> bool {
        is_near(*self)
    }
}

impl<A: Bounded, B: Bounded> Bounded for (A, B) {
    ghost use Rattle.acc_cert_bounds.specs.InBounds.{pair};

    ghost in_bounds = { pair A.in_bounds B.in_bounds };

    ghost near = { pair A.near B.near };

    fn is_in_bounds(&self) -> bool {
        let (a, b) = self;
        a.is_in_bounds() && b.is_in_bounds()
    }
}

impl<A: Bounded> Bounded for Seq<A> {
    ghost use Rattle.std.specs.List.{list_all};

    ghost in_bounds = { list_all A.in_bounds };

    ghost near = { list_all A.near };

    fn is_in_bounds(&self) -> bool {
        for item in self.as_slice() {
            if !item.is_in_bounds() {
                return false;
            }
        }
        true
    }
}
