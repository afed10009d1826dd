//! Designs that were accepted.
ghost use Rattle.std.specs.Prelude.{◌≡◌};
ghost use Rattle.acc_base.specs.Soundness.{IsSound};
ghost use Rattle.acc_formed.specs.WellFormed.{IsWellFormed};
ghost use Rattle.acc_lift.specs.Acceptance.{IsAccepted};

use acc_base::designs::Design;
use std::marker::Model;

/// A design that was accepted: its type keeps that it is sound and well-formed. Contracts see the design.
///
/// Who has one needs no check of his own: each run of it by the rules of locks keeps the laws of this crate.
#[derive(Drop)]
pub struct Accepted {
    design: Design,
}

impl Model for Accepted {
    ghost use Rattle.acc_base.specs.declared.designs.Design.{Design};
    ghost use Rattle.acc_lift.specs.Acceptance.{IsAccepted};

    ghost Value = { Design };

    ghost view = { λ a. a.design };

    ghost invariant = { λ a. IsAccepted a.design };
}

impl Accepted {
    /// A design that is known to be sound and well-formed.
    pub fn new(design: Design) -> Self
        requires sound { IsSound design }
        requires formed { IsWellFormed design }
        ensures { result ≡ design }
    {
        Accepted { design }
    }

    /// The design, which is sound, well-formed and can be run. It takes no memory.
    pub fn design(&self) -> &Design
        ensures design { result.now ≡ self.now }
        ensures accepted { IsAccepted self.now }
    {
        &self.design
    }
}
