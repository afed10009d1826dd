//! Why a design isn't accepted.
ghost use Rattle.std.specs.Prelude.{◌≡◌};
ghost use Rattle.acc_accept.specs.declared.refusals.Refusal.TheVariants.{Memory as OutOfMemory};
ghost use Rattle.acc_accept.specs.Accepting.{refusal_of};

use acc_base::rules::FormRule;
use acc_base::sequents::Origin;
use acc_oblig_paths::ObligError;
use std::alloc::AllocError;

/// Why a design isn't accepted with a certificate.
#[derive(Drop)]
pub enum Refusal {
    /// The form rule with the lowest number that is broken, and the first line of the design's print that breaks it, 0 for `Ranges`.
    Form(FormRule, u64),
    /// A number of an obligation is too large. The first such obligation comes from here.
    ObligWide(Origin),
    /// The certificate has no proof at the place of the obligation from here.
    Missing(Origin),
    /// The check of the proof of the obligation from here has a number that is too large.
    ProofWide(Origin),
    /// What stands at the place of the obligation from here is no proof of it.
    NotProved(Origin),
    /// Memory ran out.
    Memory,
}

impl From<AllocError> for Refusal {
    ghost from_gives = { λ _ r. r ≡ OutOfMemory };

    fn from(_: AllocError) -> Self {
        Refusal::Memory
    }
}

impl From<ObligError> for Refusal {
    ghost from_gives = { λ e r. r ≡ refusal_of e };

    fn from(error: ObligError) -> Self {
        match error {
            ObligError::Wide(origin) => Refusal::ObligWide(origin),
            ObligError::Memory => Refusal::Memory,
        }
    }
}
