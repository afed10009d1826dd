//! Whether an unknown is known.
ghost use Rattle.std.specs.Prelude.{◌≡◌};
ghost use Rattle.acc_prover_candidates.specs.Candidates.{is_known};

use acc_base::forms::Unknown;
use acc_elim_readings::readings::place_of;

/// Whether an unknown is among others.
pub fn is_known(names: &[Unknown], unknown: &Unknown) -> bool
    ensures { result ≡ is_known names.now unknown.now }
{
    place_of(names, unknown).is_some()
}
