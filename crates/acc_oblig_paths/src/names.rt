//! The names that clauses have after the reads of a step.
ghost use Rattle.std.specs.Prelude.{◌≡◌, [], ◌∷◌, ◌++◌, IfOk};
ghost use Rattle.acc_oblig.specs.Settings.{last_now};
ghost use Rattle.acc_oblig_clauses.specs.Seen.{seen, HasRoom};

use acc_base::sequences::Seq;
use acc_oblig_clauses::{Setting, behind, last_names};
use std::alloc::{AllocError, Global};

/// The variables of the locals after a step's reads, and behind them that of `self`.
pub fn names_after(alloc: Global, s: &Setting<'_>) -> Result<Seq<u32>, AllocError>
    requires { HasRoom s.now }
    ensures { IfOk result (λ xs. xs ≡ last_now (seen s.now) ++ s.now.locals ∷ []) }
{
    let now = last_names(alloc, s)?;
    behind(&now, s.locals)
}
