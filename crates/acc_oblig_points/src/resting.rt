//! A transaction that rests at a point.
ghost use Rattle.std.specs.Prelude.{◌≡◌, All};
ghost use Rattle.acc_oblig.specs.PointRules.{resting};
ghost use Rattle.acc_oblig_places.specs.Rooms.{HasFewVars, IsSmallDesign, IsSmallType};
ghost use Rattle.acc_oblig_clauses.specs.Seen.{seen, HasRoom};

use acc_base::designs::{Design, TxType};
use acc_base::forms::Clause;
use acc_oblig_clauses::Setting;

/// The setting of a transaction that rests where these clauses hold.
pub fn resting<'a>(d: &'a Design, ty: &'a TxType, clauses: &'a [Clause]) -> Setting<'a>
    requires design { IsSmallDesign d.now }
    requires small { IsSmallType ty.now }
    requires few { All HasFewVars clauses.now }
    ensures seen { seen result ≡ resting d.now ty.now clauses.now }
    ensures room { HasRoom result }
{
    Setting {
        always: d.always.as_slice(),
        clauses,
        locals: ty.locals.len() as u32,
        reads: &[],
        earlier: &[],
        guard: &[],
        actions: &[],
    }
}
