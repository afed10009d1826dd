//! The trial of a clause.
ghost use Rattle.std.specs.Prelude.{◌≡◌, All, Some, true};
ghost use Rattle.acc_audit_trial.specs.Trials.{AreKeyed, CanMeet, CanTry, all_met, told_by, trial_of, TellsTruth};

use crate::forms::rel_worth;
use acc_base::forms::{Clause, Rel};
use acc_store::Store;

/// What the trial of a clause tells.
#[derive(Clone, Copy, Debug, PartialEq, Eq)]
pub enum Trial {
    /// The guards imply the relation.
    Holds,
    /// The guards are true, and the relation isn't.
    Fails,
    /// A product or a sum on the way lies beyond 2^120 on either side of 0.
    Large,
}

/// Whether guards are true, tried in order up to the first that is false.
fn all_met<S: Store>(s: &S, guards: &[Rel], values: &[i64]) -> Option<bool>
    requires keyed { AreKeyed (S.rows s.now) }
    requires can { All CanMeet guards.now }
    ensures { result ≡ all_met (S.rows s.now) values.now guards.now }
{
    for guard in guards {
        match rel_worth(s, guard, values) {
            Some(met) => {
                if !met {
                    return Some(false);
                }
            }
            None => return None,
        }
    }
    Some(true)
}

/// What a relation tells behind guards that are true.
fn told_by(rel: Option<bool>) -> Trial
    ensures { result ≡ told_by (Some true) rel }
{
    match rel {
        Some(met) => { if met { Trial::Holds } else { Trial::Fails } }
        None => Trial::Large,
    }
}

/// Tries a clause at values for all its variables, its own behind the others: the guards in order, up to the first that is false, and
/// where none is, the relation. The numbers on the way are the products, and the sums as terms are added from the first on, the
/// constant last, of linear values and of forms.
///
/// It takes no memory. The cost is a look-up an atom.
pub fn tried<S: Store>(s: &S, clause: &Clause, values: &[i64]) -> Trial
    requires keyed { AreKeyed (S.rows s.now) }
    requires can { CanTry clause.now }
    ensures trial { result ≡ trial_of (S.rows s.now) values.now clause.now }
    ensures truth { TellsTruth (S.rows s.now) values.now clause.now result }
{
    match all_met(s, clause.guards.as_slice(), values) {
        Some(met) => {
            if met {
                told_by(rel_worth(s, &clause.rel, values))
            } else {
                Trial::Holds
            }
        }
        None => Trial::Large,
    }
}
