//! Which path of a step is taken.
ghost use Rattle.std.specs.Prelude.{◌≡◌, ◌<◌, length, IfSome};
ghost use Rattle.std.specs.List.{list_all};
ghost use Rattle.acc_base.specs.Linear.{lin_rel_true, meets};
ghost use Rattle.acc_base.specs.Effects.{taken_path};
ghost use Rattle.acc_step.specs.Variables.{values_of};

use crate::values::linear;
use crate::variables::Variables;
use acc_base::forms::LinRel;
use acc_base::steps::Path;

/// Whether a value is 0, or at most 0.
fn meets_zero(equal: bool, v: i128) -> bool
    ensures { result ≡ meets equal v }
{
    if equal { v == 0 } else { v <= 0 }
}

/// Whether a relation is true.
#[tactic(auto, using(crate::proofs::Alike::alike_meets))]
fn is_true(r: &LinRel, variables: &Variables) -> bool
    ensures { result ≡ lin_rel_true (values_of variables.now) r.now }
{
    meets_zero(r.equal, linear(&r.lin, variables))
}

/// Whether all relations are true.
fn are_true(guard: &[LinRel], variables: &Variables) -> bool
    ensures { result ≡ list_all (lin_rel_true (values_of variables.now)) guard.now }
{
    for r in guard {
        if !is_true(r, variables) {
            return false;
        }
    }
    true
}

/// Whether the guard of a path is true.
fn is_open(path: &Path, variables: &Variables) -> bool
    ensures { result ≡ list_all (lin_rel_true (values_of variables.now)) path.now.guard }
{
    are_true(path.guard.as_slice(), variables)
}

/// The first path whose guard is true.
pub fn path_taken(paths: &[Path], variables: &Variables) -> Option<usize>
    ensures first { result ≡ taken_path (values_of variables.now) paths.now }
    ensures within { IfSome result (λ i. i < length paths.now) }
{
    for i in 0..paths.len() {
        if is_open(&paths[i], variables) {
            return Some(i);
        }
    }
    None
}
