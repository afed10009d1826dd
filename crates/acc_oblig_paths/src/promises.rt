//! The obligations that a path leaves what its target promises.
ghost use Rattle.std.specs.Prelude.{◌≡◌, ◌<◌, map, All, slice_get};
ghost use Rattle.acc_base.specs.declared.bounds.TheConstants.{MOST_CLAUSES};
ghost use Rattle.acc_oblig_places.specs.ManyEntries.{IsFormedButEntries};
ghost use Rattle.acc_oblig.specs.PathPromises.{point_clauses, promised, promise_at, promise_drafts};
ghost use Rattle.acc_oblig_goals.specs.Causes.{Adds};
ghost use Rattle.acc_oblig_places.specs.Rooms.{HasFewVars, IsSmallDesign, IsSmallPathPlace, IsSmallType};
ghost use Rattle.acc_oblig_places.specs.SeenPlaces.{path_place};
ghost use Rattle.acc_oblig_places.specs.DesignPlaces.{joined, at_path_place};

use crate::names::names_after;
use acc_base::bounds::MOST_CLAUSES;
use acc_base::designs::{Design, TxType};
use acc_base::forms::Clause;
use acc_base::sequences::Seq;
use acc_base::sequents::{Rule, Sequent};
use acc_base::steps::Target;
use acc_oblig_clauses::paths::{Cause, add_path_clause, path_origin, path_setting};
use acc_oblig_goals::errors::ObligError;
use acc_oblig_places::places::{PathPlace, all_paths};
use std::alloc::Global;

/// The clauses of a point of a type.
fn point_clauses(ty: &TxType, point: u32) -> &[Clause]
    ensures { result.now ≡ point_clauses (slice_get ty.now.points point) }
{
    match ty.points.as_slice().get(point as usize) {
        Some(p) => p.clauses.as_slice(),
        None => &[],
    }
}

/// What a target promises.
fn promised(ty: &TxType, target: Target) -> &[Clause]
    ensures { result.now ≡ promised ty.now target }
{
    match target {
        Target::Point(p) => point_clauses(ty, p),
        Target::Commit => ty.posts.as_slice(),
        Target::Undone => ty.repairs.as_slice(),
        Target::Refuse(_) => &[],
    }
}

/// Adds the obligation that a path leaves the clause with number k that its target promises, if there is one.
fn add_path_promise(
    alloc: Global,
    out: &mut Seq<Sequent>,
    d: &Design,
    q: &PathPlace<'_>,
    k: usize,
) -> Result<(), ObligError>
    requires design { IsSmallDesign d.now }
    requires small { IsSmallPathPlace (path_place q.now) }
    requires number { k < MOST_CLAUSES }
    ensures { Adds result out.old out.new (at_path_place (promise_at d.now k) (path_place q.now)) }
{
    match promised(q.ty, q.path.target).get(k) {
        None => Ok(()),
        Some(c) => {
            let s = path_setting(d, q);
            let names = names_after(alloc, &s)?;
            let cause = Cause {
                rule: Rule::Promises,
                held: None,
                clause: k as u32,
            };
            add_path_clause(alloc, out, path_origin(cause, q), &s, &names, c)
        }
    }
}

/// Adds the obligations that paths leave the clauses with number k that their targets promise.
fn add_number_promises(
    alloc: Global,
    out: &mut Seq<Sequent>,
    d: &Design,
    paths: &[PathPlace<'_>],
    k: usize,
) -> Result<(), ObligError>
    requires design { IsSmallDesign d.now }
    requires small { All (λ q. IsSmallPathPlace (path_place q)) paths.now }
    requires number { k < MOST_CLAUSES }
    ensures { Adds result out.old out.new (joined (at_path_place (promise_at d.now k)) (map path_place paths.now)) }
{
    for q in paths {
        add_path_promise(alloc, out, d, q, k)?;
    }
    Ok(())
}

/// Adds the obligations that each path leaves what its target promises, by the clause's number and then path by path.
pub fn add_promises(alloc: Global, out: &mut Seq<Sequent>, d: &Design) -> Result<(), ObligError>
    requires { IsFormedButEntries d.now }
    ensures { Adds result out.old out.new (promise_drafts d.now) }
{
    let paths = all_paths(alloc, d)?;
    for k in 0..MOST_CLAUSES {
        add_number_promises(alloc, out, d, paths.as_slice(), k)?;
    }
    Ok(())
}
