//! The obligations that a path keeps what holds always.
ghost use Rattle.std.specs.Prelude.{◌≡◌, ◌+◌, ◌<◌, ◌^◌, map, All};
ghost use Rattle.acc_oblig_places.specs.ManyEntries.{IsFormedButEntries};
ghost use Rattle.acc_oblig.specs.PathPromises.{always_at, always_drafts};
ghost use Rattle.acc_oblig_goals.specs.Causes.{Adds};
ghost use Rattle.acc_oblig_places.specs.Rooms.{HasFewVars, IsSmallDesign, IsSmallPathPlace};
ghost use Rattle.acc_oblig_places.specs.SeenPlaces.{path_place};
ghost use Rattle.acc_oblig_places.specs.DesignPlaces.{joined, at_path_place};

use crate::tables::clause_names;
use acc_base::designs::Design;
use acc_base::forms::Clause;
use acc_base::sequences::Seq;
use acc_base::sequents::{Rule, Sequent};
use acc_oblig_clauses::paths::{Cause, add_path_clause, path_origin, path_setting};
use acc_oblig_goals::errors::ObligError;
use acc_oblig_places::places::{PathPlace, all_paths};
use std::alloc::Global;

/// Adds the obligation that a path keeps a clause, if the clause names a table that the path changes.
fn add_path_always(
    alloc: Global,
    out: &mut Seq<Sequent>,
    d: &Design,
    q: &PathPlace<'_>,
    k: u32,
    c: &Clause,
) -> Result<(), ObligError>
    requires design { IsSmallDesign d.now }
    requires small { IsSmallPathPlace (path_place q.now) }
    requires number { k + 1 < 2 ^ 32 }
    requires few { HasFewVars c.now }
    ensures { Adds result out.old out.new (at_path_place (always_at d.now k c.now) (path_place q.now)) }
{
    if !clause_names(q.path.actions.as_slice(), c) {
        return Ok(());
    }
    let s = path_setting(d, q);
    let cause = Cause {
        rule: Rule::Always,
        held: None,
        clause: k,
    };
    add_path_clause(alloc, out, path_origin(cause, q), &s, &Seq::new(alloc), c)
}

/// Adds the obligations that paths keep a clause.
fn add_clause_always(
    alloc: Global,
    out: &mut Seq<Sequent>,
    d: &Design,
    paths: &[PathPlace<'_>],
    k: u32,
    c: &Clause,
) -> Result<(), ObligError>
    requires design { IsSmallDesign d.now }
    requires small { All (λ q. IsSmallPathPlace (path_place q)) paths.now }
    requires number { k + 1 < 2 ^ 32 }
    requires few { HasFewVars c.now }
    ensures { Adds result out.old out.new (joined (at_path_place (always_at d.now k c.now)) (map path_place paths.now)) }
{
    for q in paths {
        add_path_always(alloc, out, d, q, k, c)?;
    }
    Ok(())
}

/// Adds the obligations that each path keeps what holds always, clause by clause and then path by path.
pub fn add_always(alloc: Global, out: &mut Seq<Sequent>, d: &Design) -> Result<(), ObligError>
    requires { IsFormedButEntries d.now }
    ensures { Adds result out.old out.new (always_drafts d.now) }
{
    let paths = all_paths(alloc, d)?;
    let clauses = d.always.as_slice();
    for (k, c) in clauses.iter().enumerate() {
        add_clause_always(alloc, out, d, paths.as_slice(), k as u32, c)?;
    }
    Ok(())
}
