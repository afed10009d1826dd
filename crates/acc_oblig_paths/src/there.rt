//! The obligations that the row of each `set` and `add` is there.
ghost use Rattle.std.specs.Prelude.{◌≡◌, ◌<◌, length, map, take, All, IfOk};
ghost use Rattle.acc_base.specs.declared.bounds.TheConstants.{MOST_ACTIONS};
ghost use Rattle.acc_oblig_places.specs.ManyEntries.{IsFormedButEntries};
ghost use Rattle.acc_oblig.specs.Drafts.{setting_of};
ghost use Rattle.acc_oblig.specs.PathPromises.{row_there, there_at, there_drafts};
ghost use Rattle.acc_oblig_goals.specs.Causes.{Adds};
ghost use Rattle.acc_oblig_places.specs.Rooms.{IsSmallDesign, IsSmallPathPlace};
ghost use Rattle.acc_oblig_clauses.specs.Seen.{seen, HasRoom};
ghost use Rattle.acc_oblig_places.specs.SeenPlaces.{path_place};
ghost use Rattle.acc_oblig_places.specs.DesignPlaces.{joined, at_path_place};
ghost use Rattle.acc_oblig_paths.specs.Rows.{needed_row, needed_at};

use crate::names::names_after;
use acc_base::bounds::MOST_ACTIONS;
use acc_base::designs::Design;
use acc_base::forms::{Atom, Clause, Lin};
use acc_base::sequences::{Seq, copied};
use acc_base::sequents::{Rule, Sequent};
use acc_base::steps::Action;
use acc_oblig_clauses::Setting;
use acc_oblig_clauses::paths::{Cause, add_path_clause, path_origin, path_setting};
use acc_oblig_goals::errors::ObligError;
use acc_oblig_goals::{is_zero, one_term, times};
use acc_oblig_places::places::{PathPlace, all_paths};
use std::alloc::{AllocError, Global};

/// That a row is there.
fn row_there(alloc: Global, t: u32, k: &Seq<Lin>) -> Result<Clause, AllocError>
    ensures { IfOk result (λ c. c ≡ row_there (t, k.now)) }
{
    let has = times(alloc, 1, Atom::Has(t, copied(k)?));
    Ok(Clause {
        vars: Seq::new(alloc),
        guards: Seq::new(alloc),
        rel: is_zero(one_term(alloc, has, -1)?),
    })
}

/// That the row is there which an action changes, if it doesn't put or delete one.
fn needed_row(alloc: Global, a: &Action) -> Result<Option<Clause>, AllocError>
    ensures { IfOk result (λ o. o ≡ needed_row a.now) }
{
    match a {
        Action::Put(_, _, _) | Action::Del(_, _) => Ok(None),
        Action::Set(t, k, _, _) | Action::Add(t, k, _, _) => Ok(Some(row_there(alloc, *t, k)?)),
    }
}

/// The same of the action with number k, if there is one.
fn needed_at(alloc: Global, actions: &[Action], k: usize) -> Result<Option<Clause>, AllocError>
    ensures { IfOk result (λ o. o ≡ needed_at actions.now k) }
{
    match actions.get(k) {
        Some(a) => needed_row(alloc, a),
        None => Ok(None),
    }
}

/// The actions before the one with a number.
fn actions_before(actions: &[Action], number: usize) -> &[Action]
    ensures { result.now ≡ take number actions.now }
{
    let count = actions.len().min(number);
    &actions[..count]
}

/// The setting of a path before its action with number k.
fn setting_before<'a>(d: &'a Design, q: &PathPlace<'a>, k: usize) -> Setting<'a>
    requires design { IsSmallDesign d.now }
    requires small { IsSmallPathPlace (path_place q.now) }
    ensures seen { seen result ≡ record (setting_of d.now q.now.ty.now q.now.point.now q.now.step.now q.now.number q.now.path.now) {
      actions = take k q.now.path.now.actions;
    } }
    ensures room { HasRoom result }
{
    let mut s = path_setting(d, q);
    s.actions = actions_before(s.actions, k);
    s
}

/// Adds the obligation on the action of a path with number k.
fn add_path_row(
    alloc: Global,
    out: &mut Seq<Sequent>,
    d: &Design,
    q: &PathPlace<'_>,
    k: usize,
) -> Result<(), ObligError>
    requires design { IsSmallDesign d.now }
    requires small { IsSmallPathPlace (path_place q.now) }
    requires number { k < MOST_ACTIONS }
    ensures { Adds result out.old out.new (at_path_place (there_at d.now k) (path_place q.now)) }
{
    match needed_at(alloc, q.path.actions.as_slice(), k)? {
        None => Ok(()),
        Some(there) => {
            let s = setting_before(d, q, k);
            let names = names_after(alloc, &s)?;
            let cause = Cause {
                rule: Rule::There,
                held: None,
                clause: k as u32,
            };
            add_path_clause(alloc, out, path_origin(cause, q), &s, &names, &there)
        }
    }
}

/// Adds the obligations on the actions of paths with number k.
fn add_rows(
    alloc: Global,
    out: &mut Seq<Sequent>,
    d: &Design,
    paths: &[PathPlace<'_>],
    k: usize,
) -> Result<(), ObligError>
    requires design { IsSmallDesign d.now }
    requires small { All (λ q. IsSmallPathPlace (path_place q)) paths.now }
    requires number { k < MOST_ACTIONS }
    ensures { Adds result out.old out.new (joined (at_path_place (there_at d.now k)) (map path_place paths.now)) }
{
    for q in paths {
        add_path_row(alloc, out, d, q, k)?;
    }
    Ok(())
}

/// Adds the obligations that the rows of `set` and `add` are there, by the action's number and then path by path.
pub fn add_there(alloc: Global, out: &mut Seq<Sequent>, d: &Design) -> Result<(), ObligError>
    requires { IsFormedButEntries d.now }
    ensures { Adds result out.old out.new (there_drafts d.now) }
{
    let paths = all_paths(alloc, d)?;
    for k in 0..MOST_ACTIONS {
        add_rows(alloc, out, d, paths.as_slice(), k)?;
    }
    Ok(())
}
