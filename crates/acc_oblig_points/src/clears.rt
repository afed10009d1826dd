//! The obligations that what has ended leaves no private row that its type puts.
ghost use Rattle.std.specs.Prelude.{◌≡◌, ◌&&◌, ◌+◌, ◌≤◌, ◌<◌, ◌^◌, ◌++◌, ◌∷◌, [], map, replicate, codes, All, Some, IfOk, OnOk};
ghost use Rattle.std.specs.List.{list_any};
ghost use Rattle.acc_base.specs.declared.bounds.TheConstants.{MOST_KEY_PARTS};
ghost use Rattle.acc_base.specs.PrivateRows.{puts_into, step_puts, type_puts};
ghost use Rattle.acc_base.specs.Items.{numbers_from};
ghost use Rattle.acc_oblig_places.specs.ManyEntries.{IsFormedButEntries};
ghost use Rattle.acc_oblig.specs.Relations.{alone};
ghost use Rattle.acc_oblig.specs.PointRules.{clear_at, clear_drafts, is_end, none_of};
ghost use Rattle.acc_oblig_goals.specs.Causes.{Adds};
ghost use Rattle.acc_oblig_places.specs.Rooms.{IsSmallDesign, IsSmallPathPlace, IsSmallTable};
ghost use Rattle.acc_oblig_places.specs.SeenPlaces.{path_place};
ghost use Rattle.acc_oblig_places.specs.DesignPlaces.{joined, at_path_place};
ghost use Rattle.acc_oblig_points.specs.Clears.{path_clears};

use acc_base::designs::{Design, TxType};
use acc_base::forms::{Atom, Clause, Lin};
use acc_base::sequences::{Seq, Text};
use acc_base::sequents::{Rule, Sequent};
use acc_base::steps::{Action, Step, Target};
use acc_base::tables::Table;
use acc_oblig_clauses::paths::{Cause, add_path_clause, path_origin, path_setting};
use acc_oblig_clauses::{behind, last_names, own_name};
use acc_oblig_goals::errors::ObligError;
use acc_oblig_goals::{alone, is_zero, one_term, times};
use acc_oblig_places::places::{PathPlace, all_paths};
use std::alloc::{AllocError, Global};

fn puts_into(t: u32, a: &Action) -> bool
    ensures { result ≡ puts_into t a.now }
{
    match a {
        Action::Put(u, _, _) => *u == t,
        Action::Del(_, _) | Action::Set(_, _, _, _) | Action::Add(_, _, _, _) => false,
    }
}

fn path_puts(t: u32, actions: &[Action]) -> bool
    ensures { result ≡ list_any (puts_into t) actions.now }
{
    actions.iter().any(|a| puts_into(t, a))
}

fn step_puts(t: u32, s: &Step) -> bool
    ensures { result ≡ step_puts t s.now }
{
    let paths = s.paths.as_slice();
    paths.iter().any(|p| path_puts(t, p.actions.as_slice()))
}

/// Whether a step of a type has a path that puts into a table.
fn type_puts(t: u32, ty: &TxType) -> bool
    ensures { result ≡ type_puts t (Some ty.now) }
{
    let points = ty.points.as_slice();
    points
        .iter()
        .any(|p| step_puts(t, &p.next) || step_puts(t, &p.undo))
}

/// Whether a path with this target ends its transaction with a promise.
fn is_end(target: Target) -> bool
    ensures { result ≡ is_end target }
{
    match target {
        Target::Commit | Target::Undone => true,
        Target::Point(_) | Target::Refuse(_) => false,
    }
}

/// Whether a path of a type with this target leaves no row of its transaction's in a table: the table is private, the type puts into
/// it, and the path ends its transaction.
fn is_cleared(t: u32, table: &Table, ty: &TxType, target: Target) -> bool
    ensures { result ≡ (table.now.own && type_puts t (Some ty.now) && is_end target) }
{
    table.own && type_puts(t, ty) && is_end(target)
}

/// Adds so many times the name `k`.
fn add_own_names(alloc: Global, out: &mut Seq<Text>, n: u32) -> Result<(), AllocError>
    ensures { OnOk result (out.new ≡ out.old ++ replicate n (codes "k")) }
{
    for i in 0..n {
        out.push(own_name(alloc)?)?;
    }
    Ok(())
}

/// Adds so many variables, from one on, as linear values.
fn add_alone(alloc: Global, out: &mut Seq<Lin>, from: u32, n: u32) -> Result<(), AllocError>
    requires { from + n < 2 ^ 32 }
    ensures { OnOk result (out.new ≡ out.old ++ map alone (numbers_from from n)) }
{
    for i in 0..n {
        out.push(alone(alloc, from + i)?)?;
    }
    Ok(())
}

/// That no row of a table has a key that ends in `self`, which is the variable `me`; the other components are the clause's own
/// variables.
fn none_of(alloc: Global, me: u32, t: u32, width: u32) -> Result<Clause, AllocError>
    requires { me + 1 + width < 2 ^ 32 }
    ensures { IfOk result (λ c. c ≡ none_of me t width) }
{
    let others = width.saturating_sub(1);
    let mut vars = Seq::new(alloc);
    add_own_names(alloc, &mut vars, others)?;
    let mut key = Seq::new(alloc);
    add_alone(alloc, &mut key, me + 1, others)?;
    key.push(alone(alloc, me)?)?;
    let has = times(alloc, 1, Atom::Has(t, key));
    Ok(Clause {
        vars,
        guards: Seq::new(alloc),
        rel: is_zero(one_term(alloc, has, 0)?),
    })
}

/// Adds the obligation that a path clears a table whose keys have so many components.
fn add_clear(
    alloc: Global,
    out: &mut Seq<Sequent>,
    d: &Design,
    q: &PathPlace<'_>,
    t: u32,
    width: u32,
) -> Result<(), ObligError>
    requires number { t + 1 < 2 ^ 32 }
    requires width { width ≤ MOST_KEY_PARTS }
    requires design { IsSmallDesign d.now }
    requires small { IsSmallPathPlace (path_place q.now) }
    ensures { Adds result out.old out.new (path_clears d.now t width (path_place q.now)) }
{
    let s = path_setting(d, q);
    let names = behind(&last_names(alloc, &s)?, s.locals)?;
    let clear = none_of(alloc, s.locals, t, width)?;
    let cause = Cause {
        rule: Rule::Clears,
        held: None,
        clause: t,
    };
    add_path_clause(alloc, out, path_origin(cause, q), &s, &names, &clear)
}

/// Adds the obligation that a path clears a table, if it has to.
fn add_path_clear(
    alloc: Global,
    out: &mut Seq<Sequent>,
    d: &Design,
    q: &PathPlace<'_>,
    t: u32,
    table: &Table,
) -> Result<(), ObligError>
    requires number { t + 1 < 2 ^ 32 }
    requires table { IsSmallTable table.now }
    requires design { IsSmallDesign d.now }
    requires small { IsSmallPathPlace (path_place q.now) }
    ensures { Adds result out.old out.new (at_path_place (clear_at d.now t table.now) (path_place q.now)) }
{
    if !is_cleared(t, table, q.ty, q.path.target) {
        return Ok(());
    }
    add_clear(alloc, out, d, q, t, table.width)
}

/// Adds the obligations that paths clear a table.
fn add_table_clears(
    alloc: Global,
    out: &mut Seq<Sequent>,
    d: &Design,
    paths: &[PathPlace<'_>],
    t: u32,
    table: &Table,
) -> Result<(), ObligError>
    requires number { t + 1 < 2 ^ 32 }
    requires table { IsSmallTable table.now }
    requires design { IsSmallDesign d.now }
    requires small { All (λ q. IsSmallPathPlace (path_place q)) paths.now }
    ensures { Adds result out.old out.new (joined (at_path_place (clear_at d.now t table.now)) (map path_place paths.now)) }
{
    for q in paths {
        add_path_clear(alloc, out, d, q, t, table)?;
    }
    Ok(())
}

/// Adds the obligations that a transaction which ends leaves no row of its own in a private table that its type puts into, table by
/// table and then path by path.
pub fn add_clears(alloc: Global, out: &mut Seq<Sequent>, d: &Design) -> Result<(), ObligError>
    requires { IsFormedButEntries d.now }
    ensures { Adds result out.old out.new (clear_drafts d.now) }
{
    let paths = all_paths(alloc, d)?;
    let tables = d.tables.as_slice();
    for (t, table) in tables.iter().enumerate() {
        add_table_clears(alloc, out, d, paths.as_slice(), t as u32, table)?;
    }
    Ok(())
}
