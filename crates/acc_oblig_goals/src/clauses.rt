//! Clauses after actions, as relations and goals.
ghost use Rattle.std.specs.Prelude.{◌≡◌, ◌++◌, map, IfOk, OnOk};
ghost use Rattle.std.specs.List.{list_any};
ghost use Rattle.acc_oblig.specs.Preconditions.{wp_of, is_wp_wide};
ghost use Rattle.acc_wp.specs.Causes.{TellsWide};
ghost use Rattle.acc_oblig.specs.Naming.{named_rel};
ghost use Rattle.acc_oblig.specs.Drafts.{goals_of, is_clause_wide};
ghost use Rattle.acc_oblig_goals.specs.Causes.{TellsClause};

use crate::errors::ObligError;
use crate::goals::goals_of;
use acc_base::forms::{Clause, Form, Rel};
use acc_base::sequences::Seq;
use acc_base::sequents::Origin;
use acc_base::steps::Action;
use acc_oblig::naming::Naming;
use acc_oblig_named::naming::named_rel;
use acc_wp::{WpError, wp};
use std::alloc::Global;

/// A relation after actions, under its names.
fn rel_after(alloc: Global, actions: &[Action], n: &Naming, r: &Rel) -> Result<Rel, WpError>
    ensures value { IfOk result (λ s. s ≡ wp_of actions.now (named_rel n.now r.now)) }
    ensures wide { TellsWide result (is_wp_wide actions.now (named_rel n.now r.now)) }
{
    let named = named_rel(alloc, n, r)?;
    wp(alloc, actions, &named)
}

/// Adds relations after actions, under their names.
fn add_rels_after(
    alloc: Global,
    out: &mut Seq<Rel>,
    actions: &[Action],
    n: &Naming,
    rs: &[Rel],
) -> Result<(), WpError>
    ensures value { OnOk result (out.new ≡ out.old ++ map (wp_of actions.now) (map (named_rel n.now) rs.now)) }
    ensures wide { TellsWide result (list_any (is_wp_wide actions.now) (map (named_rel n.now) rs.now)) }
{
    for r in rs {
        out.push(rel_after(alloc, actions, n, r)?)?;
    }
    Ok(())
}

/// The goals of a clause after actions, under its names; its guards after them are added.
fn clause_after(
    alloc: Global,
    guards: &mut Seq<Rel>,
    actions: &[Action],
    n: &Naming,
    c: &Clause,
) -> Result<Seq<Form>, WpError>
    ensures guards { OnOk result (guards.new ≡ guards.old ++ map (wp_of actions.now) (map (named_rel n.now) c.now.guards)) }
    ensures goals { IfOk result (λ fs. fs ≡ goals_of (wp_of actions.now (named_rel n.now c.now.rel))) }
    ensures wide { TellsWide result (is_clause_wide actions.now (map (named_rel n.now) c.now.guards) (named_rel n.now c.now.rel)) }
{
    let r = rel_after(alloc, actions, n, &c.rel)?;
    let goals = goals_of(alloc, r)?;
    add_rels_after(alloc, guards, actions, n, c.guards.as_slice())?;
    Ok(goals)
}

/// The same, and where a number of the relation, of a goal or of a guard is too large the place that the clause's obligations
/// come from.
pub fn goals_after(
    alloc: Global,
    guards: &mut Seq<Rel>,
    origin: &Origin,
    actions: &[Action],
    n: &Naming,
    c: &Clause,
) -> Result<Seq<Form>, ObligError>
    ensures guards { OnOk result (guards.new ≡ guards.old ++ map (wp_of actions.now) (map (named_rel n.now) c.now.guards)) }
    ensures goals { IfOk result (λ fs. fs ≡ goals_of (wp_of actions.now (named_rel n.now c.now.rel))) }
    ensures wide { TellsClause result origin.now
        (is_clause_wide actions.now (map (named_rel n.now) c.now.guards) (named_rel n.now c.now.rel)) }
{
    match clause_after(alloc, guards, actions, n, c) {
        Ok(goals) => Ok(goals),
        Err(WpError::Wide) => Err(ObligError::Wide(*origin)),
        Err(WpError::Memory) => Err(ObligError::Memory),
    }
}
