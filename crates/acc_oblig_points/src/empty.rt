//! The obligations that what holds always holds of no rows.
ghost use Rattle.std.specs.Prelude.{◌≡◌, ◌+◌, ◌<◌, ◌^◌};
ghost use Rattle.acc_oblig_places.specs.ManyEntries.{IsFormedButEntries};
ghost use Rattle.acc_oblig.specs.PathPromises.{empty_origin, empty_drafts};
ghost use Rattle.acc_oblig_goals.specs.Causes.{Adds};
ghost use Rattle.acc_oblig_places.specs.Rooms.{HasFewVars};
ghost use Rattle.acc_oblig_points.specs.OneClause.{empty_clause_drafts};

use acc_base::designs::{Design, Side};
use acc_base::forms::Clause;
use acc_base::sequences::Seq;
use acc_base::sequents::{Origin, Rule, Sequent};
use acc_oblig_goals::errors::ObligError;
use acc_oblig_goals::own_naming;
use acc_oblig_goals::sequents::{Shared, add_clause};
use std::alloc::Global;

/// Where the first obligation of a clause comes from.
fn empty_origin(clause: u32) -> Origin
    requires { clause + 1 < 2 ^ 32 }
    ensures { result ≡ empty_origin clause 1 }
{
    Origin {
        rule: Rule::Empty,
        held: None,
        clause: clause + 1,
        at: None,
        side: Side::Next,
        path: 0,
        case: 1,
    }
}

/// Adds the obligations that a clause holds of no rows.
fn add_empty_clause(
    alloc: Global,
    out: &mut Seq<Sequent>,
    k: u32,
    c: &Clause,
) -> Result<(), ObligError>
    requires number { k + 1 < 2 ^ 32 }
    requires few { HasFewVars c.now }
    ensures { Adds result out.old out.new (empty_clause_drafts k c.now) }
{
    let vars = c.vars.len() as u32;
    let n = own_naming(&Seq::new(alloc), 0, vars)?;
    let shared = Shared {
        origin: empty_origin(k),
        vars,
        hyps: Seq::new(alloc),
        rels: Seq::new(alloc),
    };
    add_clause(alloc, out, shared, &[], &n, c)
}

/// Adds the obligations that what holds always holds of no rows, clause by clause.
pub fn add_empty(alloc: Global, out: &mut Seq<Sequent>, d: &Design) -> Result<(), ObligError>
    requires { IsFormedButEntries d.now }
    ensures { Adds result out.old out.new (empty_drafts d.now) }
{
    let clauses = d.always.as_slice();
    for (k, c) in clauses.iter().enumerate() {
        add_empty_clause(alloc, out, k as u32, c)?;
    }
    Ok(())
}
