//! The totals that clauses read.
ghost use Rattle.std.specs.Prelude.{◌≡◌, ◌||◌, IfOk, OnOk};
ghost use Rattle.std.specs.List.{list_any};
ghost use Rattle.acc_index_store.specs.declared.prefixes.Prefixes.{Prefixes};
ghost use Rattle.acc_index_store.specs.Asked.{is_alike, Adds};
ghost use Rattle.acc_audit.specs.Totals.{total_of, total_in_term, total_in_rel, total_in_clause, total_in_point, total_in_type, total_in_design};

use acc_base::designs::{Design, Point, TxType};
use acc_base::forms::{Atom, Clause, Rel, Unknown};
use acc_index_store::{Prefixes, add};
use std::alloc::{AllocError, Global};

/// The totals that are the value of an atom, if it is a number of rows or a sum.
fn total_of(atom: &Atom) -> Option<Prefixes>
    ensures { result ≡ total_of atom.now }
{
    match atom {
        Atom::Count(table, prefix) => Some(Prefixes {
            table: *table,
            parts: prefix.len(),
            col: 0,
        }),
        Atom::Sum(table, prefix, col) => Some(Prefixes {
            table: *table,
            parts: prefix.len(),
            col: *col,
        }),
        Atom::One | Atom::Var(_) => None,
        Atom::Has(_, _) | Atom::Col(_, _, _) => None,
    }
}

/// Adds what a term reads.
fn add_term(kept: &mut Vec<Prefixes>, term: &(Unknown, i128)) -> Result<(), AllocError>
    ensures { OnOk result (Adds (λ k. total_in_term k term.now) kept.old.items kept.new.items) }
{
    match total_of(&term.0.atom) {
        Some(prefixes) => add(kept, prefixes),
        None => Ok(()),
    }
}

/// Adds what a relation reads.
fn add_rel(kept: &mut Vec<Prefixes>, rel: &Rel) -> Result<(), AllocError>
    ensures { OnOk result (Adds (λ k. total_in_rel k rel.now) kept.old.items kept.new.items) }
{
    for term in rel.form.terms.as_slice() {
        add_term(kept, term)?;
    }
    Ok(())
}

/// Adds what relations read.
fn add_rels(kept: &mut Vec<Prefixes>, rels: &[Rel]) -> Result<(), AllocError>
    ensures { OnOk result (Adds (λ k. list_any (total_in_rel k) rels.now) kept.old.items kept.new.items) }
{
    for rel in rels {
        add_rel(kept, rel)?;
    }
    Ok(())
}

/// Adds what a clause reads.
fn add_clause(kept: &mut Vec<Prefixes>, clause: &Clause) -> Result<(), AllocError>
    ensures { OnOk result (Adds (λ k. total_in_clause k clause.now) kept.old.items kept.new.items) }
{
    add_rels(kept, clause.guards.as_slice())?;
    add_rel(kept, &clause.rel)
}

/// Adds what clauses read.
fn add_clauses(kept: &mut Vec<Prefixes>, clauses: &[Clause]) -> Result<(), AllocError>
    ensures { OnOk result (Adds (λ k. list_any (total_in_clause k) clauses.now) kept.old.items kept.new.items) }
{
    for clause in clauses {
        add_clause(kept, clause)?;
    }
    Ok(())
}

/// Adds what the assertions of points read.
fn add_points(kept: &mut Vec<Prefixes>, points: &[Point]) -> Result<(), AllocError>
    ensures { OnOk result (Adds (λ k. list_any (total_in_point k) points.now) kept.old.items kept.new.items) }
{
    for point in points {
        add_clauses(kept, point.clauses.as_slice())?;
    }
    Ok(())
}

/// Adds what the assertions of the points of types read.
fn add_types(kept: &mut Vec<Prefixes>, types: &[TxType]) -> Result<(), AllocError>
    ensures { OnOk result (Adds (λ k. list_any (total_in_type k) types.now) kept.old.items kept.new.items) }
{
    for ty in types {
        add_points(kept, ty.points.as_slice())?;
    }
    Ok(())
}

/// The totals that the clauses of a design read which are asserted at all times or at points, and no others.
pub fn totals_read(alloc: Global, d: &Design) -> Result<Vec<Prefixes>, AllocError>
    ensures { IfOk result (λ kept. (k : Prefixes) → list_any (is_alike k) kept.items ≡ total_in_design k d.now) }
{
    let mut kept = Vec::new(alloc);
    add_clauses(&mut kept, d.always.as_slice())?;
    add_types(&mut kept, d.types.as_slice())?;
    Ok(kept)
}
