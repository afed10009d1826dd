//! The tables that a clause reads, and writes change.
ghost use Rattle.std.specs.Prelude.{◌≡◌, ◌==◌};
ghost use Rattle.std.specs.List.{list_any};
ghost use Rattle.acc_index_store.specs.Indexes.{place_written};
ghost use Rattle.acc_audit_complaints.specs.Since.{term_reads, rel_reads, clause_reads};

use acc_base::forms::{Clause, Rel, Unknown};
use acc_store::Write;

/// The table that a write changes.
fn table_written(write: &Write) -> u32
    ensures { result ≡ (place_written write.now).0 }
{
    match write {
        Write::Row(row) => row.table,
        Write::Gone(table, _) => *table,
    }
}

/// Whether one of some writes changes a table.
fn is_written(writes: &[Write], table: u32) -> bool
    ensures { result ≡ list_any (λ w. (place_written w).0 == table) writes.now }
{
    writes.iter().any(|write| table_written(write) == table)
}

/// Whether an atom with its coefficient speaks of a table that one of some writes changes.
fn term_reads(writes: &[Write], term: &(Unknown, i128)) -> bool
    ensures { result ≡ term_reads writes.now term.now }
{
    match term.0.atom.table() {
        Some(table) => is_written(writes, table),
        None => false,
    }
}

/// The same of a relation.
fn rel_reads(writes: &[Write], rel: &Rel) -> bool
    ensures { result ≡ rel_reads writes.now rel.now }
{
    let terms = rel.form.terms.as_slice();
    terms.iter().any(|term| term_reads(writes, term))
}

/// The same of relations.
fn any_reads(writes: &[Write], rels: &[Rel]) -> bool
    ensures { result ≡ list_any (rel_reads writes.now) rels.now }
{
    rels.iter().any(|rel| rel_reads(writes, rel))
}

/// The same of a clause.
pub fn clause_reads(writes: &[Write], clause: &Clause) -> bool
    ensures { result ≡ clause_reads writes.now clause.now }
{
    any_reads(writes, clause.guards.as_slice()) || rel_reads(writes, &clause.rel)
}
