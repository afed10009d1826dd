//! Linear values, rows, and relations between values. Each call writes to `out`.
ghost use Rattle.std.specs.Prelude.{◌≡◌, true, codes};
ghost use Rattle.acc_page.specs.Written.{Adds};
ghost use Rattle.acc_print.specs.Lists.{listed};
ghost use Rattle.acc_print.specs.Sums.{term, terms};
ghost use Rattle.acc_print.specs.Names.{name_at};
ghost use Rattle.acc_print.specs.Values.{lin_text, row_text, cell_text, comparison, lin_rel_text};

use crate::scopes::Scope;
use crate::sums::{push_coefficient, push_constant};
use acc_base::forms::{Lin, LinRel};
use acc_page::Page;

fn push_term(out: &mut Page, scope: &Scope, first: bool, variable: u32, number: i64)
    ensures { Adds out.old out.new (term first number (name_at scope.now.names variable)) }
{
    push_coefficient(out, first, i128::from(number));
    out.push(scope.variable(variable))
}

fn push_terms(out: &mut Page, scope: &Scope, coeffs: &[(u32, i64)])
    ensures { Adds out.old out.new (terms (name_at scope.now.names) true coeffs.now) }
{
    let mut first = true;
    for (variable, number) in coeffs {
        push_term(out, scope, first, *variable, *number);
        first = false;
    }
}

/// A linear value.
pub fn push_lin(out: &mut Page, scope: &Scope, lin: &Lin)
    ensures { Adds out.old out.new (lin_text scope.now.names lin.now) }
{
    push_terms(out, scope, lin.coeffs.as_slice());
    push_constant(out, lin.coeffs.is_empty(), i128::from(lin.constant))
}

/// Linear values, the first behind the opening, and further ones behind commas.
pub fn push_lins(out: &mut Page, scope: &Scope, opening: &[u8], lins: &[Lin])
    ensures { Adds out.old out.new (listed (lin_text scope.now.names) opening.now lins.now) }
{
    let mut before = opening;
    for lin in lins {
        out.push(before);
        push_lin(out, scope, lin);
        before = b", ";
    }
}

/// A row, or the rows whose keys begin so.
pub fn push_row(out: &mut Page, scope: &Scope, table: u32, key: &[Lin])
    ensures { Adds out.old out.new (row_text scope.now table key.now) }
{
    out.push(scope.table(table));
    out.push(b"[");
    push_lins(out, scope, b"", key);
    out.push(b"]")
}

/// A column of a row.
pub fn push_cell(out: &mut Page, scope: &Scope, table: u32, key: &[Lin], column: u32)
    ensures { Adds out.old out.new (cell_text scope.now table key.now column) }
{
    push_row(out, scope, table, key);
    out.push(b".");
    out.push(scope.column(table, column))
}

/// What a relation compares with.
pub fn comparison(equal: bool) -> &'static [u8]
    ensures { result.now ≡ comparison equal }
{
    if equal { b" = 0" } else { b" <= 0" }
}

fn push_lin_rel(out: &mut Page, scope: &Scope, rel: &LinRel)
    ensures { Adds out.old out.new (lin_rel_text scope.now.names rel.now) }
{
    push_lin(out, scope, &rel.lin);
    out.push(comparison(rel.equal))
}

/// A guard: its relations behind a space, with commas between them.
pub fn push_guard(out: &mut Page, scope: &Scope, rels: &[LinRel])
    ensures { Adds out.old out.new (listed (lin_rel_text scope.now.names) (codes " ") rels.now) }
{
    let mut before: &[u8] = b" ";
    for rel in rels {
        out.push(before);
        push_lin_rel(out, scope, rel);
        before = b", ";
    }
}
