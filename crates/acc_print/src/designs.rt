//! Whole designs.
ghost use Rattle.std.specs.Prelude.{◌≡◌, IfOk, codes};
ghost use Rattle.acc_page.specs.Written.{Adds};
ghost use Rattle.std.specs.List.{flat_map};
ghost use Rattle.acc_print.specs.Lists.{listed};
ghost use Rattle.acc_print.specs.Types.{type_lines};
ghost use Rattle.acc_print.specs.Designs.{table_line, side_text, scope_at, pair_text, entry_line, hint_line, printed};

use crate::clauses::{push_clauses, push_names};
use crate::scopes::{Scope, Surroundings};
use crate::types::push_type;
use crate::values::push_lin;
use acc_base::designs::{At, Design, Entry, Hint, Side, TxType};
use acc_base::tables::Table;
use acc_page::{Page, push_at};
use std::alloc::Global;

/// Why a design isn't printed.
#[derive(Clone, Copy)]
pub enum PrintError {
    /// Memory ran out.
    Memory,
}

fn push_table(out: &mut Page, table: &Table)
    ensures { Adds out.old out.new (table_line table.now) }
{
    out.push(if table.own { b"private " } else { b"table " });
    out.push(table.name.as_slice());
    out.push(b" ");
    out.push_number(table.width);
    push_names(out, table.cols.as_slice());
    out.push(b"\n")
}

fn push_tables(out: &mut Page, tables: &[Table])
    ensures { Adds out.old out.new (flat_map table_line tables.now) }
{
    for table in tables {
        push_table(out, table);
    }
}

fn push_types(out: &mut Page, tables: &[Table], types: &[TxType])
    ensures { Adds out.old out.new (flat_map (type_lines tables.now) types.now) }
{
    for ty in types {
        push_type(out, tables, ty);
    }
}

/// What can be named within the type of a point.
fn scope_at(d: &Design, at: At) -> Scope
    ensures { result ≡ scope_at d.now at }
{
    let ty = d.types.as_slice().get(at.ty as usize);
    Surroundings::inside(d.tables.as_slice(), ty).plain()
}

fn side_text(side: Side) -> &'static [u8]
    ensures { result.now ≡ side_text side }
{
    match side {
        Side::Next => b" next",
        Side::Undo => b" undo",
    }
}

fn push_pair(out: &mut Page, held: &Scope, step: &Scope, left: u32, right: u32)
    ensures { Adds out.old out.new (pair_text held.now.names step.now.names (left, right)) }
{
    out.push(held.variable(left));
    out.push(b" = ");
    out.push(step.variable(right))
}

fn push_pairs(out: &mut Page, held: &Scope, step: &Scope, pairs: &[(u32, u32)])
    ensures { Adds out.old out.new (listed (pair_text held.now.names step.now.names) (codes " : ") pairs.now) }
{
    let mut before: &[u8] = b" : ";
    for (left, right) in pairs {
        out.push(before);
        push_pair(out, held, step, *left, *right);
        before = b", ";
    }
}

/// A pair of a local of the type of a held point and one of the type of a step's, as an entry for these has it.
pub fn push_pair_of(out: &mut Page, d: &Design, held: At, step: At, pair: (u32, u32))
    ensures { Adds out.old out.new (pair_text (scope_at d.now held).names (scope_at d.now step).names pair) }
{
    let (left, right) = pair;
    push_pair(out, &scope_at(d, held), &scope_at(d, step), left, right)
}

/// An entry: its statement, as a line.
pub fn push_entry(out: &mut Page, d: &Design, entry: &Entry)
    ensures { Adds out.old out.new (entry_line d.now entry.now) }
{
    let (held, step) = (scope_at(d, entry.held), scope_at(d, entry.step));
    out.push(b"entry ");
    push_at(out, d, entry.held);
    out.push(b" by ");
    push_at(out, d, entry.step);
    out.push(side_text(entry.side));
    push_pairs(out, &held, &step, entry.pairs.as_slice());
    out.push(b"\n")
}

fn push_entries(out: &mut Page, d: &Design, entries: &[Entry])
    ensures { Adds out.old out.new (flat_map (entry_line d.now) entries.now) }
{
    for entry in entries {
        push_entry(out, d, entry);
    }
}

fn push_hint(out: &mut Page, d: &Design, hint: &Hint)
    ensures { Adds out.old out.new (hint_line d.now hint.now) }
{
    out.push(b"hint ");
    push_at(out, d, hint.at);
    out.push(side_text(hint.side));
    out.push(b" ");
    push_lin(out, &scope_at(d, hint.at), &hint.lin);
    out.push(b"\n")
}

fn push_hints(out: &mut Page, d: &Design, hints: &[Hint])
    ensures { Adds out.old out.new (flat_map (hint_line d.now) hints.now) }
{
    for hint in hints {
        push_hint(out, d, hint);
    }
}

fn push_design(out: &mut Page, d: &Design)
    ensures { Adds out.old out.new (printed d.now) }
{
    let outside = Surroundings::outside(d.tables.as_slice());
    push_tables(out, d.tables.as_slice());
    push_clauses(out, &outside, b"always ", d.always.as_slice());
    push_types(out, d.tables.as_slice(), d.types.as_slice());
    push_entries(out, d, d.entries.as_slice());
    push_hints(out, d, d.hints.as_slice())
}

/// The one printed spelling of a design: its text, each statement on a line of its own that ends with a line feed. A number
/// that names nothing in the design is printed as an empty name. The cost is that of going over the design and the text.
///
/// `Memory` where memory ran out.
pub fn print(alloc: Global, d: &Design) -> Result<Vec<u8>, PrintError>
    ensures value { IfOk result (λ text. text.items ≡ printed d.now) }
{
    let mut out = Page::new(alloc);
    push_design(&mut out, d);
    out.finish().ok_or(PrintError::Memory)
}
