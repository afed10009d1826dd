//! Rows and columns: whether their tables, columns and variables are defined.
ghost use Rattle.std.specs.Prelude.{◌≡◌};
ghost use Rattle.acc_parse_names.specs.Scopes.{columns_of};
ghost use Rattle.acc_parse_names.specs.Views.{scope_in};
ghost use Rattle.acc_parse_names.specs.Faults.{place_fault, column_fault, cell_fault};

use crate::scopes::Definitions;
use crate::tables::Tables;
use crate::values::sums_fault;
use acc_base::sequences::Text;
use acc_parse_syntax::trees::{Cell, Place};

/// Whether the table of a row, or a variable of its key, isn't defined.
pub fn place_fault<'a>(definitions: &Definitions<'_, 'a>, place: &'a Place) -> bool
    ensures { result ≡ place_fault (scope_in definitions.now) place.now }
{
    definitions.tables.columns_of(&place.table).is_none()
        || sums_fault(definitions.variables, place.key.get())
}

fn column_fault<'a>(tables: &Tables<'a>, table: &'a Text, column: &'a Text) -> bool
    ensures { result ≡ column_fault (columns_of tables.now.trees.now table.now) column.now }
{
    match tables.columns_of(table) {
        Some(columns) => !columns.has(column),
        None => true,
    }
}

/// Whether a row has a fault, or the column isn't one of its table.
pub fn cell_fault<'a>(definitions: &Definitions<'_, 'a>, cell: &'a Cell) -> bool
    ensures { result ≡ cell_fault (scope_in definitions.now) cell.now }
{
    place_fault(definitions, &cell.place)
        || column_fault(definitions.tables, &cell.place.table, &cell.column)
}
