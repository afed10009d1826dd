//! What can be named in a statement, and the numbers of names.
ghost use Rattle.std.specs.Prelude.{◌≡◌, ◌<◌, ◌^◌, ◌-◌, unwrap_or};
ghost use Rattle.acc_parse_names.specs.Places.{place_of};
ghost use Rattle.acc_parse_clauses.specs.Scopes.{fitted, number_of, first_own, variable_of, table_in, column_in};
ghost use Rattle.acc_parse_clauses.specs.Views.{variables_in, scope_in};

use acc_base::sequences::Text;
use acc_parse_names::{NameIndex, Tables};
use acc_parse_syntax::trees::{Cell, Place, Variable};

/// The variables at hand: the locals of a type, and a clause's own.
#[derive(Drop)]
pub struct VariableNames<'s, 'a> {
    pub in_type: bool,
    pub locals: &'s NameIndex<'a>,
    pub own: &'s NameIndex<'a>,
}

/// The tables, and the variables at hand.
#[derive(Drop)]
pub struct Surroundings<'s, 'a> {
    pub tables: &'s Tables<'a>,
    pub variables: &'s VariableNames<'s, 'a>,
}

/// A number, and 0 for one that doesn't fit 32 bits.
pub fn fitted(n: u64) -> u32
    ensures { result ≡ fitted n }
{
    if n < 1 << 32 { n as u32 } else { 0 }
}

/// The place of a name among names; 0 for one that isn't there.
pub fn number_of<'a>(names: &NameIndex<'a>, name: &'a Text) -> u32
    ensures { result ≡ number_of name.now names.now }
{
    fitted(u64::from(names.find(name).unwrap_or(0)))
}

/// The number of the first of a clause's own variables.
fn first_own(variables: &VariableNames) -> u64
    ensures value { result ≡ first_own (variables_in variables.now) }
    ensures below { result < 2 ^ 64 - 1 }
{
    if variables.in_type {
        variables.locals.len() as u64 + 1
    } else {
        0
    }
}

/// The number of a variable.
pub fn variable<'a>(variables: &VariableNames<'_, 'a>, variable: &'a Variable) -> u32
    ensures { result ≡ variable_of (variables_in variables.now) variable.now }
{
    match variable {
        Variable::Named(name) => match variables.locals.find(name) {
            Some(place) => place,
            None => {
                let place = u64::from(variables.own.find(name).unwrap_or(0));
                fitted(first_own(variables).saturating_add(place))
            }
        },
        Variable::Oneself => fitted(variables.locals.len() as u64),
    }
}

/// The number of a row's table.
pub fn table<'a>(scope: &Surroundings<'_, 'a>, place: &'a Place) -> u32
    ensures { result ≡ table_in (scope_in scope.now) place.now }
{
    fitted(u64::from(scope.tables.place_of(&place.table).unwrap_or(0)))
}

/// The number of a column of a row's table.
pub fn column<'a>(scope: &Surroundings<'_, 'a>, cell: &'a Cell) -> u32
    ensures { result ≡ column_in (scope_in scope.now) cell.now }
{
    match scope.tables.columns_of(&cell.place.table) {
        Some(columns) => number_of(columns, &cell.column),
        None => 0,
    }
}
