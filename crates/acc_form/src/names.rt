//! Whether a name is given twice in its scope.
ghost use Rattle.std.specs.Prelude.{◌≡◌, not, take, drop};
ghost use Rattle.std.specs.List.{list_all};
ghost use Rattle.acc_formed.specs.Names.{stands_in, are_distinct, are_new, names_table, names_point, names_type};

use acc_base::designs::{Point, TxType};
use acc_base::sequences::Text;
use acc_base::tables::Table;

fn stands_in(names: &[Text], name: &Text) -> bool
    ensures { result ≡ stands_in names.now name.now }
{
    names.iter().any(|n| name == n)
}

/// Whether no name stands twice.
pub fn are_distinct(names: &[Text]) -> bool
    ensures { result ≡ are_distinct names.now }
{
    let mut rest = names;
    while let Some((name, others)) = rest.split_first() {
        if stands_in(others, name) {
            return false;
        }
        rest = others;
    }
    true
}

fn none_stands_in(earlier: &[Text], names: &[Text]) -> bool
    ensures { result ≡ list_all (λ x. not (stands_in earlier.now x)) names.now }
{
    names.iter().all(|n| !stands_in(earlier, n))
}

/// Whether none of the names is one of the earlier ones, and none stands twice.
pub fn are_new(earlier: &[Text], names: &[Text]) -> bool
    ensures { result ≡ are_new earlier.now names.now }
{
    none_stands_in(earlier, names) && are_distinct(names)
}

/// Whether one of the tables has the name.
pub fn names_table(tables: &[Table], name: &Text) -> bool
    ensures { result ≡ names_table tables.now name.now }
{
    tables.iter().any(|t| *name == t.name)
}

/// Whether one of the points has the name.
pub fn names_point(points: &[Point], name: &Text) -> bool
    ensures { result ≡ names_point points.now name.now }
{
    points.iter().any(|p| *name == p.name)
}

/// Whether one of the types has the name.
pub fn names_type(types: &[TxType], name: &Text) -> bool
    ensures { result ≡ names_type types.now name.now }
{
    types.iter().any(|t| *name == t.name)
}
