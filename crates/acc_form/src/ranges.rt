//! Whether each number that names something is in range.
ghost use Rattle.std.specs.Prelude.{◌≡◌, ◌+◌, ◌≤◌, ◌^◌, length, slice_get, nat_lt};
ghost use Rattle.std.specs.List.{list_all};
ghost use Rattle.acc_formed.specs.Ranges.{term_in, lin_in, lin_rel_in, row_in, has_column, cell_in, atom_in, product_in, rel_in, clause_in};
ghost use Rattle.acc_formed.specs.Ranges.{read_in, action_in, target_in, path_in, step_in, point_in, head_in, clauses_in, type_in};
ghost use Rattle.acc_formed.specs.Ranges.{has_point, at_in, locals_of, pair_in, entry_in, hint_in, design_in};

use acc_base::designs::{At, Design, Entry, Hint, Point, TxType};
use acc_base::forms::{Atom, Clause, Lin, LinRel, Rel, Unknown};
use acc_base::steps::{Action, Path, Read, Step, Target};
use acc_base::tables::Table;

fn variable_in(vars: usize, x: u32) -> bool
    ensures { result ≡ nat_lt x vars }
{
    (x as usize) < vars
}

fn lin_in(vars: usize, lin: &Lin) -> bool
    ensures { result ≡ lin_in vars lin.now }
{
    lin.coeffs.as_slice().iter().all(|t| variable_in(vars, t.0))
}

fn all_lins_in(vars: usize, lins: &[Lin]) -> bool
    ensures { result ≡ list_all (lin_in vars) lins.now }
{
    lins.iter().all(|l| lin_in(vars, l))
}

fn row_in(tables: &[Table], vars: usize, table: u32, key: &[Lin]) -> bool
    ensures { result ≡ row_in tables.now vars table key.now }
{
    (table as usize) < tables.len() && all_lins_in(vars, key)
}

fn has_column(tables: &[Table], table: u32, column: u32) -> bool
    ensures { result ≡ has_column (slice_get tables.now table) column }
{
    match tables.get(table as usize) {
        None => false,
        Some(t) => (column as usize) < t.cols.len(),
    }
}

fn cell_in(tables: &[Table], vars: usize, table: u32, key: &[Lin], column: u32) -> bool
    ensures { result ≡ cell_in tables.now vars table key.now column }
{
    row_in(tables, vars, table, key) && has_column(tables, table, column)
}

fn atom_in(tables: &[Table], vars: usize, atom: &Atom) -> bool
    ensures { result ≡ atom_in tables.now vars atom.now }
{
    match atom {
        Atom::One => false,
        Atom::Var(x) => variable_in(vars, *x),
        Atom::Has(table, key) => row_in(tables, vars, *table, key.as_slice()),
        Atom::Col(table, key, column) => cell_in(tables, vars, *table, key.as_slice(), *column),
        Atom::Count(table, prefix) => row_in(tables, vars, *table, prefix.as_slice()),
        Atom::Sum(table, prefix, column) => {
            cell_in(tables, vars, *table, prefix.as_slice(), *column)
        }
    }
}

fn product_in(tables: &[Table], vars: usize, product: &(Unknown, i128)) -> bool
    ensures { result ≡ product_in tables.now vars product.now }
{
    product.0.under.as_slice().is_empty() && atom_in(tables, vars, &product.0.atom)
}

fn rel_in(tables: &[Table], vars: usize, rel: &Rel) -> bool
    ensures { result ≡ rel_in tables.now vars rel.now }
{
    let terms = rel.form.terms.as_slice();
    terms.iter().all(|t| product_in(tables, vars, t))
}

fn all_rels_in(tables: &[Table], vars: usize, rels: &[Rel]) -> bool
    ensures { result ≡ list_all (rel_in tables.now vars) rels.now }
{
    rels.iter().all(|r| rel_in(tables, vars, r))
}

fn clause_in(tables: &[Table], vars: usize, clause: &Clause) -> bool
    requires { vars ≤ 2 ^ 63 }
    ensures { result ≡ clause_in tables.now vars clause.now }
{
    let all = vars + clause.vars.as_slice().len();
    all_rels_in(tables, all, clause.guards.as_slice()) && rel_in(tables, all, &clause.rel)
}

fn all_clauses_in(tables: &[Table], vars: usize, clauses: &[Clause]) -> bool
    requires { vars ≤ 2 ^ 63 }
    ensures { result ≡ list_all (clause_in tables.now vars) clauses.now }
{
    clauses.iter().all(|c| clause_in(tables, vars, c))
}

fn read_in(tables: &[Table], vars: usize, read: &Read) -> bool
    ensures { result ≡ read_in tables.now vars read.now }
{
    match read {
        Read::Let(x, lin) => variable_in(vars, *x) && lin_in(vars, lin),
        Read::Col(x, table, key, column) | Read::Sum(x, table, key, column) => {
            variable_in(vars, *x) && cell_in(tables, vars, *table, key.as_slice(), *column)
        }
        Read::Has(x, table, key)
        | Read::Count(x, table, key)
        | Read::Least(x, table, key)
        | Read::Greatest(x, table, key) => {
            variable_in(vars, *x) && row_in(tables, vars, *table, key.as_slice())
        }
        Read::Take(x) => variable_in(vars, *x),
        Read::Mul(x, y, z) => {
            variable_in(vars, *x) && variable_in(vars, *y) && variable_in(vars, *z)
        }
        Read::Div(x, y, _) => variable_in(vars, *x) && variable_in(vars, *y),
    }
}

fn all_reads_in(tables: &[Table], vars: usize, reads: &[Read]) -> bool
    ensures { result ≡ list_all (read_in tables.now vars) reads.now }
{
    reads.iter().all(|r| read_in(tables, vars, r))
}

fn action_in(tables: &[Table], vars: usize, action: &Action) -> bool
    ensures { result ≡ action_in tables.now vars action.now }
{
    match action {
        Action::Put(table, key, values) => {
            row_in(tables, vars, *table, key.as_slice()) && all_lins_in(vars, values.as_slice())
        }
        Action::Del(table, key) => row_in(tables, vars, *table, key.as_slice()),
        Action::Set(table, key, column, lin) | Action::Add(table, key, column, lin) => {
            cell_in(tables, vars, *table, key.as_slice(), *column) && lin_in(vars, lin)
        }
    }
}

fn all_actions_in(tables: &[Table], vars: usize, actions: &[Action]) -> bool
    ensures { result ≡ list_all (action_in tables.now vars) actions.now }
{
    actions.iter().all(|a| action_in(tables, vars, a))
}

fn all_lin_rels_in(vars: usize, rels: &[LinRel]) -> bool
    ensures { result ≡ list_all (lin_rel_in vars) rels.now }
{
    rels.iter().all(|r| lin_in(vars, &r.lin))
}

fn target_in(points: usize, target: Target) -> bool
    ensures { result ≡ target_in points target }
{
    match target {
        Target::Point(p) => (p as usize) < points,
        Target::Commit | Target::Undone | Target::Refuse(_) => true,
    }
}

fn path_in(tables: &[Table], vars: usize, points: usize, path: &Path) -> bool
    ensures { result ≡ path_in tables.now vars points path.now }
{
    all_lin_rels_in(vars, path.guard.as_slice())
        && all_actions_in(tables, vars, path.actions.as_slice())
        && target_in(points, path.target)
}

fn all_paths_in(tables: &[Table], vars: usize, points: usize, paths: &[Path]) -> bool
    ensures { result ≡ list_all (path_in tables.now vars points) paths.now }
{
    paths.iter().all(|p| path_in(tables, vars, points, p))
}

fn step_in(tables: &[Table], vars: usize, points: usize, step: &Step) -> bool
    ensures { result ≡ step_in tables.now vars points step.now }
{
    !step.paths.as_slice().is_empty()
        && all_reads_in(tables, vars, step.reads.as_slice())
        && all_paths_in(tables, vars, points, step.paths.as_slice())
}

fn point_in(tables: &[Table], vars: usize, points: usize, point: &Point) -> bool
    requires { vars ≤ 2 ^ 63 }
    ensures { result ≡ point_in tables.now vars points point.now }
{
    all_clauses_in(tables, vars, point.clauses.as_slice())
        && lin_in(vars, &point.variant)
        && step_in(tables, vars, points, &point.next)
        && step_in(tables, vars, points, &point.undo)
}

fn all_points_in(tables: &[Table], vars: usize, count: usize, points: &[Point]) -> bool
    requires { vars ≤ 2 ^ 63 }
    ensures { result ≡ list_all (point_in tables.now vars count) points.now }
{
    points.iter().all(|p| point_in(tables, vars, count, p))
}

fn all_variables_in(vars: usize, variables: &[u32]) -> bool
    ensures { result ≡ list_all (λ x. nat_lt x vars) variables.now }
{
    variables.iter().all(|x| variable_in(vars, *x))
}

fn head_in(ty: &TxType) -> bool
    ensures { result ≡ head_in ty.now }
{
    (ty.params as usize) <= ty.locals.len()
        && !ty.points.as_slice().is_empty()
        && all_variables_in(ty.locals.len(), ty.returns.as_slice())
}

fn clauses_in(tables: &[Table], ty: &TxType) -> bool
    ensures { result ≡ clauses_in tables.now ty.now }
{
    let vars = ty.locals.as_slice().len() + 1;
    all_clauses_in(tables, vars, ty.posts.as_slice())
        && all_clauses_in(tables, vars, ty.repairs.as_slice())
}

fn type_in(tables: &[Table], ty: &TxType) -> bool
    ensures { result ≡ type_in tables.now ty.now }
{
    let points = ty.points.as_slice();
    head_in(ty)
        && clauses_in(tables, ty)
        && all_points_in(tables, ty.locals.as_slice().len() + 1, points.len(), points)
}

fn all_types_in(tables: &[Table], types: &[TxType]) -> bool
    ensures { result ≡ list_all (type_in tables.now) types.now }
{
    types.iter().all(|t| type_in(tables, t))
}

fn at_in(types: &[TxType], at: At) -> bool
    ensures { result ≡ at_in types.now at }
{
    match types.get(at.ty as usize) {
        None => false,
        Some(ty) => (at.point as usize) < ty.points.len(),
    }
}

/// How many locals a type has, and 0 where it isn't there.
fn locals_of(types: &[TxType], ty: u32) -> usize
    ensures { result ≡ locals_of (slice_get types.now ty) }
{
    match types.get(ty as usize) {
        None => 0,
        Some(ty) => ty.locals.len(),
    }
}

fn pair_in(held: usize, step: usize, pair: (u32, u32)) -> bool
    ensures { result ≡ pair_in held step pair }
{
    variable_in(held, pair.0) && variable_in(step, pair.1)
}

fn all_pairs_in(held: usize, step: usize, pairs: &[(u32, u32)]) -> bool
    ensures { result ≡ list_all (pair_in held step) pairs.now }
{
    pairs.iter().all(|p| pair_in(held, step, *p))
}

fn entry_in(types: &[TxType], entry: &Entry) -> bool
    ensures { result ≡ entry_in types.now entry.now }
{
    let held = locals_of(types, entry.held.ty);
    let step = locals_of(types, entry.step.ty);
    at_in(types, entry.held)
        && at_in(types, entry.step)
        && all_pairs_in(held, step, entry.pairs.as_slice())
}

fn all_entries_in(types: &[TxType], entries: &[Entry]) -> bool
    ensures { result ≡ list_all (entry_in types.now) entries.now }
{
    entries.iter().all(|e| entry_in(types, e))
}

fn hint_in(types: &[TxType], hint: &Hint) -> bool
    ensures { result ≡ hint_in types.now hint.now }
{
    at_in(types, hint.at) && lin_in(locals_of(types, hint.at.ty), &hint.lin)
}

fn all_hints_in(types: &[TxType], hints: &[Hint]) -> bool
    ensures { result ≡ list_all (hint_in types.now) hints.now }
{
    hints.iter().all(|h| hint_in(types, h))
}

/// Whether each number of a design that names something is in range.
pub fn design_in(design: &Design) -> bool
    ensures { result ≡ design_in design.now }
{
    let tables = design.tables.as_slice();
    let types = design.types.as_slice();
    all_clauses_in(tables, 0, design.always.as_slice())
        && all_types_in(tables, types)
        && all_entries_in(types, design.entries.as_slice())
        && all_hints_in(types, design.hints.as_slice())
}
