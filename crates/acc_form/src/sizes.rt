//! The limits within a statement: how long names and lists are, and how large numbers.
ghost use Rattle.std.specs.Prelude.{◌≡◌, slice_get};
ghost use Rattle.std.specs.List.{list_all};
ghost use Rattle.acc_base.specs.Numbers.{is_small};
ghost use Rattle.acc_formed.specs.Sizes.{is_short, is_short_or_none, term_small, lin_small, lin_rel_small, atom_small, product_small};
ghost use Rattle.acc_formed.specs.Sizes.{rel_small, clause_small, table_small, read_small, action_small, guard_small, point_small};
ghost use Rattle.acc_formed.specs.Sizes.{target_small, returns_small};

use acc_base::bounds::{
    LARGEST_NUMBER, LONGEST_NAME, MOST_COLUMNS, MOST_GUARDS, MOST_KEY_PARTS, MOST_VARIABLES,
};
use acc_base::designs::Point;
use acc_base::forms::{Atom, Clause, Lin, LinRel, Rel, Unknown};
use acc_base::numbers::is_small;
use acc_base::sequences::Text;
use acc_base::steps::{Action, Read, Target};
use acc_base::tables::Table;

/// Whether a name has at most 32 bytes.
pub fn is_short(name: &Text) -> bool
    ensures { result ≡ is_short name.now }
{
    name.len() <= LONGEST_NAME
}

/// Whether each name has at most 32 bytes.
pub fn all_short(names: &[Text]) -> bool
    ensures { result ≡ list_all is_short names.now }
{
    names.iter().all(|n| is_short(n))
}

fn is_small_wide(n: i128) -> bool
    ensures { result ≡ is_small n }
{
    n.unsigned_abs() <= u128::from(LARGEST_NUMBER)
}

fn all_terms_small(coeffs: &[(u32, i64)]) -> bool
    ensures { result ≡ list_all term_small coeffs.now }
{
    coeffs.iter().all(|t| is_small(t.1))
}

/// Whether the numbers of a linear value lie within 2^45 of 0.
pub fn lin_small(lin: &Lin) -> bool
    ensures { result ≡ lin_small lin.now }
{
    all_terms_small(lin.coeffs.as_slice()) && is_small(lin.constant)
}

fn all_lins_small(lins: &[Lin]) -> bool
    ensures { result ≡ list_all lin_small lins.now }
{
    lins.iter().all(|l| lin_small(l))
}

fn atom_small(atom: &Atom) -> bool
    ensures { result ≡ atom_small atom.now }
{
    all_lins_small(atom.key())
}

fn product_small(product: &(Unknown, i128)) -> bool
    ensures { result ≡ product_small product.now }
{
    atom_small(&product.0.atom) && is_small_wide(product.1)
}

fn all_products_small(products: &[(Unknown, i128)]) -> bool
    ensures { result ≡ list_all product_small products.now }
{
    products.iter().all(|p| product_small(p))
}

fn rel_small(rel: &Rel) -> bool
    ensures { result ≡ rel_small rel.now }
{
    all_products_small(rel.form.terms.as_slice()) && is_small_wide(rel.form.constant)
}

fn all_rels_small(rels: &[Rel]) -> bool
    ensures { result ≡ list_all rel_small rels.now }
{
    rels.iter().all(|r| rel_small(r))
}

/// At most 8 variables, and 16 guards.
pub fn clause_small(clause: &Clause) -> bool
    ensures { result ≡ clause_small clause.now }
{
    clause.vars.len() <= MOST_VARIABLES
        && all_short(clause.vars.as_slice())
        && clause.guards.len() <= MOST_GUARDS
        && all_rels_small(clause.guards.as_slice())
        && rel_small(&clause.rel)
}

/// A key of 1 to 6 components, and at most 12 columns.
pub fn table_small(table: &Table) -> bool
    ensures { result ≡ table_small table.now }
{
    is_short(&table.name)
        && 1 <= table.width
        && table.width as usize <= MOST_KEY_PARTS
        && table.cols.len() <= MOST_COLUMNS
        && all_short(table.cols.as_slice())
}

/// Whether the numbers of a read lie within 2^45 of 0, the divisor among them.
pub fn read_small(read: &Read) -> bool
    ensures { result ≡ read_small read.now }
{
    match read {
        Read::Let(_, lin) => lin_small(lin),
        Read::Col(_, _, key, _)
        | Read::Has(_, _, key)
        | Read::Count(_, _, key)
        | Read::Sum(_, _, key, _)
        | Read::Least(_, _, key)
        | Read::Greatest(_, _, key) => all_lins_small(key.as_slice()),
        Read::Take(_) | Read::Mul(_, _, _) => true,
        Read::Div(_, _, divisor) => is_small(*divisor),
    }
}

/// Whether the numbers of an action lie within 2^45 of 0.
pub fn action_small(action: &Action) -> bool
    ensures { result ≡ action_small action.now }
{
    match action {
        Action::Put(_, key, values) => {
            all_lins_small(key.as_slice()) && all_lins_small(values.as_slice())
        }
        Action::Del(_, key) => all_lins_small(key.as_slice()),
        Action::Set(_, key, _, lin) | Action::Add(_, key, _, lin) => {
            all_lins_small(key.as_slice()) && lin_small(lin)
        }
    }
}

fn all_lin_rels_small(rels: &[LinRel]) -> bool
    ensures { result ≡ list_all lin_rel_small rels.now }
{
    rels.iter().all(|r| lin_small(&r.lin))
}

/// At most 16 relations.
pub fn guard_small(guard: &[LinRel]) -> bool
    ensures { result ≡ guard_small guard.now }
{
    guard.len() <= MOST_GUARDS && all_lin_rels_small(guard)
}

fn point_small(points: &[Point], point: u32) -> bool
    ensures { result ≡ point_small (slice_get points.now point) }
{
    match points.get(point as usize) {
        None => true,
        Some(p) => is_short(&p.name),
    }
}

/// Whether the name of the point that a path leads to is short.
pub fn target_small(points: &[Point], target: Target) -> bool
    ensures { result ≡ target_small points.now target }
{
    match target {
        Target::Point(p) => point_small(points, p),
        Target::Commit | Target::Undone | Target::Refuse(_) => true,
    }
}

fn local_small(locals: &[Text], local: u32) -> bool
    ensures { result ≡ is_short_or_none (slice_get locals.now local) }
{
    match locals.get(local as usize) {
        None => true,
        Some(name) => is_short(name),
    }
}

/// Whether the names of the locals that are returned are short.
pub fn returns_small(locals: &[Text], returns: &[u32]) -> bool
    ensures { result ≡ returns_small locals.now returns.now }
{
    returns.iter().all(|x| local_small(locals, *x))
}
