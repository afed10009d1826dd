//! Names, numbers and linear values, as parts of the statement at hand.
ghost use Rattle.std.specs.Prelude.{◌≡◌};
ghost use Rattle.std.specs.List.{flat_map};
ghost use Rattle.acc_parse_limits.specs.Words.{name_marks, number_marks, small_number_marks, names_marks, variable_marks, term_marks};
ghost use Rattle.acc_parse_limits.specs.Words.{signed_term_marks, sum_marks, sums_marks, place_marks, cell_marks, lin_rel_marks, guard_marks};
ghost use Rattle.acc_parse_limits.specs.Words.{point_name_marks, pair_marks, pairs_marks};
ghost use Rattle.acc_parse_limits.specs.Walks.{after};

use crate::walks::Walk;
use acc_base::bounds::{LARGEST_NUMBER, LONGEST_NAME, MOST_GUARDS, PAST_SMALL_NUMBERS};
use acc_base::limits::Limit;
use acc_base::sequences::Text;
use acc_parse_syntax::boxes::Boxed;
use acc_parse_syntax::trees::{
    Cell, LinRelTree, LinRels, Names, PairTree, Pairs, Place, PointName, SignedTerm, Sum, Sums,
    Term, Variable,
};

pub fn meet_name(walk: &mut Walk, name: &Text)
    ensures { walk.new ≡ after walk.old (name_marks name.now) }
{
    walk.pass_if(Limit::NameLength, name.len() > LONGEST_NAME);
}

pub fn meet_number(walk: &mut Walk, n: u64)
    ensures { walk.new ≡ after walk.old (number_marks n) }
{
    walk.pass_if(Limit::NumberSize, n > LARGEST_NUMBER);
}

/// The number of a type's limit or of a refusal.
pub fn meet_small_number(walk: &mut Walk, n: u64)
    ensures { walk.new ≡ after walk.old (small_number_marks n) }
{
    walk.pass_if(Limit::NumberSize, n >= PAST_SMALL_NUMBERS);
}

pub fn meet_each_name(walk: &mut Walk, names: &[Text])
    ensures { walk.new ≡ after walk.old (flat_map name_marks names.now) }
{
    for name in names {
        meet_name(walk, name);
    }
}

pub fn meet_names(walk: &mut Walk, names: &Names)
    ensures { walk.new ≡ after walk.old (names_marks names.now) }
{
    meet_name(walk, &names.first);
    meet_each_name(walk, names.others.as_slice());
}

pub fn meet_variable(walk: &mut Walk, variable: &Variable)
    ensures { walk.new ≡ after walk.old (variable_marks variable.now) }
{
    match variable {
        Variable::Named(name) => meet_name(walk, name),
        Variable::Oneself => {}
    }
}

fn meet_term(walk: &mut Walk, term: &Term)
    ensures { walk.new ≡ after walk.old (term_marks term.now) }
{
    match term {
        Term::Constant(n) => meet_number(walk, *n),
        Term::Plain(variable) => meet_variable(walk, variable),
        Term::Product(n, variable) => {
            meet_number(walk, *n);
            meet_variable(walk, variable);
        }
    }
}

fn meet_other_terms(walk: &mut Walk, terms: &[SignedTerm])
    ensures { walk.new ≡ after walk.old (flat_map signed_term_marks terms.now) }
{
    for signed in terms {
        meet_term(walk, &signed.term);
    }
}

pub fn meet_sum(walk: &mut Walk, sum: &Sum)
    ensures { walk.new ≡ after walk.old (sum_marks sum.now) }
{
    meet_term(walk, &sum.first);
    meet_other_terms(walk, sum.others.as_slice());
}

fn meet_each_sum(walk: &mut Walk, sums: &[Sum])
    ensures { walk.new ≡ after walk.old (flat_map sum_marks sums.now) }
{
    for sum in sums {
        meet_sum(walk, sum);
    }
}

pub fn meet_sums(walk: &mut Walk, sums: &Sums)
    ensures { walk.new ≡ after walk.old (sums_marks sums.now) }
{
    meet_sum(walk, &sums.first);
    meet_each_sum(walk, sums.others.as_slice());
}

pub fn meet_place(walk: &mut Walk, place: &Place)
    ensures { walk.new ≡ after walk.old (place_marks place.now) }
{
    meet_name(walk, &place.table);
    meet_sums(walk, place.key.get());
}

pub fn meet_cell(walk: &mut Walk, cell: &Cell)
    ensures { walk.new ≡ after walk.old (cell_marks cell.now) }
{
    meet_place(walk, &cell.place);
    meet_name(walk, &cell.column);
}

fn meet_relation(walk: &mut Walk, relation: &LinRelTree)
    ensures { walk.new ≡ after walk.old (lin_rel_marks relation.now) }
{
    meet_sum(walk, &relation.left);
    meet_sum(walk, &relation.right);
}

fn meet_each_relation(walk: &mut Walk, relations: &[LinRelTree])
    ensures { walk.new ≡ after walk.old (flat_map lin_rel_marks relations.now) }
{
    for relation in relations {
        meet_relation(walk, relation);
    }
}

/// A path's guard: at most 16 relations.
pub fn meet_guard(walk: &mut Walk, guard: &Option<Boxed<LinRels>>)
    ensures { walk.new ≡ after walk.old (guard_marks guard.now) }
{
    if let Some(relations) = guard {
        let relations = relations.get();
        walk.pass_if(
            Limit::GuardRelations,
            relations.others.len() > MOST_GUARDS - 1,
        );
        meet_relation(walk, &relations.first);
        meet_each_relation(walk, relations.others.as_slice());
    }
}

/// A point, by its type's name and its own.
pub fn meet_point_name(walk: &mut Walk, point: &PointName)
    ensures { walk.new ≡ after walk.old (point_name_marks point.now) }
{
    meet_name(walk, &point.type_name);
    meet_name(walk, &point.point);
}

fn meet_pair(walk: &mut Walk, pair: &PairTree)
    ensures { walk.new ≡ after walk.old (pair_marks pair.now) }
{
    meet_variable(walk, &pair.held);
    meet_variable(walk, &pair.step);
}

fn meet_each_pair(walk: &mut Walk, pairs: &[PairTree])
    ensures { walk.new ≡ after walk.old (flat_map pair_marks pairs.now) }
{
    for pair in pairs {
        meet_pair(walk, pair);
    }
}

pub fn meet_pairs(walk: &mut Walk, pairs: &Option<Pairs>)
    ensures { walk.new ≡ after walk.old (pairs_marks pairs.now) }
{
    if let Some(pairs) = pairs {
        meet_pair(walk, &pairs.first);
        meet_each_pair(walk, pairs.others.as_slice());
    }
}
