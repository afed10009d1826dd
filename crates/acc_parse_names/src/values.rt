//! Values and guards: whether their variables are defined.
ghost use Rattle.std.specs.Prelude.{◌≡◌};
ghost use Rattle.std.specs.List.{list_any};
ghost use Rattle.acc_parse_names.specs.Views.{variables_in};
ghost use Rattle.acc_parse_names.specs.Faults.{variable_fault, term_fault, sum_fault, sums_fault, values_fault, lin_rel_fault, guard_fault};

use crate::scopes::Variables;
use acc_parse_syntax::boxes::Boxed;
use acc_parse_syntax::trees::{LinRelTree, LinRels, SignedTerm, Sum, Sums, Term, Variable};

/// Whether a variable isn't defined; `self` always is.
pub fn variable_fault<'a>(variables: &Variables<'_, 'a>, variable: &'a Variable) -> bool
    ensures { result ≡ variable_fault (variables_in variables.now) variable.now }
{
    match variable {
        Variable::Named(name) => !variables.has(name),
        Variable::Oneself => false,
    }
}

fn term_fault<'a>(variables: &Variables<'_, 'a>, term: &'a Term) -> bool
    ensures { result ≡ term_fault (variables_in variables.now) term.now }
{
    match term {
        Term::Constant(_) => false,
        Term::Plain(variable) | Term::Product(_, variable) => variable_fault(variables, variable),
    }
}

fn any_term_fault<'a>(variables: &Variables<'_, 'a>, terms: &'a [SignedTerm]) -> bool
    ensures { result ≡ list_any (λ t. term_fault (variables_in variables.now) t.term) terms.now }
{
    for signed in terms {
        if term_fault(variables, &signed.term) {
            return true;
        }
    }
    false
}

/// Whether a variable of a value isn't defined.
pub fn sum_fault<'a>(variables: &Variables<'_, 'a>, sum: &'a Sum) -> bool
    ensures { result ≡ sum_fault (variables_in variables.now) sum.now }
{
    term_fault(variables, &sum.first) || any_term_fault(variables, sum.others.as_slice())
}

fn any_sum_fault<'a>(variables: &Variables<'_, 'a>, sums: &'a [Sum]) -> bool
    ensures { result ≡ list_any (sum_fault (variables_in variables.now)) sums.now }
{
    for sum in sums {
        if sum_fault(variables, sum) {
            return true;
        }
    }
    false
}

/// Whether a variable of one of the values isn't defined.
pub fn sums_fault<'a>(variables: &Variables<'_, 'a>, sums: &'a Sums) -> bool
    ensures { result ≡ sums_fault (variables_in variables.now) sums.now }
{
    sum_fault(variables, &sums.first) || any_sum_fault(variables, sums.others.as_slice())
}

/// Whether a variable of one of the values, if there are any, isn't defined.
pub fn values_fault<'a>(variables: &Variables<'_, 'a>, values: &'a Option<Boxed<Sums>>) -> bool
    ensures { result ≡ values_fault (variables_in variables.now) values.now }
{
    match values {
        Some(sums) => sums_fault(variables, sums.get()),
        None => false,
    }
}

fn lin_rel_fault<'a>(variables: &Variables<'_, 'a>, relation: &'a LinRelTree) -> bool
    ensures { result ≡ lin_rel_fault (variables_in variables.now) relation.now }
{
    sum_fault(variables, &relation.left) || sum_fault(variables, &relation.right)
}

fn any_lin_rel_fault<'a>(variables: &Variables<'_, 'a>, relations: &'a [LinRelTree]) -> bool
    ensures { result ≡ list_any (lin_rel_fault (variables_in variables.now)) relations.now }
{
    for relation in relations {
        if lin_rel_fault(variables, relation) {
            return true;
        }
    }
    false
}

/// Whether a variable of a guard isn't defined.
pub fn guard_fault<'a>(variables: &Variables<'_, 'a>, guard: &'a Option<Boxed<LinRels>>) -> bool
    ensures { result ≡ guard_fault (variables_in variables.now) guard.now }
{
    match guard {
        Some(relations) => {
            let relations = relations.get();
            lin_rel_fault(variables, &relations.first)
                || any_lin_rel_fault(variables, relations.others.as_slice())
        }
        None => false,
    }
}
