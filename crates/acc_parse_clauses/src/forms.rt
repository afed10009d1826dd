//! Forms and relations between them.
ghost use Rattle.std.specs.Prelude.{◌≡◌, ◌∷◌, ◌++◌, [], map, All, IfOk, OnOk};
ghost use Rattle.std.specs.List.{flat_map};
ghost use Rattle.acc_terms.specs.Parts.{IsTermSized};
ghost use Rattle.acc_parse_limits.specs.Walks.{after};
ghost use Rattle.acc_parse_clauses.specs.Forms.{atom_of, form_part, form_parts, form_by, rel_of};
ghost use Rattle.acc_parse_clauses.specs.Sizes.{terms_sizes, operand_sizes, form_term_sizes, form_sizes, rel_sizes};
ghost use Rattle.acc_parse_clauses.specs.Views.{scope_in};

use crate::rows::key;
use crate::scopes::{Surroundings, column, table, variable};
use crate::values::{compared, is_equation, kept, meet_terms, signed};
use acc_base::forms::{Atom, Form, Rel, Unknown};
use acc_base::sequences::Seq;
use acc_parse_limits::Walk;
use acc_parse_syntax::trees::{FormRelTree, FormTerm, FormTree, Operand};
use acc_terms::{Part, Terms, collected};
use std::alloc::{AllocError, Global};

fn atom<'a>(
    alloc: Global,
    walk: &mut Walk,
    scope: &Surroundings<'_, 'a>,
    operand: &'a Operand,
) -> Result<Atom, AllocError>
    ensures value { IfOk result (λ a. a ≡ atom_of (scope_in scope.now) operand.now) }
    ensures walk { OnOk result (walk.new ≡ after walk.old (operand_sizes (scope_in scope.now) operand.now)) }
{
    Ok(match operand {
        Operand::Variable(x) => Atom::Var(variable(scope.variables, x)),
        Operand::Column(cell) => {
            let key = key(alloc, walk, scope, &cell.place)?;
            Atom::Col(table(scope, &cell.place), key, column(scope, cell))
        }
        Operand::Has(place) => Atom::Has(table(scope, place), key(alloc, walk, scope, place)?),
        Operand::Count(place) => Atom::Count(table(scope, place), key(alloc, walk, scope, place)?),
        Operand::Sum(cell) => {
            let key = key(alloc, walk, scope, &cell.place)?;
            Atom::Sum(table(scope, &cell.place), key, column(scope, cell))
        }
    })
}

fn form_part<'a>(
    alloc: Global,
    walk: &mut Walk,
    scope: &Surroundings<'_, 'a>,
    term: &'a FormTerm,
) -> Result<Part<Unknown>, AllocError>
    ensures value { IfOk result (λ p. p ≡ form_part (scope_in scope.now) term.now) }
    ensures sized { IfOk result IsTermSized }
    ensures walk { OnOk result (walk.new ≡ after walk.old (form_term_sizes (scope_in scope.now) term.now)) }
{
    let (operand, number) = match term {
        FormTerm::Constant(n) => {
            return Ok(Part {
                of: None,
                number: i128::from(*n),
            });
        }
        FormTerm::Plain(operand) => (operand, 1),
        FormTerm::Product(n, operand) => (operand, i128::from(*n)),
    };
    let unknown = Unknown {
        under: Seq::new(alloc),
        atom: atom(alloc, walk, scope, operand)?,
    };
    Ok(Part {
        of: Some(unknown),
        number,
    })
}

/// The terms of a form.
fn form_parts<'a>(
    alloc: Global,
    walk: &mut Walk,
    scope: &Surroundings<'_, 'a>,
    form: &'a FormTree,
) -> Result<Seq<Part<Unknown>>, AllocError>
    ensures value { IfOk result (λ ps. ps ≡ form_parts (scope_in scope.now) form.now) }
    ensures sized { IfOk result (All IsTermSized) }
    ensures walk { OnOk result (walk.new ≡ after walk.old (form_sizes (scope_in scope.now) form.now)) }
{
    let mut parts = Seq::new(alloc);
    parts.push(signed(form.minus, form_part(alloc, walk, scope, &form.first)?))?;
    for other in form.others.as_slice() {
        parts.push(signed(other.minus, form_part(alloc, walk, scope, &other.term)?))?;
    }
    Ok(parts)
}

/// The form of collected terms.
fn form_by(walk: &mut Walk, terms: Terms<Unknown>) -> Form
    ensures value { result ≡ form_by terms }
    ensures walk { walk.new ≡ after walk.old (terms_sizes terms) }
{
    meet_terms(walk, terms.terms.as_slice());
    kept(walk, terms.constant);
    Form {
        terms: terms.terms,
        constant: terms.constant,
    }
}

/// The relation of forms that is written.
pub fn rel<'a>(
    alloc: Global,
    walk: &mut Walk,
    scope: &Surroundings<'_, 'a>,
    rel: &'a FormRelTree,
) -> Result<Rel, AllocError>
    ensures value { IfOk result (λ r. r ≡ rel_of (scope_in scope.now) rel.now) }
    ensures walk { OnOk result (walk.new ≡ after walk.old (rel_sizes (scope_in scope.now) rel.now)) }
{
    let left = form_parts(alloc, walk, scope, rel.left.get())?;
    let right = form_parts(alloc, walk, scope, rel.right.get())?;
    let parts = compared(&rel.relation, left, right)?;
    let terms = collected(alloc, parts.as_slice())?;
    Ok(Rel {
        form: form_by(walk, terms),
        equal: is_equation(&rel.relation),
    })
}
