//! What forms are worth, and whether relations are true.
ghost use Rattle.std.specs.Prelude.{◌≡◌, map, pos, All};
ghost use Rattle.acc_base.specs.Linear.{meets};
ghost use Rattle.acc_audit_trial.specs.Worths.{plus_near, summed, term_worth, form_worth, rel_worth};
ghost use Rattle.acc_audit_trial.specs.Trials.{AreKeyed, CanWeigh, CanMeet};

use crate::atoms::unknown_worth;
use crate::values::{near_product, near_sum};
use acc_base::forms::{Form, Rel, Unknown};
use acc_store::Store;

/// A coefficient times its unknown.
fn term_worth<S: Store>(s: &S, term: &(Unknown, i128), values: &[i64]) -> Option<i128>
    requires keyed { AreKeyed (S.rows s.now) }
    requires can { CanWeigh term.now }
    ensures { result ≡ term_worth (S.rows s.now) values.now term.now }
{
    match unknown_worth(s, &term.0, values) {
        Some(value) => near_product(term.1, value),
        None => None,
    }
}

/// A sum and one more term.
fn with_term<S: Store>(s: &S, sum: i128, term: &(Unknown, i128), values: &[i64]) -> Option<i128>
    requires keyed { AreKeyed (S.rows s.now) }
    requires can { CanWeigh term.now }
    ensures { result ≡ plus_near sum (term_worth (S.rows s.now) values.now term.now) }
{
    match term_worth(s, term, values) {
        Some(product) => near_sum(sum, product),
        None => None,
    }
}

/// The sum of terms.
fn terms_sum<S: Store>(s: &S, terms: &[(Unknown, i128)], values: &[i64]) -> Option<i128>
    requires keyed { AreKeyed (S.rows s.now) }
    requires can { All CanWeigh terms.now }
    ensures { result ≡ summed (pos 0) (map (term_worth (S.rows s.now) values.now) terms.now) }
{
    let mut sum = 0;
    for term in terms {
        match with_term(s, sum, term, values) {
            Some(more) => sum = more,
            None => return None,
        }
    }
    Some(sum)
}

/// What a form is worth, and none where a number on the way lies beyond 2^120.
fn form_worth<S: Store>(s: &S, form: &Form, values: &[i64]) -> Option<i128>
    requires keyed { AreKeyed (S.rows s.now) }
    requires can { All CanWeigh form.now.terms }
    ensures { result ≡ form_worth (S.rows s.now) values.now form.now }
{
    match terms_sum(s, form.terms.as_slice(), values) {
        Some(sum) => near_sum(sum, form.constant),
        None => None,
    }
}

/// Whether a value is 0, or at most 0.
fn meets(equal: bool, v: i128) -> bool
    ensures { result ≡ meets equal v }
{
    if equal { v == 0 } else { v <= 0 }
}

/// Whether a relation is true, and none where a number on the way lies beyond 2^120.
pub fn rel_worth<S: Store>(s: &S, rel: &Rel, values: &[i64]) -> Option<bool>
    requires keyed { AreKeyed (S.rows s.now) }
    requires can { CanMeet rel.now }
    ensures { result ≡ rel_worth (S.rows s.now) values.now rel.now }
{
    match form_worth(s, &rel.form, values) {
        Some(v) => Some(meets(rel.equal, v)),
        None => None,
    }
}
