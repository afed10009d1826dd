//! Which values of a point are told: those of which something is known.
use crate::keys::variable_in;
use crate::names::is_number;
use acc_base::bounds::LARGEST_NUMBER;
use acc_base::designs::Design;
use acc_base::forms::{Rel, Unknown};
use acc_base::sequents::Origin;

/// How far a number may go.
const MOST: i128 = LARGEST_NUMBER as i128;

/// The lowest that an unknown may be: 1 for the number of a transaction, else the end of the range.
fn least_of(d: &Design, origin: &Origin, unknown: &Unknown) -> i128 {
    match variable_in(&unknown.atom) {
        Some(x) if is_number(d, origin, x) => 1,
        Some(_) | None => -MOST,
    }
}

fn is_variable(unknown: &Unknown) -> bool {
    variable_in(&unknown.atom).is_some()
}

/// Whether a relation of one unknown, times a number, and a constant is an end of the range that begins at `least`.
fn is_range(least: i128, times: i128, constant: i128) -> bool {
    (times == 1 && constant == -MOST) || (times == -1 && constant == least)
}

/// Whether an equation says that a row has what another name has.
fn is_copy(rel: &Rel, left: &(Unknown, i128), right: &(Unknown, i128)) -> bool {
    rel.equal
        && rel.form.constant == 0
        && left.1.checked_add(right.1) == Some(0)
        && !(is_variable(&left.0) && is_variable(&right.0))
}

/// Whether a relation says more of an unknown in it than that it lies in its range, from `least` on, or what else has its value.
fn says_more(rel: &Rel, least: i128) -> bool {
    match rel.form.terms.as_slice() {
        [term] => rel.equal || !is_range(least, term.1, rel.form.constant),
        [left, right] => !is_copy(rel, left, right),
        _ => true,
    }
}

/// Whether a relation has an unknown.
fn has_unknown(rel: &Rel, unknown: &Unknown) -> bool {
    for (other, _) in rel.form.terms.as_slice() {
        if *other == *unknown {
            return true;
        }
    }
    false
}

/// Whether one of some relations says more of an unknown than its range, from `least` on, and what else has its value.
fn is_known(leaf: &[Rel], unknown: &Unknown, least: i128) -> bool {
    for rel in leaf {
        if has_unknown(rel, unknown) && says_more(rel, least) {
            return true;
        }
    }
    false
}

/// Whether the value of an unknown is told: it stands under nothing, and it isn't an end of its range at which nothing is known of it.
pub fn is_told(
    d: &Design,
    origin: &Origin,
    leaf: &[Rel],
    unknown: &Unknown,
    value: (i128, i128),
) -> bool {
    let least = least_of(d, origin, unknown);
    let is_end = value.1 == 1 && (value.0 == least || value.0 == MOST);
    unknown.under.is_empty() && (!is_end || is_known(leaf, unknown, least))
}
