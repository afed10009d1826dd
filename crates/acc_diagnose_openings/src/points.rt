//! The values that a point gives.
use crate::known::is_told;
use crate::values::push_atom;
use acc_base::designs::Design;
use acc_base::forms::{Rel, Unknown};
use acc_base::sequents::Origin;
use acc_elim_readings::readings::unknowns_of;
use acc_page::Page;
use std::alloc::{AllocError, Global};

/// Writes a fraction: a whole number without its denominator.
fn push_fraction(out: &mut Page, value: (i128, i128)) {
    out.push_number(value.0);
    if value.1 != 1 {
        out.push(b"/");
        out.push_number(value.1);
    }
}

/// Writes `NAME = VALUE`.
fn push_value(out: &mut Page, d: &Design, origin: &Origin, unknown: &Unknown, value: (i128, i128)) {
    push_atom(out, d, origin, &unknown.atom);
    out.push(b" = ");
    push_fraction(out, value)
}

/// Writes the values that a point gives to the unknowns of an open leaf, behind the opening: `a = 1, has T[a] = 0`, those of variables and
/// rows. What counts only under a condition follows from these, and isn't said; nor is a value of which nothing is known, an end of its
/// range.
pub fn push_values(
    alloc: Global,
    out: &mut Page,
    opening: &[u8],
    d: &Design,
    origin: &Origin,
    leaf: &[Rel],
    point: &[(i128, i128)],
) -> Result<(), AllocError> {
    let unknowns = unknowns_of(alloc, leaf)?;
    let mut before = opening;
    for (unknown, value) in unknowns.as_slice().iter().zip(point.iter()) {
        if is_told(d, origin, leaf, unknown, *value) {
            out.push(before);
            push_value(out, d, origin, unknown, *value);
            before = b", ";
        }
    }
    Ok(())
}
