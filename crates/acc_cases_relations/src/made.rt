//! Systems of many relations.
use acc_base::forms::{Atom, Form, Rel, Unknown};
use acc_base::sequences::Seq;
use std::alloc::{AllocError, Global};

fn variable(alloc: Global, number: u32) -> Unknown {
    Unknown {
        under: Seq::new(alloc),
        atom: Atom::Var(number),
    }
}

/// m * v0 + n * v1 + constant <= 0.
fn bound(alloc: Global, m: i128, n: i128, constant: i128) -> Result<Rel, AllocError> {
    let mut terms = Seq::new(alloc);
    terms.push((variable(alloc, 0), m))?;
    terms.push((variable(alloc, 1), n))?;
    Ok(Rel {
        form: Form { terms, constant },
        equal: false,
    })
}

/// v0 - k <= 0 for each k from 1 to n.
pub fn upper_bounds(alloc: Global, n: u16) -> Result<Vec<Rel>, AllocError> {
    let mut relations = Vec::new(alloc);
    for k in 0..n {
        relations.push(bound(alloc, 1, 0, -1 - i128::from(k))?)?;
    }
    Ok(relations)
}

fn add_uppers(alloc: Global, relations: &mut Vec<Rel>, n: u16) -> Result<(), AllocError> {
    for k in 0..n {
        relations.push(bound(alloc, 1, 1 + i128::from(k), 0)?)?;
    }
    Ok(())
}

fn add_lowers(alloc: Global, relations: &mut Vec<Rel>, n: u16) -> Result<(), AllocError> {
    for k in 0..n {
        relations.push(bound(alloc, -1, 1000 + 1000 * i128::from(k), -1)?)?;
    }
    Ok(())
}

/// v0 + k * v1 <= 0 for each k from 1 to `uppers`, and 1000 * k * v1 - v0 - 1 <= 0 for each k from 1 to `lowers`: each pair makes a
/// relation of v1 of its own.
pub fn pairs(alloc: Global, uppers: u16, lowers: u16) -> Result<Vec<Rel>, AllocError> {
    let mut relations = Vec::new(alloc);
    add_uppers(alloc, &mut relations, uppers)?;
    add_lowers(alloc, &mut relations, lowers)?;
    Ok(relations)
}
