//! Changes of a design that break a form rule and that no text spells.
use crate::designs::{no_design, read};
use acc_base::designs::{At, Design, Hint, Point, Side, TxType};
use acc_base::forms::{Atom, Clause, Form, Lin, Rel, Unknown};
use acc_base::sequences::Seq;
use acc_base::steps::{Action, Path, Read};
use acc_form::{FormError, well_formed};
use std::alloc::{AllocError, Global};
use std::mem;

/// The parameter.
const A: u32 = 0;

/// The second local.
const Q: u32 = 2;

/// The number of the transaction, behind the four locals.
const SELF: u32 = 4;

/// What is changed.
#[derive(Clone, Copy)]
enum Edited {
    Nothing,
    HintOfNoPoint,
    SelfInAHint,
    OneInAClause,
    NoPath,
    EmptyPrefix,
    LargeNumber,
}

/// The change of that name.
fn edited_of(name: &str) -> Option<Edited> {
    match name {
        "nothing" => Some(Edited::Nothing),
        "hint-of-no-point" => Some(Edited::HintOfNoPoint),
        "self-in-a-hint" => Some(Edited::SelfInAHint),
        "one-in-a-clause" => Some(Edited::OneInAClause),
        "no-path" => Some(Edited::NoPath),
        "empty-prefix" => Some(Edited::EmptyPrefix),
        "large-number" => Some(Edited::LargeNumber),
        _ => None,
    }
}

fn variable(alloc: Global, x: u32) -> Result<Lin, AllocError> {
    let coeffs = Vec::from_slice(alloc, &[(x, 1)])?;
    Ok(Lin {
        coeffs: Seq::from_vec(coeffs),
        constant: 0,
    })
}

fn number(alloc: Global, n: i64) -> Lin {
    Lin {
        coeffs: Seq::new(alloc),
        constant: n,
    }
}

fn one<T: Drop>(alloc: Global, item: T) -> Result<Seq<T>, AllocError> {
    let mut items = Seq::new(alloc);
    items.push(item)?;
    Ok(items)
}

/// Makes that local's value the only hint, for the first type's point of that number.
fn set_hint(alloc: Global, design: &mut Design, point: u32, x: u32) -> Result<(), AllocError> {
    let lin = variable(alloc, x)?;
    let at = At { ty: 0, point };
    let side = Side::Next;
    design.hints = one(alloc, Hint { at, side, lin })?;
    Ok(())
}

/// The clause that 1 is at most 0, with the 1 as an unknown.
fn clause(alloc: Global) -> Result<Clause, AllocError> {
    let under = Seq::new(alloc);
    let atom = Atom::One;
    let terms = one(alloc, (Unknown { under, atom }, 1))?;
    let form = Form { terms, constant: 0 };
    Ok(Clause {
        vars: Seq::new(alloc),
        guards: Seq::new(alloc),
        rel: Rel { form, equal: false },
    })
}

fn set_clause(alloc: Global, design: &mut Design) -> Result<(), AllocError> {
    design.always = one(alloc, clause(alloc)?)?;
    Ok(())
}

/// The key of the private rows.
fn key(alloc: Global) -> Result<Seq<Lin>, AllocError> {
    let mut key = one(alloc, variable(alloc, A)?)?;
    key.push(variable(alloc, SELF)?)?;
    Ok(key)
}

/// The put of a private row with a number that is too large.
fn large_put(alloc: Global) -> Result<Seq<Action>, AllocError> {
    let values = one(alloc, number(alloc, (1 << 45) + 1))?;
    let key = key(alloc)?;
    one(alloc, Action::Put(1, key, values))
}

fn change_paths(paths: &mut [Path], actions: Seq<Action>) {
    if let Some(path) = paths.first_mut() {
        path.actions = actions;
    }
}

/// Makes the first path put a number that is too large.
fn put_large(alloc: Global, point: &mut Point) -> Result<(), AllocError> {
    let actions = large_put(alloc)?;
    let mut paths = mem::replace(&mut point.next.paths, Seq::new(alloc)).into_vec();
    change_paths(&mut paths, actions);
    point.next.paths = Seq::from_vec(paths);
    Ok(())
}

fn change_mid(alloc: Global, point: &mut Point, change: Edited) -> Result<(), AllocError> {
    match change {
        Edited::NoPath => point.undo.paths = Seq::new(alloc),
        _ => point.next.reads = one(alloc, Read::Count(Q, 0, Seq::new(alloc)))?,
    }
    Ok(())
}

fn change_points(alloc: Global, points: &mut [Point], change: Edited) -> Result<(), AllocError> {
    match (change, points) {
        (Edited::LargeNumber, [start, ..]) => put_large(alloc, start),
        (_, [_, mid]) => change_mid(alloc, mid, change),
        _ => Ok(()),
    }
}

fn change_types(alloc: Global, types: &mut [TxType], change: Edited) -> Result<(), AllocError> {
    let Some(ty) = types.first_mut() else {
        return Ok(());
    };
    let mut points = mem::replace(&mut ty.points, Seq::new(alloc)).into_vec();
    let done = change_points(alloc, &mut points, change);
    ty.points = Seq::from_vec(points);
    done
}

fn change_steps(alloc: Global, design: &mut Design, change: Edited) -> Result<(), AllocError> {
    let mut types = mem::replace(&mut design.types, Seq::new(alloc)).into_vec();
    let done = change_types(alloc, &mut types, change);
    design.types = Seq::from_vec(types);
    done
}

fn make(alloc: Global, design: &mut Design, change: Edited) -> Result<(), AllocError> {
    match change {
        Edited::Nothing => Ok(()),
        Edited::HintOfNoPoint => set_hint(alloc, design, 2, A),
        Edited::SelfInAHint => set_hint(alloc, design, 1, SELF),
        Edited::OneInAClause => set_clause(alloc, design),
        Edited::NoPath | Edited::EmptyPrefix | Edited::LargeNumber => {
            change_steps(alloc, design, change)
        }
    }
}

/// Whether a design keeps the form rules.
fn judged(alloc: Global, design: &Design) -> Result<String, AllocError> {
    match well_formed(design) {
        Ok(()) => String::from_str(alloc, "formed\n"),
        Err(FormError::Bad(rule, line)) => {
            format!(in alloc; "rule {}, line {line}\n", rule.number())
        }
        Err(FormError::Memory) => Err(AllocError),
    }
}

/// Whether a design keeps them with a change.
fn judged_with(alloc: Global, design: &mut Design, change: Edited) -> Result<String, AllocError> {
    make(alloc, design, change)?;
    judged(alloc, design)
}

/// Whether the design of a text keeps the form rules with the change of that name, or which it breaks on which line.
pub fn changed(alloc: Global, text: &str, name: &str) -> Result<String, AllocError> {
    let Some(change) = edited_of(name) else {
        return String::from_str(alloc, "no such change\n");
    };
    match read(alloc, text)? {
        Some(mut design) => judged_with(alloc, &mut design, change),
        None => no_design(alloc),
    }
}
