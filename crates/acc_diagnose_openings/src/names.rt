//! What the variables of an obligation are called.
use acc_base::designs::{At, Design, Side, TxType};
use acc_base::forms::Clause;
use acc_base::sequences::Text;
use acc_base::sequents::{Origin, Rule};
use acc_base::steps::{Path, Read, Target};
use acc_lex::language;
use acc_page::Page;

/// What a variable of an obligation is.
#[derive(Clone, Copy)]
enum ObligationVariable<'a> {
    /// A local, as the step leaves it to its path, or as the transaction has it where there is no step.
    Local(&'a [u8]),
    /// A local that a read of the step assigns, before it.
    Before(&'a [u8]),
    /// A local behind the read with this number, from 1, which a later one assigns again.
    Behind(&'a [u8], u64),
    /// The transaction's number.
    Own,
    /// A local of the held transaction.
    Held(&'a [u8]),
    /// The held transaction's number.
    HeldOwn,
    /// A name behind the `forall` of the assertion.
    Named(&'a [u8]),
    /// A name behind the `forall` of the assertion that a local of the step's transaction has too.
    Shared(&'a [u8]),
    /// A key component of a row that isn't to be there, with its number, from 1.
    Component(u64),
}

/// The type of a point.
pub fn type_at(d: &Design, at: At) -> Option<&TxType> {
    d.types.as_slice().get(at.ty as usize)
}

/// The path of an obligation, if it has one.
pub fn path_of<'a>(d: &'a Design, origin: &Origin) -> Option<&'a Path> {
    let number = origin.path.checked_sub(1)?;
    let step = d.step(origin.at?, origin.side)?;
    step.paths.as_slice().get(number as usize)
}

/// The locals of a point's type.
pub fn locals_of(d: &Design, at: At) -> &[Text] {
    match type_at(d, at) {
        Some(ty) => ty.locals.as_slice(),
        None => &[],
    }
}

/// Whether an obligation is about a transaction that takes no step: one that begins, or rests.
fn is_at_rest(origin: &Origin) -> bool {
    match origin.rule {
        Rule::Begins => true,
        Rule::Variants => origin.clause < 3,
        Rule::Promises | Rule::Always | Rule::Spares | Rule::There => false,
        Rule::Ranges | Rule::Clears | Rule::Empty => false,
    }
}

/// The reads that have a variable in an obligation: those of its step; none where a transaction begins or rests.
fn reads_of<'a>(d: &'a Design, at: At, origin: &Origin) -> &'a [Read] {
    if is_at_rest(origin) {
        return &[];
    }
    match d.step(at, origin.side) {
        Some(step) => step.reads.as_slice(),
        None => &[],
    }
}

/// The clauses that the target of an obligation's path promises.
fn promised<'a>(d: &'a Design, at: At, origin: &Origin) -> Option<&'a [Clause]> {
    let ty = type_at(d, at)?;
    match path_of(d, origin)?.target {
        Target::Point(point) => Some(d.point(At { ty: at.ty, point })?.clauses.as_slice()),
        Target::Commit => Some(ty.posts.as_slice()),
        Target::Undone => Some(ty.repairs.as_slice()),
        Target::Refuse(_) => None,
    }
}

/// The clauses among which the assertion of an obligation stands.
fn clauses_of<'a>(d: &'a Design, origin: &Origin) -> Option<&'a [Clause]> {
    match origin.rule {
        Rule::Begins => Some(d.point(origin.at?)?.clauses.as_slice()),
        Rule::Promises => promised(d, origin.at?, origin),
        Rule::Always | Rule::Empty => Some(d.always.as_slice()),
        Rule::Spares => Some(d.point(origin.held?)?.clauses.as_slice()),
        Rule::There | Rule::Ranges | Rule::Variants | Rule::Clears => None,
    }
}

/// The name behind the `forall` of an obligation's assertion that has this place, if there is one.
fn clause_name<'a>(d: &'a Design, origin: &Origin, place: usize) -> Option<&'a [u8]> {
    let number = origin.clause.checked_sub(1)?;
    let clause = clauses_of(d, origin)?.get(number as usize)?;
    let name = clause.vars.as_slice().get(place)?;
    Some(name.as_slice())
}

/// Whether one of some names is this one.
fn is_one_of(names: &[Text], name: &[u8]) -> bool {
    for other in names {
        if other.as_slice() == name {
            return true;
        }
    }
    false
}

/// Whether a local of the transaction that takes the step of an obligation has this name.
fn is_local(d: &Design, origin: &Origin, name: &[u8]) -> bool {
    match origin.at {
        Some(at) => is_one_of(locals_of(d, at), name),
        None => false,
    }
}

/// The variable of an obligation's assertion that has this place among them.
fn of_clause<'a>(d: &'a Design, origin: &Origin, place: usize) -> ObligationVariable<'a> {
    match clause_name(d, origin, place) {
        Some(name) if is_local(d, origin, name) => ObligationVariable::Shared(name),
        Some(name) => ObligationVariable::Named(name),
        None => ObligationVariable::Component((place as u64).saturating_add(1)),
    }
}

/// The variable that has this place behind those of the step.
fn behind_step<'a>(d: &'a Design, origin: &Origin, place: usize) -> ObligationVariable<'a> {
    let Some(held) = origin.held else {
        return of_clause(d, origin, place);
    };
    let locals = locals_of(d, held);
    match locals.get(place) {
        Some(name) => ObligationVariable::Held(name.as_slice()),
        None if place == locals.len() => ObligationVariable::HeldOwn,
        None => of_clause(
            d,
            origin,
            place.saturating_sub(locals.len()).saturating_sub(1),
        ),
    }
}

/// Whether one of some reads assigns a local.
pub fn assigns(reads: &[Read], local: usize) -> bool {
    reads.iter().any(|read| read.assigned() as usize == local)
}

/// The variable of a step's read.
fn of_read<'a>(
    locals: &'a [Text],
    reads: &[Read],
    place: usize,
    local: usize,
) -> ObligationVariable<'a> {
    let name = match locals.get(local) {
        Some(name) => name.as_slice(),
        None => &[],
    };
    let number = place.saturating_add(1);
    match reads.get(number..) {
        Some(later) if assigns(later, local) => ObligationVariable::Behind(name, number as u64),
        _ => ObligationVariable::Local(name),
    }
}

/// What a variable of an obligation at a point is.
fn at_point<'a>(d: &'a Design, origin: &Origin, at: At, place: usize) -> ObligationVariable<'a> {
    let locals = locals_of(d, at);
    let reads = reads_of(d, at, origin);
    match locals.get(place) {
        Some(name) if assigns(reads, place) => return ObligationVariable::Before(name.as_slice()),
        Some(name) => return ObligationVariable::Local(name.as_slice()),
        None if place == locals.len() => return ObligationVariable::Own,
        None => {}
    }
    let place = place.saturating_sub(locals.len()).saturating_sub(1);
    match reads.get(place) {
        Some(read) => of_read(locals, reads, place, read.assigned() as usize),
        None => behind_step(d, origin, place.saturating_sub(reads.len())),
    }
}

fn variable_of<'a>(d: &'a Design, origin: &Origin, place: usize) -> ObligationVariable<'a> {
    match origin.at {
        Some(at) => at_point(d, origin, at, place),
        None => of_clause(d, origin, place),
    }
}

/// Whether a variable of an obligation is the number of a transaction.
pub fn is_number(d: &Design, origin: &Origin, variable: u32) -> bool {
    match variable_of(d, origin, variable as usize) {
        ObligationVariable::Own | ObligationVariable::HeldOwn => true,
        ObligationVariable::Local(_)
        | ObligationVariable::Before(_)
        | ObligationVariable::Behind(_, _) => false,
        ObligationVariable::Held(_)
        | ObligationVariable::Named(_)
        | ObligationVariable::Shared(_) => false,
        ObligationVariable::Component(_) => false,
    }
}

/// An origin whose variables are the locals of a point's type and `self`, as the design has them.
pub fn resting_at(at: At) -> Origin {
    Origin {
        rule: Rule::Begins,
        held: None,
        clause: 0,
        at: Some(at),
        side: Side::Next,
        path: 0,
        case: 1,
    }
}

/// Writes what a variable of an obligation is called.
pub fn push_variable(out: &mut Page, d: &Design, origin: &Origin, variable: u32) {
    match variable_of(d, origin, variable as usize) {
        ObligationVariable::Local(name) | ObligationVariable::Named(name) => out.push(name),
        ObligationVariable::Before(name) => {
            out.push(b"old ");
            out.push(name)
        }
        ObligationVariable::Behind(name, read) => {
            out.push(name);
            out.push(b" of read ");
            out.push_number(read)
        }
        ObligationVariable::Shared(name) => {
            out.push(name);
            out.push(b" of the assertion")
        }
        ObligationVariable::Own => out.push(language::ONESELF),
        ObligationVariable::Held(name) => {
            out.push(b"held ");
            out.push(name)
        }
        ObligationVariable::HeldOwn => {
            out.push(b"held ");
            out.push(language::ONESELF)
        }
        ObligationVariable::Component(number) => {
            out.push(b"key ");
            out.push_number(number)
        }
    }
}
