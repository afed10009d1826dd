//! The relations of an elimination, read from relations between unknowns.
ghost use Rattle.std.specs.Prelude.{◌≡◌, ◌<◌, ◌^◌, ◌∷◌, [], length, IfOk, IfSome, OnOk, MatchResult, Ok};
ghost use Rattle.std.specs.List.{fold};
ghost use Rattle.acc_base.specs.Computing.{Answers, Leaves, chain, steps};
ghost use Rattle.acc_rows.specs.Answers.{tells, StoppedBy, behind};
ghost use Rattle.acc_rows.specs.Numbers.{kept};
ghost use Rattle.acc_elim_readings.specs.Readings.{read_number, place_of, with_name, with_term, with_rel, unknowns_of, read_term};
ghost use Rattle.acc_elim_readings.specs.Readings.{row_of, once, row_alone, rows_from};

use acc_base::forms::{Form, Rel, Unknown};
use acc_base::sequences::{Seq, copied};
use acc_rows::numbers::{kept, sum_of};
use acc_rows::rows::Row;
use acc_rows::sparse::mixed;
use acc_rows::stops::Stop;
use std::alloc::{AllocError, Global};

/// The place of an unknown among others.
pub fn place_of(names: &[Unknown], unknown: &Unknown) -> Option<usize>
    ensures value { result ≡ place_of names.now unknown.now }
    ensures within { IfSome result (λ i. i < length names.now) }
{
    names.iter().position(|name| *name == *unknown)
}

/// One more unknown, unless it stands there.
fn add_name(names: &mut Vec<Unknown>, unknown: &Unknown) -> Result<(), AllocError>
    ensures { OnOk result (names.new.items ≡ with_name names.old.items unknown.now) }
{
    match place_of(names.as_slice(), unknown) {
        Some(_) => Ok(()),
        None => {
            names.push(copied(unknown)?)?;
            Ok(())
        }
    }
}

/// The unknown of one more term, unless it is the number 1.
fn add_term(names: &mut Vec<Unknown>, term: &(Unknown, i128)) -> Result<(), AllocError>
    ensures { OnOk result (names.new.items ≡ with_term names.old.items term.now) }
{
    if term.0.is_bare_one() {
        return Ok(());
    }
    add_name(names, &term.0)
}

/// The unknowns of terms, after those that stand there.
pub fn add_names(names: &mut Vec<Unknown>, terms: &[(Unknown, i128)]) -> Result<(), AllocError>
    ensures { OnOk result (names.new.items ≡ fold with_term names.old.items terms.now) }
{
    for term in terms {
        add_term(names, term)?;
    }
    Ok(())
}

/// The unknowns of relations, each once, in the order of first appearance. The cost is that of comparing each term's unknown with each
/// unknown.
pub fn unknowns_of(alloc: Global, rels: &[Rel]) -> Result<Seq<Unknown>, AllocError>
    ensures { IfOk result (λ names. names ≡ unknowns_of rels.now) }
{
    let mut names = Vec::new(alloc);
    for rel in rels {
        add_names(&mut names, rel.form.terms.as_slice())?;
    }
    Ok(Seq::from_vec(names))
}

/// What is added to the constant for a term.
fn read_number(constant: i128, term: &(Unknown, i128)) -> Result<i128, Stop>
    ensures { Answers tells result (read_number constant term.now) }
{
    if term.0.is_bare_one() {
        return sum_of(constant, term.1);
    }
    Ok(constant)
}

/// What is added to the constant for terms.
fn read_numbers(first: i128, terms: &[(Unknown, i128)]) -> Result<i128, Stop>
    ensures { Answers tells result (steps read_number first terms.now) }
{
    let mut constant = first;
    for term in terms {
        constant = read_number(constant, term)?;
    }
    Ok(constant)
}

/// The constant of a form, with the number 1 among its terms.
fn read_constant(form: &Form) -> Result<i128, Stop>
    ensures { Answers tells result (chain (kept form.now.constant) (λ first. steps read_number first form.now.terms)) }
{
    let first = kept(form.constant)?;
    read_numbers(first, form.terms.as_slice())
}

/// One more term. An unknown that isn't among the names is worth 0.
fn read_term(
    alloc: Global,
    names: &[Unknown],
    terms: Seq<(u32, i128)>,
    term: &(Unknown, i128),
) -> Result<Seq<(u32, i128)>, Stop>
    requires { length names.now < 2 ^ 32 }
    ensures { Answers tells result (read_term names.now terms term.now) }
{
    if term.0.is_bare_one() || term.1 == 0 {
        return Ok(terms);
    }
    match place_of(names, &term.0) {
        None => Ok(terms),
        Some(place) => mixed(alloc, 1, 1, terms.as_slice(), &[(place as u32, term.1)]),
    }
}

/// More terms, one after the other.
fn read_terms(
    alloc: Global,
    names: &[Unknown],
    terms: &[(Unknown, i128)],
) -> Result<Seq<(u32, i128)>, Stop>
    requires { length names.now < 2 ^ 32 }
    ensures { Answers tells result (steps (read_term names.now) [] terms.now) }
{
    let mut read = Seq::new(alloc);
    for term in terms {
        read = read_term(alloc, names, read, term)?;
    }
    Ok(read)
}

/// The list with one number at one place.
fn once(alloc: Global, place: u32) -> Result<Seq<(u32, i128)>, AllocError>
    ensures { IfOk result (λ v. v ≡ once place) }
{
    let mut list = Seq::new(alloc);
    list.push((place, 1))?;
    Ok(list)
}

/// A relation, made once by itself.
fn row_of(alloc: Global, names: &[Unknown], place: u32, rel: &Rel) -> Result<Row, Stop>
    requires { length names.now < 2 ^ 32 }
    ensures { Answers tells result (row_of names.now place rel.now) }
{
    let constant = read_constant(&rel.form)?;
    let terms = read_terms(alloc, names, rel.form.terms.as_slice())?;
    let by = once(alloc, place)?;
    Ok(Row {
        terms,
        constant,
        equal: rel.equal,
        by,
    })
}

/// One more relation is read. Its unknowns come behind the others.
pub fn read_next(
    alloc: Global,
    names: &mut Vec<Unknown>,
    place: u32,
    rel: &Rel,
) -> Result<Row, Stop>
    ensures names { OnOk result (names.new.items ≡ with_rel names.old.items rel.now) }
    ensures row { Answers tells result (row_of (with_rel names.old.items rel.now) place rel.now) }
{
    add_names(names, rel.form.terms.as_slice())?;
    if names.len() > u32::MAX as usize {
        return Err(Stop::Memory);
    }
    row_of(alloc, names.as_slice(), place, rel)
}

/// One more relation behind the others.
fn push_row(
    alloc: Global,
    names: &[Unknown],
    rows: &mut Vec<Row>,
    place: u32,
    rel: &Rel,
) -> Result<(), Stop>
    requires { length names.now < 2 ^ 32 }
    ensures { Leaves tells result rows.new.items (behind rows.old.items (row_alone names.now place rel.now)) }
{
    let row = row_of(alloc, names, place, rel)?;
    rows.push(row)?;
    Ok(())
}

/// The relations, each made once by itself.
pub fn rows_of(alloc: Global, names: &[Unknown], rels: &[Rel]) -> Result<Vec<Row>, Stop>
    requires names_few { length names.now < 2 ^ 32 }
    requires rels_few { length rels.now < 2 ^ 32 }
    ensures { MatchResult result (λ rows. rows_from names.now 0 rels.now ≡ Ok rows.items)
        (λ e. StoppedBy e (rows_from names.now 0 rels.now)) }
{
    let mut rows = Vec::new(alloc);
    let mut place = 0;
    for rel in rels {
        push_row(alloc, names, &mut rows, place, rel)?;
        place += 1;
    }
    Ok(rows)
}
