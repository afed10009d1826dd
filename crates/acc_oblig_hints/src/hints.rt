//! The values that the search for an obligation's proof may use.
ghost use Rattle.std.specs.Prelude.{◌≡◌, ◌≤◌, [], ◌∷◌, ◌++◌, length, slice_get, IfOk, OnOk};
ghost use Rattle.acc_base.specs.declared.bounds.TheConstants.{MOST_LOCALS, MOST_READS};
ghost use Rattle.acc_base.specs.Effects.{step_of};
ghost use Rattle.acc_formed.specs.Ranges.{locals_of};
ghost use Rattle.acc_oblig_places.specs.Rooms.{IsSmallDesign};
ghost use Rattle.acc_oblig_hints.specs.Hints.{has_no_reads, reads_of, reads_at, names_after, hint_naming, is_hint_at, hints_at, hints_of};

use acc_base::designs::{At, Design, Hint, Side};
use acc_base::forms::Lin;
use acc_base::sequences::Seq;
use acc_base::sequents::{Origin, Rule, Sequent};
use acc_base::steps::Read;
use acc_oblig::naming::Naming;
use acc_oblig_assumptions::settings::{Setting, last_names};
use acc_oblig_named::naming::named_lin;
use std::alloc::{AllocError, Global};

/// Whether an obligation is of a transaction that begins, or of one that rests at a point: it has no variable of a read.
fn has_no_reads(origin: &Origin) -> bool
    ensures { result ≡ has_no_reads origin.now }
{
    match origin.rule {
        Rule::Begins => true,
        Rule::Variants => origin.clause < 3,
        Rule::Promises | Rule::Always | Rule::Spares | Rule::There => false,
        Rule::Ranges | Rule::Clears | Rule::Empty => false,
    }
}

/// The reads of a step, if there is one.
fn reads_of(d: &Design, at: At, side: Side) -> &[Read]
    ensures reads { result.now ≡ reads_of (step_of d.now at.ty at.point side) }
{
    match d.step(at, side) {
        Some(step) => step.reads.as_slice(),
        None => &[],
    }
}

/// The reads whose variables an obligation at a point has.
fn reads_at<'a>(d: &'a Design, origin: &Origin, at: At) -> &'a [Read]
    ensures { result.now ≡ reads_at d.now origin.now at }
{
    if has_no_reads(origin) {
        return &[];
    }
    reads_of(d, at, origin.side)
}

/// How many locals a type has, and none where it isn't in the design.
fn locals_of(d: &Design, ty: u32) -> usize
    ensures { result ≡ locals_of (slice_get d.now.types ty) }
{
    match d.types.as_slice().get(ty as usize) {
        Some(ty) => ty.locals.len(),
        None => 0,
    }
}

/// The variables of so many locals behind reads.
fn names_after(alloc: Global, locals: usize, reads: &[Read]) -> Result<Seq<u32>, AllocError>
    requires locals { locals ≤ MOST_LOCALS }
    requires reads { length reads.now ≤ MOST_READS }
    ensures { IfOk result (λ names. names ≡ names_after locals reads.now) }
{
    let setting = Setting {
        always: &[],
        clauses: &[],
        locals: locals as u32,
        reads,
        earlier: &[],
        guard: &[],
        actions: &[],
    };
    last_names(alloc, &setting)
}

/// What the locals are called in an obligation at a point.
fn hint_naming(alloc: Global, d: &Design, q: &Sequent, at: At) -> Result<Naming, AllocError>
    requires { IsSmallDesign d.now }
    ensures { IfOk result (λ n. n ≡ hint_naming d.now q.now at) }
{
    let reads = reads_at(d, &q.origin, at);
    Ok(Naming {
        names: names_after(alloc, locals_of(d, at.ty), reads)?,
        past: q.vars,
    })
}

fn is_hint_at(at: At, side: Side, hint: &Hint) -> bool
    ensures { result ≡ is_hint_at at side hint.now }
{
    hint.at == at && hint.side == side
}

/// Adds a hint by its names, if it is one of the point and side.
fn add_hint(
    alloc: Global,
    out: &mut Seq<Lin>,
    names: &Naming,
    place: (At, Side),
    hint: &Hint,
) -> Result<(), AllocError>
    ensures { OnOk result (out.new ≡ out.old ++ hints_at names.now place.0 place.1 (hint.now ∷ [])) }
{
    if !is_hint_at(place.0, place.1, hint) {
        return Ok(());
    }
    out.push(named_lin(alloc, names, &hint.lin)?)?;
    Ok(())
}

/// The hints of a point and side, in the design's order, by these names.
fn hints_at(
    alloc: Global,
    names: &Naming,
    place: (At, Side),
    hints: &[Hint],
) -> Result<Seq<Lin>, AllocError>
    ensures { IfOk result (λ found. found ≡ hints_at names.now place.0 place.1 hints.now) }
{
    let mut found = Seq::new(alloc);
    for hint in hints {
        add_hint(alloc, &mut found, names, place, hint)?;
    }
    Ok(found)
}

/// The hints of an obligation: those of its point and side, where a local is the variable of its last read, if it is read.
pub fn hints_of(alloc: Global, d: &Design, q: &Sequent) -> Result<Seq<Lin>, AllocError>
    requires { IsSmallDesign d.now }
    ensures { IfOk result (λ hints. hints ≡ hints_of d.now q.now) }
{
    match q.origin.at {
        Some(at) => {
            let names = hint_naming(alloc, d, q, at)?;
            hints_at(alloc, &names, (at, q.origin.side), d.hints.as_slice())
        }
        None => Ok(Seq::new(alloc)),
    }
}
