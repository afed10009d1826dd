//! The pairs that an entry may have.
ghost use Rattle.std.specs.Prelude.{◌≡◌, ◌≤◌, ◌<◌, ◌^◌, ◌++◌, ◌&&◌, length, slice_get, IfOk, OnOk};
ghost use Rattle.std.specs.List.{AllByRecursion};
ghost use Rattle.std.specs.Str.{bytes_eq};
ghost use Rattle.acc_base.specs.declared.bounds.TheConstants.{MOST_LOCALS};
ghost use Rattle.acc_formed.specs.Entries.{undos_keep};
ghost use Rattle.acc_oblig.specs.Drafts.{each};
ghost use Rattle.acc_oblig_places.specs.Rooms.{HasFewLocals};
ghost use Rattle.acc_advise.specs.Candidates.{candidates, pair_of, pairs_in};
ghost use Rattle.acc_advise.specs.Cases.{IsCase};

use crate::advice::Question;
use crate::spares::Inquiry;
use acc_base::designs::TxType;
use acc_base::sequences::{Seq, Text};
use acc_form::undos_keep;
use std::alloc::{AllocError, Global};

/// Whether a held local and one of the step may stand in a pair.
fn may_pair(types: &[TxType], question: Question, pair: (u32, u32)) -> bool
    ensures { result ≡ (undos_keep (slice_get types.now question.held.ty) pair.0
        && undos_keep (slice_get types.now question.step.ty) pair.1) }
{
    undos_keep(types, question.held.ty, pair.0) && undos_keep(types, question.step.ty, pair.1)
}

/// Adds a pair, where the two locals have one name and may stand in a pair.
fn add_pair(
    out: &mut Seq<(u32, u32)>,
    types: &[TxType],
    question: Question,
    name: &Text,
    other: &Text,
    pair: (u32, u32),
) -> Result<(), AllocError>
    ensures { OnOk result (out.new ≡ out.old ++ pair_of types.now question pair.0 name.now pair.1 other.now) }
{
    if name == other && may_pair(types, question, pair) {
        out.push(pair)?;
    }
    Ok(())
}

/// Adds the pairs of a held local, which has this number and name, with locals of the step.
fn add_pairs(
    out: &mut Seq<(u32, u32)>,
    types: &[TxType],
    question: Question,
    i: u32,
    name: &Text,
    step: &[Text],
) -> Result<(), AllocError>
    requires { length step.now ≤ MOST_LOCALS }
    ensures { OnOk result (out.new ≡ out.old ++ each (pair_of types.now question i name.now) step.now) }
{
    for (j, other) in step.iter().enumerate() {
        add_pair(out, types, question, name, other, (i, j as u32))?;
    }
    Ok(())
}

/// The pairs of held locals with locals of the step.
fn pairs_in(
    alloc: Global,
    types: &[TxType],
    question: Question,
    held: &[Text],
    step: &[Text],
) -> Result<Seq<(u32, u32)>, AllocError>
    requires held { length held.now ≤ MOST_LOCALS }
    requires step { length step.now ≤ MOST_LOCALS }
    ensures { IfOk result (λ pairs. pairs ≡ pairs_in types.now question held.now step.now) }
{
    let mut out = Seq::new(alloc);
    for (i, name) in held.iter().enumerate() {
        add_pairs(&mut out, types, question, i as u32, name, step)?;
    }
    Ok(out)
}

/// The pairs of a held local and a local of the step that have one name, in the order of the held locals; without those of a local that an
/// undo step assigns.
pub fn candidates(alloc: Global, case: &Inquiry<'_>) -> Result<Seq<(u32, u32)>, AllocError>
    requires { IsCase case.now }
    ensures { IfOk result (λ pairs. pairs ≡ candidates case.now.d.now case.now.question) }
{
    pairs_in(
        alloc,
        case.d.types.as_slice(),
        case.question,
        case.held.ty.locals.as_slice(),
        case.taken.place.ty.locals.as_slice(),
    )
}
