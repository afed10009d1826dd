//! Passes over pairs, each of which adds those with which all is proved.
ghost use Rattle.std.specs.Prelude.{◌≡◌, ◌++◌, ◌∷◌, [], None, IfOk, OnOk};
ghost use Rattle.std.specs.List.{AllByRecursion};
ghost use Rattle.acc_oblig_goals.specs.Causes.{first_wide};
ghost use Rattle.acc_oblig_places.specs.Rooms.{HasFewLocals};
ghost use Rattle.acc_advise.specs.TriedDesigns.{free_drafts, keyed};
ghost use Rattle.acc_advise.specs.Cases.{IsCase};
ghost use Rattle.acc_advise.specs.Steps.{HasPassed, IsKnown, IsSettled, Steps, Tells, reasons, tried_pairs};

use crate::advice::{AdviseError, Beyond, Question};
use crate::spares::Inquiry;
use crate::trials::{SpareTrial, tried};
use acc_axioms::nodes::Proof;
use acc_base::designs::Entry;
use acc_base::sequences::{Seq, copied};
use acc_cert_prove::Searchers;
use std::alloc::{AllocError, Global};

/// A set of pairs with which all is proved, and the proofs.
#[derive(Drop)]
pub struct Grown {
    pub pairs: Seq<(u32, u32)>,
    pub proofs: Seq<Proof>,
}

/// A pair that was tried beside a set and can't be added to it: what stopped it, and how many pairs the set had. A set grows at its end.
#[derive(Drop)]
pub struct Tried {
    pub beyond: Beyond,
    pub among: usize,
}

/// The entry with a set of pairs and one more, alone.
fn keyed(
    alloc: Global,
    question: Question,
    pairs: &Seq<(u32, u32)>,
    pair: (u32, u32),
) -> Result<Seq<Entry>, AllocError>
    ensures { IfOk result (λ es. es ≡ keyed question (pairs.now ++ pair ∷ []) ∷ []) }
{
    let mut more = copied(pairs)?;
    more.push(pair)?;
    let mut entries = Seq::new(alloc);
    entries.push(Entry {
        held: question.held,
        step: question.step,
        side: question.side,
        pairs: more,
    })?;
    Ok(entries)
}

/// Tries a pair beside those of a set. Where no number of an obligation is too large without an entry, none is with one:
/// `entries_leave_widths`.
fn tried_with<S: Searchers>(
    alloc: Global,
    case: &Inquiry<'_>,
    searchers: &S,
    pairs: &Seq<(u32, u32)>,
    pair: (u32, u32),
) -> Result<SpareTrial, AllocError>
    requires searching { S.ready searchers.now }
    requires case { IsCase case.now }
    requires narrow { first_wide (free_drafts case.now.d.now case.now.question) ≡ None }
    requires set { AllByRecursion HasFewLocals pairs.now }
    requires one { HasFewLocals pair }
    ensures { IfOk result (Tells case.now (pairs.now ++ pair ∷ [])) }
{
    let entries = keyed(alloc, case.question, pairs, pair)?;
    match tried(alloc, case, entries.as_slice(), searchers) {
        Ok(trial) => Ok(trial),
        Err(AdviseError::Memory) => Err(AllocError),
        Err(AdviseError::Wide(_)) => unreachable!(),
    }
}

/// Adds a pair to a set, with the proofs beside it.
fn add_pair(grown: &mut Grown, pair: (u32, u32), proofs: Seq<Proof>) -> Result<(), AllocError>
    ensures pairs { OnOk result (grown.new.pairs ≡ grown.old.pairs ++ pair ∷ []) }
    ensures proofs { OnOk result (grown.new.proofs ≡ proofs) }
{
    grown.pairs.push(pair)?;
    grown.proofs = proofs;
    Ok(())
}

/// Keeps what stopped a pair beside a set of so many pairs.
fn keep(left: &mut Seq<Tried>, beyond: Beyond, among: usize) -> Result<(), AllocError>
    ensures { OnOk result (left.new ≡ left.old ++ record { beyond = beyond; among = among } ∷ []) }
{
    left.push(Tried { beyond, among })
}

/// Adds a pair to a set if all is proved with it, and else keeps what is first open.
fn try_pair<S: Searchers>(
    alloc: Global,
    case: &Inquiry<'_>,
    searchers: &S,
    grown: &mut Grown,
    left: &mut Seq<Tried>,
    pair: (u32, u32),
) -> Result<(), AllocError>
    requires searching { S.ready searchers.now }
    requires case { IsCase case.now }
    requires narrow { first_wide (free_drafts case.now.d.now case.now.question) ≡ None }
    requires set { AllByRecursion HasFewLocals grown.old.pairs }
    requires one { HasFewLocals pair }
    ensures { OnOk result (Steps case.now pair grown.old grown.new left.old left.new) }
{
    let among = grown.pairs.len();
    match tried_with(alloc, case, searchers, &grown.pairs, pair) {
        Ok(SpareTrial::Proved(proofs)) => add_pair(grown, pair, proofs),
        Ok(SpareTrial::Stopped(origin, why)) => keep(left, Beyond { pair, origin, why }, among),
        Err(AllocError) => Err(AllocError),
    }
}

/// Tries a pair again if the set has grown since it was tried, and else keeps what is known: the obligations would be the same.
fn try_again<S: Searchers>(
    alloc: Global,
    case: &Inquiry<'_>,
    searchers: &S,
    grown: &mut Grown,
    left: &mut Seq<Tried>,
    known: Tried,
) -> Result<(), AllocError>
    requires searching { S.ready searchers.now }
    requires case { IsCase case.now }
    requires narrow { first_wide (free_drafts case.now.d.now case.now.question) ≡ None }
    requires set { AllByRecursion HasFewLocals grown.old.pairs }
    requires one { HasFewLocals known.beyond.pair }
    requires known { IsKnown case.now grown.old.pairs known }
    ensures { OnOk result (Steps case.now known.beyond.pair grown.old grown.new left.old left.new) }
{
    if known.among == grown.pairs.len() {
        left.push(known)
    } else {
        try_pair(alloc, case, searchers, grown, left, known.beyond.pair)
    }
}

/// The first pass: tries each candidate, adds those with which all is proved, and keeps what is first open with each other.
fn first_pass<S: Searchers>(
    alloc: Global,
    case: &Inquiry<'_>,
    searchers: &S,
    grown: &mut Grown,
    candidates: &[(u32, u32)],
) -> Result<Seq<Tried>, AllocError>
    requires searching { S.ready searchers.now }
    requires case { IsCase case.now }
    requires narrow { first_wide (free_drafts case.now.d.now case.now.question) ≡ None }
    requires set { AllByRecursion HasFewLocals grown.old.pairs }
    requires others { AllByRecursion HasFewLocals candidates.now }
    ensures { IfOk result (HasPassed case.now grown.old candidates.now grown.new) }
{
    let mut left = Seq::new(alloc);
    for pair in candidates {
        try_pair(alloc, case, searchers, grown, &mut left, *pair)?;
    }
    Ok(left)
}

/// A pass over pairs that were tried and aren't in a set: tries again each since whose try the set has grown, adds those with which all is
/// proved, and keeps what is first open with each other.
fn pass<S: Searchers>(
    alloc: Global,
    case: &Inquiry<'_>,
    searchers: &S,
    grown: &mut Grown,
    outside: Seq<Tried>,
) -> Result<Seq<Tried>, AllocError>
    requires searching { S.ready searchers.now }
    requires case { IsCase case.now }
    requires narrow { first_wide (free_drafts case.now.d.now case.now.question) ≡ None }
    requires set { AllByRecursion HasFewLocals grown.old.pairs }
    requires others { AllByRecursion HasFewLocals (tried_pairs outside) }
    requires known { AllByRecursion (IsKnown case.now grown.old.pairs) outside }
    ensures { IfOk result (HasPassed case.now grown.old (tried_pairs outside) grown.new) }
{
    let mut left = Seq::new(alloc);
    for known in outside.into_vec() {
        try_again(alloc, case, searchers, grown, &mut left, known)?;
    }
    Ok(left)
}

/// What stopped the pairs that were tried.
fn reasons(alloc: Global, left: Seq<Tried>) -> Result<Seq<Beyond>, AllocError>
    ensures { IfOk result (λ bs. bs ≡ reasons left) }
{
    let mut all = Seq::new(alloc);
    for known in left.into_vec() {
        all.push(known.beyond)?;
    }
    Ok(all)
}

/// The set that grows from nothing by passes over pairs, until a pass adds none; with what is beyond.
pub fn settled<S: Searchers>(
    alloc: Global,
    case: &Inquiry<'_>,
    searchers: &S,
    candidates: &[(u32, u32)],
) -> Result<(Grown, Seq<Beyond>), AllocError>
    requires searching { S.ready searchers.now }
    requires case { IsCase case.now }
    requires narrow { first_wide (free_drafts case.now.d.now case.now.question) ≡ None }
    requires few { AllByRecursion HasFewLocals candidates.now }
    ensures { IfOk result (IsSettled case.now candidates.now) }
{
    let mut grown = Grown {
        pairs: Seq::new(alloc),
        proofs: Seq::new(alloc),
    };
    let mut left = first_pass(alloc, case, searchers, &mut grown, candidates)?;
    let mut passed = candidates.len();
    while left.len() < passed {
        passed = left.len();
        left = pass(alloc, case, searchers, &mut grown, left)?;
    }
    let beyond = reasons(alloc, left)?;
    Ok((grown, beyond))
}
