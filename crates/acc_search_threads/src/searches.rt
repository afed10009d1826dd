//! Searches for the proofs of obligations, each in a thread of its own.
ghost use Rattle.std.specs.Prelude.{◌≡◌, ◌<◌, ℕ, length, slice_index_or, vec_len, IfOk};
ghost use Rattle.acc_formed.specs.WellFormed.{IsWellFormed};
ghost use Rattle.acc_cert_prove.specs.Findings.{IsFinding, AreFindings};

use acc_base::designs::Design;
use acc_base::sequences::Seq;
use acc_base::sequents::Sequent;
use acc_cert_prove::{Finding, finding_of};
use std::alloc::{AllocError, Global};
use std::thread;
use std::thread::Threads;

/// So many obligations are searched at once for each processor: one may take a hundred times as long as those beside it.
const EACH: usize = 16;

/// How many obligations are searched at once: `EACH` for each processor that there is.
pub fn at_once<R: Threads>(rt: &R) -> usize {
    match thread::available_parallelism(rt) {
        Ok(processors) => processors.get().saturating_mul(EACH),
        Err(_) => EACH,
    }
}

/// A search for each of the obligations, by its number.
fn search_all<R: Threads + Sync>(
    rt: &R,
    alloc: Global,
    d: &Design,
    sequents: &[Sequent],
) -> Result<Vec<Finding>, AllocError>
    requires { IsWellFormed d.now }
    ensures whole { IfOk result (λ v. vec_len v ≡ length sequents.now) }
    ensures each { IfOk result (λ v. (i : ℕ) (q : _) (f : _) → i < length sequents.now
        → IsFinding d.now (slice_index_or sequents.now i q) (slice_index_or v.items i f)) }
{
    thread::map_indices(
        rt,
        alloc,
        sequents.len(),
        &|i| finding_of(alloc, d, &sequents[i]),
    )
}

/// Searches for the proof of each of the obligations, and gives what is found, in their order; each in a thread of its own, where one can
/// be made, and else by the caller. So they are handed out one by one: a long search keeps one processor, and the others go on. It waits
/// for all of them.
pub fn search_in_threads<R: Threads + Sync>(
    rt: &R,
    alloc: Global,
    d: &Design,
    sequents: &[Sequent],
) -> Result<Seq<Finding>, AllocError>
    requires { IsWellFormed d.now }
    ensures { IfOk result (AreFindings d.now sequents.now) }
{
    let findings = search_all(rt, alloc, d, sequents)?;
    Ok(Seq::from_vec(findings))
}
