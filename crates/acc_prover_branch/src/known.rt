//! What a branch knows, and what elimination shows there.
ghost use Rattle.std.specs.Prelude.{◌≡◌, ◌++◌, ◌∷◌, [], Some, None, if◌then◌else◌, IfOk};
ghost use Rattle.acc_prover_branch.specs.Courses.{halted, AnswersCourse, LeavesIf};
ghost use Rattle.acc_prover_branch.specs.Known.{try_below_zero, try_above_zero, verdict, refuting, with_next, excludes, shows_at_most, shows_at_least, shows};
ghost use Rattle.acc_prover_branch.specs.Known.{shows_all};

use crate::halts::Halt;
use acc_axioms::nodes::Schema;
use acc_base::forms::{Form, Rel};
use acc_base::sums::FormSum;
use acc_elim::solver::Solver;
use acc_elim::{ElimError, Verdict};
use acc_farkas::refuting::Mults;
use acc_proof::facts;
use std::alloc::{AllocError, Global};

/// The relations that are known, in order, and which instances, by their places, and axioms were added to them.
#[derive(Drop)]
pub struct Branch {
    pub rels: Solver,
    pub insts: Vec<usize>,
    pub axioms: Vec<Schema>,
}

/// How a search halts where an elimination does.
fn halted(error: ElimError) -> Halt
    ensures { result ≡ halted error }
{
    match error {
        ElimError::Wide => Halt::Wide,
        ElimError::Many => Halt::Many,
        ElimError::Memory => Halt::Memory,
    }
}

/// Whether relations hold at some point.
pub fn verdict(alloc: Global, rels: &mut Solver) -> Result<Verdict, Halt>
    ensures kind { AnswersCourse result (verdict rels.old) }
    ensures same { rels.new ≡ rels.old }
{
    match rels.decide(alloc) {
        Ok(verdict) => Ok(verdict),
        Err(error) => Err(halted(error)),
    }
}

/// Multipliers that refute relations and one more behind them, if they have no solution.
fn refuting(alloc: Global, rels: &mut Solver, last: Rel) -> Result<Option<Mults>, Halt>
    ensures kind { AnswersCourse result (refuting (rels.old ++ last ∷ [])) }
    ensures same { rels.new ≡ rels.old }
{
    match rels.decide_with(alloc, last) {
        Ok(Verdict::Refuted(multipliers)) => Ok(Some(multipliers)),
        Ok(Verdict::Solved(_)) => Ok(None),
        Err(error) => Err(halted(error)),
    }
}

/// That a form is below 0.
pub fn try_below_zero(alloc: Global, form: &Form) -> Result<Rel, Halt>
    ensures { AnswersCourse result (try_below_zero form.now) }
{
    match facts::below_zero(alloc, form) {
        Ok(rel) => Ok(rel),
        Err(FormSum::Wide) => Err(Halt::Wide),
        Err(FormSum::Memory) => Err(Halt::Memory),
    }
}

/// That a form is above 0.
pub fn try_above_zero(alloc: Global, form: &Form) -> Result<Rel, Halt>
    ensures { AnswersCourse result (try_above_zero form.now) }
{
    match facts::above_zero(alloc, form) {
        Ok(rel) => Ok(rel),
        Err(FormSum::Wide) => Err(Halt::Wide),
        Err(FormSum::Memory) => Err(Halt::Memory),
    }
}

/// Notes multipliers behind the others, if there are some, and answers whether there are.
fn note(found: &mut Vec<Mults>, multipliers: Option<Mults>) -> Result<bool, AllocError>
    ensures { IfOk result (λ yes. with_next found.old.items multipliers ≡ (if yes then Some found.new.items else None)) }
{
    match multipliers {
        None => Ok(false),
        Some(multipliers) => {
            found.push(multipliers)?;
            Ok(true)
        }
    }
}

/// Whether what is known refutes a relation; the multipliers come behind the others.
fn excludes(
    alloc: Global,
    rels: &mut Solver,
    found: &mut Vec<Mults>,
    contrary: Rel,
) -> Result<bool, Halt>
    ensures kind { LeavesIf result found.new.items (excludes rels.old found.old.items contrary) }
    ensures same { rels.new ≡ rels.old }
{
    let multipliers = refuting(alloc, rels, contrary)?;
    let shown = note(found, multipliers)?;
    Ok(shown)
}

/// Whether what is known shows that a form is at most 0.
fn shows_at_most(
    alloc: Global,
    rels: &mut Solver,
    found: &mut Vec<Mults>,
    form: &Form,
) -> Result<bool, Halt>
    ensures kind { LeavesIf result found.new.items (shows_at_most rels.old found.old.items form.now) }
    ensures same { rels.new ≡ rels.old }
{
    let contrary = try_above_zero(alloc, form)?;
    excludes(alloc, rels, found, contrary)
}

/// Whether what is known shows that a form is at least 0.
fn shows_at_least(
    alloc: Global,
    rels: &mut Solver,
    found: &mut Vec<Mults>,
    form: &Form,
) -> Result<bool, Halt>
    ensures kind { LeavesIf result found.new.items (shows_at_least rels.old found.old.items form.now) }
    ensures same { rels.new ≡ rels.old }
{
    let contrary = try_below_zero(alloc, form)?;
    excludes(alloc, rels, found, contrary)
}

/// Whether what is known shows a relation.
fn shows(alloc: Global, rels: &mut Solver, found: &mut Vec<Mults>, rel: &Rel) -> Result<bool, Halt>
    ensures kind { LeavesIf result found.new.items (shows rels.old found.old.items rel.now) }
    ensures same { rels.new ≡ rels.old }
{
    if !shows_at_most(alloc, rels, found, &rel.form)? {
        return Ok(false);
    }
    if rel.equal {
        return shows_at_least(alloc, rels, found, &rel.form);
    }
    Ok(true)
}

/// Whether what is known shows each of these relations; the multipliers that show them come behind the others, one list for an
/// inequality and two for an equation. The cost is that of so many eliminations.
pub fn shows_all(
    alloc: Global,
    rels: &mut Solver,
    found: &mut Vec<Mults>,
    facts: &[Rel],
) -> Result<bool, Halt>
    ensures kind { LeavesIf result found.new.items (shows_all rels.old found.old.items facts.now) }
    ensures same { rels.new ≡ rels.old }
{
    for fact in facts {
        if !shows(alloc, rels, found, fact)? {
            return Ok(false);
        }
    }
    Ok(true)
}
