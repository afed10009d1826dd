//! The first complaint about some clauses.
ghost use Rattle.std.specs.Prelude.{◌≡◌, ◌≤◌, ◌+◌, ◌<◌, ◌^◌, length, All, IfOk};
ghost use Rattle.acc_audit_trial.specs.Trials.{AreKeyed, CanTry};
ghost use Rattle.acc_audit_complaints.specs.Complaints.{AreRanges, Judges, IsFirst, IsShort};
ghost use Rattle.acc_audit_complaints.specs.Since.{WasClear};

use crate::counts::are_few;
use crate::reads::clause_reads;
use crate::searches::{Complaint, first_bad};
use acc_audit_ranges::{KeyedStore, range};
use acc_base::forms::Clause;
use acc_base::sequences::Seq;
use acc_store::{Store, Write};
use std::alloc::{AllocError, Global};

/// The number of a clause's own variable: these come behind those outside.
fn own_variable(outside: &[i64], i: usize) -> u32
    requires few { length outside.now + i < 2 ^ 32 }
    ensures { result ≡ length outside.now + i }
{
    (outside.len() + i) as u32
}

/// The ranges of a clause's own variables.
fn ranges_of<S: Store>(
    alloc: Global,
    s: &KeyedStore<S>,
    clause: &Clause,
    outside: &[i64],
) -> Result<Vec<Seq<i64>>, AllocError>
    requires few { length outside.now + length clause.now.vars < 2 ^ 32 }
    ensures { IfOk result (λ ranges. AreRanges s.now outside.now clause.now ranges.items) }
{
    let mut ranges = Vec::new(alloc);
    for i in 0..clause.vars.len() {
        let own = range(alloc, s, clause, outside, own_variable(outside, i))?;
        ranges.push(own)?;
    }
    Ok(ranges)
}

/// What is wrong with a clause, if something is.
fn complaint<S: Store>(
    alloc: Global,
    s: &KeyedStore<S>,
    clause: &Clause,
    outside: &[i64],
) -> Result<Option<Complaint>, AllocError>
    requires keyed { AreKeyed s.now }
    requires can { CanTry clause.now }
    requires few { IsShort outside.now clause.now }
    ensures { IfOk result (Judges s.now outside.now clause.now) }
{
    let ranges = ranges_of(alloc, s, clause, outside)?;
    if !are_few(&ranges) {
        return Ok(Some(Complaint::Large));
    }
    let mut values = Vec::from_slice(alloc, outside)?;
    first_bad(alloc, s, clause, outside.len(), &mut values, &ranges)
}

/// What is wrong with a clause with which nothing was wrong before some writes, if something is.
fn complaint_since<S: Store>(
    alloc: Global,
    s: &KeyedStore<S>,
    clause: &Clause,
    outside: &[i64],
    writes: &[Write],
) -> Result<Option<Complaint>, AllocError>
    requires keyed { AreKeyed s.now }
    requires can { CanTry clause.now }
    requires few { IsShort outside.now clause.now }
    requires since { WasClear writes.now s.now outside.now clause.now }
    ensures { IfOk result (Judges s.now outside.now clause.now) }
{
    if !clause_reads(writes, clause) {
        return Ok(None);
    }
    complaint(alloc, s, clause, outside)
}

/// The number, from 1, of the first of some clauses with which something is wrong, and what that is; none exactly where nothing is.
///
/// `outside` are the values of the variables that the clauses take from outside. The own variables of a clause range over 0, these
/// values, and what rows have in their keys where the variable stands alone in an atom of the clause. A clause is tried at each tuple
/// of such values, in ascending order, the first variable first. Where there are more than 2^20 tuples it is `Large` before any is tried,
/// and where a product or a sum on the way leaves ±2^120 at a tuple before which none shows it false.
///
/// The answer fails where memory ran out.
pub fn first_complaint<S: Store>(
    alloc: Global,
    s: &KeyedStore<S>,
    clauses: &[Clause],
    outside: &[i64],
) -> Result<Option<(u32, Complaint)>, AllocError>
    requires keyed { AreKeyed s.now }
    requires can { All CanTry clauses.now }
    requires short { All (IsShort outside.now) clauses.now }
    requires few { length clauses.now < 2 ^ 32 }
    ensures { IfOk result (IsFirst s.now outside.now clauses.now) }
{
    for i in 0..clauses.len() {
        if let Some(found) = complaint(alloc, s, &clauses[i], outside)? {
            return Ok(Some((i as u32 + 1, found)));
        }
    }
    Ok(None)
}

/// The same, of clauses with which nothing was wrong before some writes led to the rows. A clause of whose tables they change none isn't
/// tried again.
pub fn first_complaint_since<S: Store>(
    alloc: Global,
    s: &KeyedStore<S>,
    clauses: &[Clause],
    outside: &[i64],
    writes: &[Write],
) -> Result<Option<(u32, Complaint)>, AllocError>
    requires keyed { AreKeyed s.now }
    requires can { All CanTry clauses.now }
    requires short { All (IsShort outside.now) clauses.now }
    requires few { length clauses.now < 2 ^ 32 }
    requires since { All (WasClear writes.now s.now outside.now) clauses.now }
    ensures { IfOk result (IsFirst s.now outside.now clauses.now) }
{
    for at in 0..clauses.len() {
        if let Some(found) = complaint_since(alloc, s, &clauses[at], outside, writes)? {
            return Ok(Some((at as u32 + 1, found)));
        }
    }
    Ok(None)
}
