//! The search for values that show a clause false.
ghost use Rattle.std.specs.Prelude.{◌≡◌, ◌≤◌, ◌++◌, length, map, drop, IfOk, Some, None};
ghost use Rattle.acc_audit_trial.specs.Trials.{AreKeyed, CanTry, trial_of};
ghost use Rattle.acc_audit_complaints.specs.Tuples.{tuples};
ghost use Rattle.acc_audit_complaints.specs.Complaints.{after_trial, first_bad};

use acc_audit_trial::{Trial, tried};
use acc_base::forms::Clause;
use acc_base::sequences::Seq;
use acc_store::Store;
use std::alloc::{AllocError, Global};

/// What is wrong with a clause.
#[derive(Drop)]
pub enum Complaint {
    /// It is false with these values for its own variables.
    False(Seq<i64>),
    /// It can't be told: there are more than 2^20 tuples of values, or a product or a sum on the way leaves ±2^120.
    Large,
}

/// What is wrong with a clause at values for all its variables, of which so many come from outside.
fn complaint_at<S: Store>(
    alloc: Global,
    s: &S,
    clause: &Clause,
    outside: usize,
    values: &[i64],
) -> Result<Option<Complaint>, AllocError>
    requires keyed { AreKeyed (S.rows s.now) }
    requires can { CanTry clause.now }
    requires within { outside ≤ length values.now }
    ensures { IfOk result (λ found. found ≡ after_trial (drop outside values.now) (trial_of (S.rows s.now) values.now clause.now) None) }
{
    match tried(s, clause, values) {
        Trial::Holds => Ok(None),
        Trial::Fails => {
            let own = Vec::from_slice(alloc, &values[outside..])?;
            Ok(Some(Complaint::False(Seq::from_vec(own))))
        }
        Trial::Large => Ok(Some(Complaint::Large)),
    }
}

/// What is wrong with a clause at the first tuple of values of ranges at which something is. The values so far stand before the tuples'.
pub fn first_bad<S: Store>(
    alloc: Global,
    s: &S,
    clause: &Clause,
    outside: usize,
    values: &mut Vec<i64>,
    ranges: &[Seq<i64>],
) -> Result<Option<Complaint>, AllocError>
    requires keyed { AreKeyed (S.rows s.now) }
    requires can { CanTry clause.now }
    requires within { outside ≤ length values.old.items }
    ensures found { IfOk result (λ found. found ≡ first_bad (S.rows s.now) clause.now outside
        (map (λ own. values.old.items ++ own) (tuples ranges.now))) }
    ensures kept { IfOk result (λ found. found ≡ None → values.new.items ≡ values.old.items) }
{
    let Some((range, others)) = ranges.split_first() else {
        return complaint_at(alloc, s, clause, outside, values);
    };
    for x in range.as_slice() {
        values.push(*x)?;
        let found = first_bad(alloc, s, clause, outside, values, others)?;
        if found.is_some() {
            return Ok(found);
        }
        values.pop();
    }
    Ok(None)
}
