//! Relations as goals: forms that are at most 0.
ghost use Rattle.std.specs.Prelude.{◌≡◌, IfOk};
ghost use Rattle.acc_base.specs.Sums.{TellsWide};
ghost use Rattle.acc_oblig.specs.Drafts.{goals_of, are_goals_wide};

use acc_base::forms::{Form, Rel};
use acc_base::sequences::Seq;
use acc_base::sums::FormSum;
use std::alloc::Global;

/// A relation as forms that are at most 0: its form, and for an equation that times -1 behind it.
pub fn goals_of(alloc: Global, r: Rel) -> Result<Seq<Form>, FormSum>
    ensures value { IfOk result (λ v. v ≡ goals_of r) }
    ensures wide { TellsWide result (are_goals_wide r) }
{
    let mut goals = Seq::new(alloc);
    if r.equal {
        let none = Form {
            terms: Seq::new(alloc),
            constant: 0,
        };
        let opposite = none.plus(alloc, &r.form, -1)?;
        goals.push(r.form)?;
        goals.push(opposite)?;
    } else {
        goals.push(r.form)?;
    }
    Ok(goals)
}
