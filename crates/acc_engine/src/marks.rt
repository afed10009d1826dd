//! Marks of the places that are begun.
ghost use Rattle.std.specs.Prelude.{◌≡◌, ◌≤◌, ◌<◌, List, ℕ, vec_len, OnOk, true};
ghost use Rattle.acc_base.specs.declared.machines.Call.{Call as TheCall};
ghost use Rattle.acc_engine.specs.Keeping.{is_begun, unbegun, IsLowest};

use std::alloc::AllocError;

/// The lowest place without a mark, where each below this one has a mark. It looks at the marks from there on.
pub fn lowest(begun: &[bool], from: usize) -> usize
    requires below { (p : ℕ) → p < from → is_begun begun.now p ≡ true }
    ensures { IsLowest begun.now result }
{
    for place in from..begun.len() {
        if !begun[place] {
            return place;
        }
    }
    begun.len()
}

/// Makes marks for so many places. A place without a mark isn't begun.
pub fn widen(begun: &mut Vec<bool>, count: usize) -> Result<(), AllocError>
    ensures same { (calls : List TheCall) → unbegun begun.new.items calls ≡ unbegun begun.old.items calls }
    ensures marks { (p : ℕ) → is_begun begun.new.items p ≡ is_begun begun.old.items p }
    ensures long { OnOk result (count ≤ vec_len begun.new) }
{
    if begun.len() < count {
        begun.resize(count, false)
    } else {
        Ok(())
    }
}
