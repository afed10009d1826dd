//! The lists of a sequent.
ghost use Rattle.std.specs.Prelude.{◌≡◌, Ok, map, IsFalse, All, IfOk, IfErr};
ghost use Rattle.std.specs.List.{list_any};
ghost use Rattle.acc_base.specs.Computing.{StopsBy};
ghost use Rattle.acc_prover_choices.specs.Parts.{tells, AnswersListing};
ghost use Rattle.acc_inst.specs.Making.{instance_of, is_instance_wide, IsOf};
ghost use Rattle.acc_inst.specs.Lists.{few, listed, lists_of};

use crate::instances::instances_of;
use crate::listing::{InstError, Listed};
use crate::making::{Instance, instances_at};
use crate::splits::splits_of;
use acc_base::bounds::MOST_SPLITS;
use acc_base::forms::{Form, Lin};
use acc_base::sequences::Seq;
use acc_base::sequents::Sequent;
use std::alloc::Global;

/// The lists, and the instances with what they say, in their order.
#[derive(Drop)]
pub struct Made {
    pub listed: Listed,
    pub made: Seq<Instance>,
}

fn few(splits: Seq<Form>, insts: Seq<(u32, Seq<Lin>)>) -> Result<Listed, InstError>
    ensures { AnswersListing result (few splits insts) }
{
    if splits.len() > MOST_SPLITS {
        return Err(InstError::Crowded);
    }
    Ok(Listed { splits, insts })
}

fn listed(
    alloc: Global,
    sequent: &Sequent,
    hints: &[Lin],
    insts: Seq<(u32, Seq<Lin>)>,
) -> Result<Made, InstError>
    ensures value { IfOk result (λ m. listed sequent.now hints.now insts ≡ Ok m.listed) }
    ensures stops { IfErr result (λ e. StopsBy (tells e) e (listed sequent.now hints.now insts)) }
    ensures made { IfOk result (λ m. m.made ≡ map (instance_of sequent.now) m.listed.insts) }
    ensures narrow { IfOk result (λ m. IsFalse (list_any (is_instance_wide sequent.now) m.listed.insts)) }
{
    let made = instances_at(alloc, sequent, insts.as_slice())?;
    let splits = splits_of(alloc, sequent, hints, made.as_slice())?;
    let listed = few(splits, insts)?;
    Ok(Made { listed, made })
}

/// The lists of a sequent with what its instances say, or the first reason why there are none.
pub fn made_lists(alloc: Global, sequent: &Sequent, hints: &[Lin]) -> Result<Made, InstError>
    ensures value { IfOk result (λ m. lists_of sequent.now hints.now ≡ Ok m.listed) }
    ensures stops { IfErr result (λ e. StopsBy (tells e) e (lists_of sequent.now hints.now)) }
    ensures made { IfOk result (λ m. m.made ≡ map (instance_of sequent.now) m.listed.insts) }
    ensures narrow { IfOk result (λ m. IsFalse (list_any (is_instance_wide sequent.now) m.listed.insts)) }
    ensures of { IfOk result (λ m. All (IsOf sequent.now) m.listed.insts) }
{
    let insts = instances_of(alloc, sequent, hints)?;
    listed(alloc, sequent, hints, insts)
}

/// The splits and the instances of a sequent, where the hints are linear values of its variables.
///
/// `Crowded` where there are over 4,096 instances; else `Wide` where a number of an instance's guards or relation is too large; else
/// `Crowded` where there are over 256 splits. `Memory` where memory ran out, or where there are 2^32 hypotheses or variables; it says
/// nothing of the sequent.
///
/// Each target, each list of values and each split is compared with those before it.
pub fn lists(alloc: Global, sequent: &Sequent, hints: &[Lin]) -> Result<Listed, InstError>
    ensures { AnswersListing result (lists_of sequent.now hints.now) }
{
    let made = made_lists(alloc, sequent, hints)?;
    Ok(made.listed)
}
