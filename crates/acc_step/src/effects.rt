//! The effect of a step.
ghost use Rattle.std.specs.Prelude.{◌≡◌, ◌^◌, length, All, IfOk, IfSome, IsErrOf, Some, option_copied};
ghost use Rattle.acc_base.specs.Numbers.{IsSmall};
ghost use Rattle.acc_base.specs.Tables.{IsInOrder};
ghost use Rattle.acc_base.specs.Effects.{OutOfRange, step_of, step_effect, effect_of};
ghost use Rattle.acc_base.specs.Runnable.{IsRunnable, CanStep, IsSmallFrame};
ghost use Rattle.acc_store.specs.Bounds.{AreWithin};
ghost use Rattle.acc_store.specs.Rows.{IsNarrow};
ghost use Rattle.acc_step.specs.Seen.{seen};

use crate::actions::act_all;
use crate::errors::StepError;
use crate::paths::path_taken;
use crate::reads::take_reads;
use crate::variables::Variables;
use acc_base::bounds::LARGEST_SUM;
use acc_base::designs::{At, Design, Side};
use acc_base::machines::Frame;
use acc_base::sequences::Seq;
use acc_base::steps::{Step, Target};
use acc_store::{Store, Write};
use std::alloc::Global;

/// What a step does.
#[derive(Drop)]
pub struct StepEffect {
    /// The locals after the reads.
    pub locals: Seq<i64>,
    /// The place on the tape after the reads.
    pub pos: u32,
    /// The number of the path that was taken, counted from 0.
    pub path: u32,
    /// What changes the rows, oldest first.
    pub writes: Seq<Write>,
    /// Where the path leads.
    pub target: Target,
}

/// The step of a point of a type, if there is one.
pub fn step_for(d: &Design, at: At, side: Side) -> Option<&Step>
    requires runnable { IsRunnable d.now }
    ensures value { option_copied result ≡ step_of d.now at.ty at.point side }
    ensures can { IfSome (option_copied result) (CanStep side) }
{
    d.step(at, side)
}

/// What a step of a frame does.
fn step_effect_on<S: Store>(
    alloc: Global,
    f: &Frame,
    side: Side,
    step: &Step,
    s: &S,
) -> Result<StepEffect, StepError>
    requires can { CanStep side step.now }
    requires fits { IsSmallFrame f.now }
    requires order { IsInOrder (S.rows s.now) }
    requires within { AreWithin LARGEST_SUM (S.rows s.now) }
    ensures value { IfOk result (λ e. seen (S.rows s.now) e ≡ step_effect (S.rows s.now) f.now side (Some step.now)) }
    ensures range { IsErrOf result StepError.Range → step_effect (S.rows s.now) f.now side (Some step.now) ≡ OutOfRange }
    ensures narrow { IfOk result (λ e. All IsNarrow e.writes) }
    ensures small { IfOk result (λ e. All IsSmall e.locals) }
    ensures kept { IfOk result (λ e. length e.locals ≡ length f.now.locals) }
{
    let mut variables = Variables::of(f);
    let Some(pos) = take_reads(s, f, step.reads.as_slice(), &mut variables) else {
        return Err(StepError::Range);
    };
    let paths = step.paths.as_slice();
    let Some(place) = path_taken(paths, &variables) else {
        return Err(StepError::Range);
    };
    let path = &paths[place];
    let writes = act_all(alloc, s, side, path.actions.as_slice(), &variables)?;
    Ok(StepEffect {
        locals: Seq::from_vec(Vec::from_slice(alloc, variables.locals.as_slice())?),
        pos,
        path: place as u32,
        writes: Seq::from_vec(writes),
        target: path.target,
    })
}

/// What the step of a frame on a side does with the rows of a store, which stay as they are.
///
/// It takes one look-up of the store a read or action. An action that changes a column walks the writes before it,
/// of which there are at most 15. The reads and guards take no memory.
pub fn effect<S: Store>(
    alloc: Global,
    d: &Design,
    f: &Frame,
    side: Side,
    s: &S,
) -> Result<StepEffect, StepError>
    requires runnable { IsRunnable d.now }
    requires fits { IsSmallFrame f.now }
    requires order { IsInOrder (S.rows s.now) }
    requires within { AreWithin LARGEST_SUM (S.rows s.now) }
    ensures value { IfOk result (λ e. seen (S.rows s.now) e ≡ effect_of d.now (S.rows s.now) f.now side) }
    ensures range { IsErrOf result StepError.Range → effect_of d.now (S.rows s.now) f.now side ≡ OutOfRange }

    // The writes may be applied, and the locals are those of a frame.
    ensures narrow { IfOk result (λ e. All IsNarrow e.writes) }
    ensures small { IfOk result (λ e. All IsSmall e.locals) }
    ensures kept { IfOk result (λ e. length e.locals ≡ length f.now.locals) }
{
    match step_for(d, f.at(), side) {
        Some(step) => step_effect_on(alloc, f, side, step, s),
        None => Err(StepError::Range),
    }
}
