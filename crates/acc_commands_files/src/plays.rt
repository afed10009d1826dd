//! Playing a script on the plain machine.
ghost use Rattle.std.specs.Prelude.{◌≡◌, IfOk};
ghost use Rattle.acc_base.specs.Runnable.{IsRunnable};
ghost use Rattle.acc_journalled.specs.declared.answers.Ending.TheVariants.{Done};
ghost use Rattle.acc_commands_files.specs.Runs.{told_by};
ghost use Rattle.acc_player.specs.Playing.{AllFit};
ghost use Rattle.acc_commands_inputs.specs.Scripts.{SaysOfScript, SaysOfOrder};
ghost use Rattle.acc_commands_files.specs.PlayFiles.{PlaysFiles, SaysPlay};

use crate::memory_runs::{MemoryRun, unplayed};
use acc_base::designs::Design;
use acc_base::machines::Call;
use acc_commands_inputs::{
    PlayFiles, ReadDesign, ReadOrder, ReadScript, read_design, read_order, read_script,
};
use acc_journalled::{Answer, Ending};
use acc_play::{Transcript, play};
use std::alloc::{AllocError, Global};

/// The answer of a play, and its events.
fn played(transcript: Transcript) -> MemoryRun
    ensures { told_by result ≡ record { ending = Done; text = transcript.text.items; history = transcript.history } }
{
    let Transcript { text, history } = transcript;
    let ending = Ending::Done;
    MemoryRun {
        answer: Answer { ending, text },
        history,
    }
}

/// Plays the calls in the order that the file gives.
fn play_order(
    alloc: Global,
    d: &Design,
    asked: &[Call],
    file: &[u8],
) -> Result<MemoryRun, AllocError>
    requires runnable { IsRunnable d.now }
    requires fit { AllFit d.now asked.now }
    ensures { IfOk result (λ r. SaysOfOrder (SaysPlay d.now) asked.now file.now (told_by r)) }
{
    match read_order(alloc, asked, file)? {
        ReadOrder::Read(places) => Ok(played(play(alloc, d, asked, places.as_slice())?)),
        ReadOrder::Refused(answer) => Ok(unplayed(alloc, answer)),
    }
}

/// Plays the calls of a script.
fn play_script(
    alloc: Global,
    d: &Design,
    script: &[u8],
    file: &[u8],
) -> Result<MemoryRun, AllocError>
    requires runnable { IsRunnable d.now }
    ensures { IfOk result (λ r. SaysOfScript (SaysPlay d.now) d.now script.now file.now (told_by r)) }
{
    match read_script(alloc, d, script)? {
        ReadScript::Read(asked) => play_order(alloc, d, asked.as_slice(), file),
        ReadScript::Refused(answer) => Ok(unplayed(alloc, answer)),
    }
}

/// Plays a script's calls in the order that is given, on the plain machine of a design.
#[tactic(auto, using(acc_formed::proofs::Runs::well_formed_runs))]
pub fn play_files(alloc: Global, files: PlayFiles) -> Result<MemoryRun, AllocError>
    ensures { IfOk result (λ r. PlaysFiles files.entry.design.now files.entry.script.now files.entry.order.now (told_by r)) }
{
    match read_design(alloc, files.design)? {
        ReadDesign::Read(d) => play_script(alloc, &d, files.script, files.order),
        ReadDesign::Refused(answer) => Ok(unplayed(alloc, answer)),
    }
}
