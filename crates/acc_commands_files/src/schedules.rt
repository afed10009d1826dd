//! Playing a script by the rules of locks.
ghost use Rattle.std.specs.Prelude.{◌≡◌, IfOk};
ghost use Rattle.acc_commands_files.specs.Runs.{told_by};
ghost use Rattle.acc_player.specs.Playing.{AllFit};
ghost use Rattle.acc_commands_inputs.specs.Scripts.{SaysOfScript, SaysOfOrder};
ghost use Rattle.acc_commands_files.specs.ScheduleFiles.{SchedulesFiles, SaysOfCertificate, SaysSchedule, ending_at};

use crate::memory_runs::{MemoryRun, unplayed};
use acc_base::designs::Design;
use acc_base::machines::Call;
use acc_commands_inputs::{
    Admission, ReadDesign, ReadOrder, ReadScript, ScheduleFiles, admit, design_refused,
    read_design, read_order, read_script,
};
use acc_journalled::{Answer, Ending};
use acc_lift::Accepted;
use acc_schedule::{Scheduled, schedule};
use std::alloc::{AllocError, Global};

/// The answer of a schedule, and its events.
fn scheduled_answer(told: Scheduled) -> MemoryRun
    ensures { told_by result ≡ record { ending = ending_at told.all_begun; text = told.text.items; history = told.history } }
{
    let Scheduled {
        text,
        history,
        all_begun,
    } = told;
    let ending = if all_begun {
        Ending::Done
    } else {
        Ending::Unbegun
    };
    MemoryRun {
        answer: Answer { ending, text },
        history,
    }
}

/// Schedules the calls in the order that the file gives.
fn schedule_order(
    alloc: Global,
    accepted: &Accepted,
    asked: &[Call],
    file: &[u8],
) -> Result<MemoryRun, AllocError>
    requires fit { AllFit accepted.now asked.now }
    ensures { IfOk result (λ r. SaysOfOrder (SaysSchedule accepted.now) asked.now file.now (told_by r)) }
{
    match read_order(alloc, asked, file)? {
        ReadOrder::Read(places) => {
            let told = schedule(alloc, accepted, asked, places.as_slice())?;
            Ok(scheduled_answer(told))
        }
        ReadOrder::Refused(answer) => Ok(unplayed(alloc, answer)),
    }
}

/// Schedules the calls of a script.
fn schedule_script(
    alloc: Global,
    accepted: &Accepted,
    script: &[u8],
    file: &[u8],
) -> Result<MemoryRun, AllocError>
    ensures { IfOk result (λ r. SaysOfScript (SaysSchedule accepted.now) accepted.now script.now file.now (told_by r)) }
{
    match read_script(alloc, accepted.design(), script)? {
        ReadScript::Read(asked) => schedule_order(alloc, accepted, asked.as_slice(), file),
        ReadScript::Refused(answer) => Ok(unplayed(alloc, answer)),
    }
}

/// Schedules the calls of a script on a design, if it is accepted with its certificate.
fn schedule_design(
    alloc: Global,
    d: Design,
    certificate: &[u8],
    script: &[u8],
    file: &[u8],
) -> Result<MemoryRun, AllocError>
    ensures { IfOk result (λ r. SaysOfCertificate d certificate.now script.now file.now (told_by r)) }
{
    match admit(alloc, d, certificate)? {
        Admission::Accepted(accepted) => schedule_script(alloc, &accepted, script, file),
        Admission::Refused(text) => Ok(unplayed(alloc, design_refused(text))),
    }
}

/// Plays a script's calls in the order that is given and then to their end, by the rules of locks, on a design that is accepted with
/// its certificate.
pub fn schedule_files(alloc: Global, files: ScheduleFiles) -> Result<MemoryRun, AllocError>
    ensures { IfOk result (λ r. SchedulesFiles files.entry.design.now files.entry.certificate.now
        files.entry.script.now files.entry.order.now
        (told_by r)) }
{
    match read_design(alloc, files.design)? {
        ReadDesign::Read(d) => {
            schedule_design(alloc, d, files.certificate, files.script, files.order)
        }
        ReadDesign::Refused(answer) => Ok(unplayed(alloc, answer)),
    }
}
