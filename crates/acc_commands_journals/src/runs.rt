//! Running a script over a journal.
ghost use Rattle.std.specs.Prelude.{◌≤◌, ◌<◌, ◌^◌, length};
ghost use Rattle.acc_running.specs.Keeping.{CallsFit};
ghost use Rattle.acc_script.specs.BeginSizes.{begins_size};
ghost use Rattle.acc_running.specs.Crashes.{WorksOver};
ghost use Rattle.acc_commands_journals.specs.Disks.{Ends, OrUntouched};
ghost use Rattle.acc_commands_journals.specs.RunFiles.{RunsOfOrder, WorksSeen, SaysBy, RunsOfScript, RunsCertified, RunsTexts};
ghost use Rattle.acc_commands_journals.specs.RunFiles.{RunsFiles, WorksFiles};
ghost use Rattle.acc_commands_journals.specs.RunFiles.{OrderRuns, RunsBy, ScriptRuns, AcceptedRuns, RunLeft};

use acc_base::designs::Design;
use acc_base::machines::Call;
use acc_base::sequences::Seq;
use acc_commands_inputs::{
    Admission, CertifiedFiles, ReadDesign, ReadOrder, ReadScript, ScheduleFiles, WorkerFiles,
    admit, design_refused, read_design, read_order, read_script,
};
use acc_disk::Disk;
use acc_journalled::{Ended, IndexStore, unrun};
use acc_lift::Accepted;
use acc_progress::Progress;
use acc_running::{Alone, Crew, Engine, schedule_journal, work_journal};
use std::alloc::Global;

/// Who has the next turn.
#[derive(Clone, Copy)]
pub enum Turns<'a> {
    /// The place that the next line of this file's order names.
    Ordered(&'a [u8]),
    /// Whichever of so many workers takes it.
    Workers(u64),
}

/// Runs the calls in the order that the file gives.
fn run_order<D: Disk, P: Progress>(
    alloc: Global,
    accepted: &Accepted,
    asked: Seq<Call>,
    file: &[u8],
    disk: D,
    progress: &mut P,
) -> Ended<D>
    requires fits { CallsFit accepted.now asked }
    requires few { begins_size asked < 2 ^ 31 }
    ensures { Ends D.told D.may_leave D.faults (RunsOfOrder file.now accepted.now asked)
        (OrUntouched (OrderRuns D.clock D.left_since D.told D.may_leave file.now accepted.now asked))
        disk result.disk result.answer result.history result.settled }
{
    let calls = asked.as_slice();
    match read_order(alloc, calls, file) {
        Ok(ReadOrder::Read(places)) => {
            let order = places.as_slice();
            schedule_journal(alloc, accepted, asked, order, disk, progress)
        }
        Ok(ReadOrder::Refused(answer)) => unrun(alloc, disk, Ok(answer)),
        Err(error) => unrun(alloc, disk, Err(error)),
    }
}

/// Lets so many workers run the calls.
fn run_workers<'a, D: Disk, C: Crew<Engine<'a, IndexStore, D>>, P: Progress>(
    alloc: Global,
    accepted: &'a Accepted,
    asked: Seq<Call>,
    workers: u64,
    disk: D,
    crew: &C,
    progress: &mut P,
) -> Ended<D>
    requires fits { CallsFit accepted.now asked }
    requires few { begins_size asked < 2 ^ 31 }
    requires ready { C.ready crew.now }
    ensures { Ends D.told D.may_leave D.faults (WorksSeen accepted.now asked)
        (OrUntouched (WorksOver D.clock D.left_since D.told D.may_leave accepted.now asked))
        disk result.disk result.answer result.history result.settled }
{
    work_journal(alloc, accepted, asked, workers, disk, crew, progress)
}

/// Runs the calls as the turns are taken.
fn run_calls<'a, D: Disk, C: Crew<Engine<'a, IndexStore, D>>, P: Progress>(
    alloc: Global,
    accepted: &'a Accepted,
    asked: Seq<Call>,
    turns: Turns,
    disk: D,
    crew: &C,
    progress: &mut P,
) -> Ended<D>
    requires fits { CallsFit accepted.now asked }
    requires few { begins_size asked < 2 ^ 31 }
    requires ready { C.ready crew.now }
    ensures { Ends D.told D.may_leave D.faults (SaysBy turns.entry accepted.now asked)
        (OrUntouched (RunsBy D.clock D.left_since D.told D.may_leave turns.entry accepted.now asked))
        disk result.disk result.answer result.history result.settled }
{
    match turns {
        Turns::Ordered(file) => run_order(alloc, accepted, asked, file, disk, progress),
        Turns::Workers(workers) => {
            run_workers(alloc, accepted, asked, workers, disk, crew, progress)
        }
    }
}

/// Runs the calls of a script.
fn run_script<'a, D: Disk, C: Crew<Engine<'a, IndexStore, D>>, P: Progress>(
    alloc: Global,
    accepted: &'a Accepted,
    script: &[u8],
    turns: Turns,
    disk: D,
    crew: &C,
    progress: &mut P,
) -> Ended<D>
    requires short { length script.now ≤ 2 ^ 26 }
    requires ready { C.ready crew.now }
    ensures { Ends D.told D.may_leave D.faults (RunsOfScript (SaysBy turns.entry) accepted.now script.now)
        (OrUntouched (ScriptRuns (RunsBy D.clock D.left_since D.told D.may_leave turns.entry) accepted.now script.now))
        disk result.disk result.answer result.history result.settled }
{
    match read_script(alloc, accepted.design(), script) {
        Ok(ReadScript::Read(asked)) => {
            run_calls(alloc, accepted, asked, turns, disk, crew, progress)
        }
        Ok(ReadScript::Refused(answer)) => unrun(alloc, disk, Ok(answer)),
        Err(error) => unrun(alloc, disk, Err(error)),
    }
}

/// Runs the calls of a script over the journal of a design, if it is accepted with its certificate.
fn run_design<'a, D: Disk, C: Crew<Engine<'a, IndexStore, D>>, P: Progress>(
    alloc: Global,
    d: Design,
    certificate: &[u8],
    script: &[u8],
    turns: Turns,
    disk: D,
    crew: &C,
    slot: &'a mut Option<Accepted>,
    progress: &mut P,
) -> Ended<D>
    requires short { length script.now ≤ 2 ^ 26 }
    requires ready { C.ready crew.now }
    ensures { Ends D.told D.may_leave D.faults (RunsCertified (SaysBy turns.entry) d certificate.now script.now)
        (OrUntouched (AcceptedRuns (RunsBy D.clock D.left_since D.told D.may_leave turns.entry) d certificate.now script.now))
        disk result.disk result.answer result.history result.settled }
{
    match admit(alloc, d, certificate) {
        Ok(Admission::Accepted(accepted)) => {
            let accepted = slot.insert(accepted);
            run_script(alloc, accepted, script, turns, disk, crew, progress)
        }
        Ok(Admission::Refused(text)) => unrun(alloc, disk, Ok(design_refused(text))),
        Err(error) => unrun(alloc, disk, Err(error)),
    }
}

/// Runs the calls of a script over the journal of the design of a text, if it is accepted with its certificate.
fn run_texts<'a, D: Disk, C: Crew<Engine<'a, IndexStore, D>>, P: Progress>(
    alloc: Global,
    files: CertifiedFiles,
    script: &[u8],
    turns: Turns,
    disk: D,
    crew: &C,
    slot: &'a mut Option<Accepted>,
    progress: &mut P,
) -> Ended<D>
    requires short { length script.now ≤ 2 ^ 26 }
    requires ready { C.ready crew.now }
    ensures { Ends D.told D.may_leave D.faults
        (RunsTexts (SaysBy turns.entry) files.entry.design.now files.entry.certificate.now script.now)
        (RunLeft (RunsBy D.clock D.left_since D.told D.may_leave turns.entry)
        files.entry.design.now files.entry.certificate.now script.now)
        disk result.disk result.answer result.history result.settled }
{
    match read_design(alloc, files.design) {
        Ok(ReadDesign::Read(d)) => run_design(
            alloc,
            d,
            files.certificate,
            script,
            turns,
            disk,
            crew,
            slot,
            progress,
        ),
        Ok(ReadDesign::Refused(answer)) => unrun(alloc, disk, Ok(answer)),
        Err(error) => unrun(alloc, disk, Err(error)),
    }
}

/// Runs the calls of a script in the order of a file, over the journal of the design of a text, if it is accepted with its certificate.
pub fn run_files<D: Disk, P: Progress>(
    alloc: Global,
    files: ScheduleFiles,
    disk: D,
    progress: &mut P,
) -> Ended<D>
    requires short { length files.script.now ≤ 2 ^ 26 }
    ensures { Ends D.told D.may_leave D.faults
        (RunsFiles files.entry.design.now files.entry.certificate.now files.entry.script.now files.entry.order.now)
        (RunLeft (OrderRuns D.clock D.left_since D.told D.may_leave files.entry.order.now)
        files.entry.design.now files.entry.certificate.now files.entry.script.now)
        disk result.disk result.answer result.history result.settled }
{
    let certified = CertifiedFiles {
        design: files.design,
        certificate: files.certificate,
    };
    let turns = Turns::Ordered(files.order);
    let mut slot = None;
    run_texts(
        alloc,
        certified,
        files.script,
        turns,
        disk,
        &Alone,
        &mut slot,
        progress,
    )
}

/// Lets so many workers of the crew run the calls of a script, over the journal of the design of a text, if it is accepted with its
/// certificate. The accepted design is kept in the slot, where the crew's engine borrows it. It waits for whom the crew waits, and for
/// nobody else.
pub fn work_files<'a, D: Disk, C: Crew<Engine<'a, IndexStore, D>>, P: Progress>(
    alloc: Global,
    files: WorkerFiles,
    workers: u64,
    disk: D,
    crew: &C,
    slot: &'a mut Option<Accepted>,
    progress: &mut P,
) -> Ended<D>
    requires short { length files.script.now ≤ 2 ^ 26 }
    requires ready { C.ready crew.now }
    ensures { Ends D.told D.may_leave D.faults
        (WorksFiles files.entry.design.now files.entry.certificate.now files.entry.script.now)
        (RunLeft (WorksOver D.clock D.left_since D.told D.may_leave)
        files.entry.design.now files.entry.certificate.now files.entry.script.now)
        disk result.disk result.answer result.history result.settled }
{
    let certified = CertifiedFiles {
        design: files.design,
        certificate: files.certificate,
    };
    let turns = Turns::Workers(workers);
    run_texts(
        alloc,
        certified,
        files.script,
        turns,
        disk,
        crew,
        slot,
        progress,
    )
}
