//! What each command makes of its files.
ghost use Rattle.std.specs.Prelude.{◌≡◌, ◌≤◌, ◌^◌, [], false, All, length, IfOk, IfErr};
ghost use Rattle.acc_commands_journals.specs.Words.{is_journalled};
ghost use Rattle.acc_commands_journals.specs.Requests.{command_in, texts_in, points_in};
ghost use Rattle.acc_commands.specs.Means.{Means, LeavesOf, TellsInMemory};
ghost use Rattle.acc_commands_journals.specs.Disks.{Ends};
ghost use Rattle.acc_commands_journals.specs.Notes.{help_text, version_text};
ghost use Rattle.acc_commands_journals.specs.Text.{Says};
ghost use Rattle.acc_journalled.specs.declared.answers.Ending.TheVariants.{Done};
ghost use Rattle.acc_commands_journals.specs.Answers.{said_alone};

use acc_commands_files::Searchers;
use acc_commands_files::advices::advise_file;
use acc_commands_files::audits::audit_files;
use acc_commands_files::benches::bench_files;
use acc_commands_files::designs::{check_files, draw_file, print_file};
use acc_commands_files::follows::follow_files;
use acc_commands_files::memory_runs::MemoryRun;
use acc_commands_files::plays::play_files;
use acc_commands_files::provings::prove_file;
use acc_commands_files::schedules::schedule_files;
use acc_commands_files::workloads::{print_booking, print_load, print_mix, print_shipped};
use acc_commands_journals::bookings::book_files;
use acc_commands_journals::journals::init_file;
use acc_commands_journals::migrations::migrate_files;
use acc_commands_journals::recoveries::recover_files;
use acc_commands_journals::runs::{run_files, work_files};
use acc_commands_journals::verifications::verify_files;
use acc_commands_journals::{Crew, Engine, Request, help_text, version_text};
use acc_disk::Disk;
use acc_journalled::{Answer, Ended, Ending, IndexStore, Wanted, unrun};
use acc_lift::Accepted;
use acc_progress::Progress;
use std::alloc::{AllocError, Global};

/// What the program can do.
fn help(alloc: Global) -> Result<Answer, AllocError>
    ensures { IfOk result (λ a. Says Done help_text (said_alone a)) }
{
    Ok(Answer {
        ending: Ending::Done,
        text: help_text(alloc)?,
    })
}

/// The program's version.
fn version(alloc: Global) -> Result<Answer, AllocError>
    ensures { IfOk result (λ a. Says Done version_text (said_alone a)) }
{
    Ok(Answer {
        ending: Ending::Done,
        text: version_text(alloc)?,
    })
}

/// How a run in memory ends: the disk is handed back as it is, and no event is durable.
fn ran<D>(alloc: Global, disk: D, run: Result<MemoryRun, AllocError>) -> Ended<D>
    ensures disk { result.disk ≡ disk }
    ensures settled { result.settled ≡ 0 }
    ensures tells { TellsInMemory run result.answer result.history }
{
    match run {
        Ok(MemoryRun { answer, history }) => Ended {
            disk,
            history,
            settled: 0,
            answer: Ok(answer),
        },
        Err(error) => unrun(alloc, disk, Err(error)),
    }
}

/// How a command ends over its files and the disk. How far a long one is, and what a recovery found, is told while it goes on. `run` lets
/// the crew work, and waits for whom the crew waits; `prove` and `advise` let the searchers search, and wait for them; no other command
/// asks the crew or the searchers for anything, or waits for anybody.
#[tactic(auto, unfolding(crate::specs::Means::MeansOfFiles, crate::specs::Means::MeansOverDisk, crate::specs::Means::LeavesOf))]
pub fn run<'a, D: Disk, C: Crew<Engine<'a, IndexStore, D>>, S: Searchers, P: Progress>(
    alloc: Global,
    request: Request,
    disk: D,
    crew: &C,
    searchers: &S,
    slot: &'a mut Option<Accepted>,
    progress: &mut P,
) -> Ended<D>
    requires short { All (λ text. length text ≤ 2 ^ 26) (texts_in request) }
    requires ready { C.ready crew.now }
    requires searching { S.ready searchers.now }
    ensures ends { Ends D.told D.may_leave D.faults (Means (command_in request.entry) (points_in request.entry) (texts_in request.entry))
        (LeavesOf D.clock D.left_since D.told D.may_leave D.faults (command_in request.entry) (texts_in request.entry))
        disk result.disk result.answer result.history result.settled }
    ensures without { is_journalled (command_in request.entry) ≡ false → result.disk ≡ disk }
    ensures lacking { is_journalled (command_in request.entry) ≡ false
        → IfErr result.answer (λ e. (result.history ≡ []) × (result.settled ≡ 0)) }
{
    match request {
        Request::Play(files) => ran(alloc, disk, play_files(alloc, files)),
        Request::Rehearse(files) => ran(alloc, disk, schedule_files(alloc, files)),
        Request::Print(design) => unrun(alloc, disk, print_file(alloc, design)),
        Request::Draw(design) => unrun(alloc, disk, draw_file(alloc, design)),
        Request::Check(files) => unrun(alloc, disk, check_files(alloc, files)),
        Request::Prove(design) => unrun(
            alloc,
            disk,
            prove_file(alloc, design, searchers, progress),
        ),
        Request::Advise(files, side) => {
            unrun(alloc, disk, advise_file(alloc, files, side, searchers))
        }
        Request::Audit(files) => unrun(alloc, disk, audit_files(alloc, files, progress)),
        Request::Follow(files, size) => unrun(alloc, disk, follow_files(alloc, files, size)),
        Request::Init(design) => init_file(alloc, design, disk),
        Request::Sched(files) => run_files(alloc, files, disk, progress),
        Request::Run(files, workers) => {
            work_files(alloc, files, workers, disk, crew, slot, progress)
        },
        Request::Recover(files) => recover_files(alloc, files, Wanted::Counts, disk, progress),
        Request::Dump(files) => recover_files(alloc, files, Wanted::Rows, disk, progress),
        Request::Replies(files) => recover_files(alloc, files, Wanted::Replies, disk, progress),
        Request::Verify(files) => verify_files(alloc, files, disk, progress),
        Request::Migrate(files) => migrate_files(alloc, files, disk, progress),
        Request::TpccDesign => unrun(alloc, disk, print_shipped(alloc)),
        Request::BookingDesign => unrun(alloc, disk, print_booking(alloc)),
        Request::BookingVerify(files) => book_files(alloc, files, disk, progress),
        Request::TpccLoad(scale) => unrun(alloc, disk, print_load(alloc, scale)),
        Request::TpccMix(mix) => unrun(alloc, disk, print_mix(alloc, mix)),
        Request::Bench(files, mix) => {
            ran(alloc, disk, bench_files(alloc, files, mix, progress))
        },
        Request::Help => unrun(alloc, disk, help(alloc)),
        Request::Version => unrun(alloc, disk, version(alloc)),
    }
}
