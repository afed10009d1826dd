// The top call.
ghost use Rattle.std.specs.Prelude.{◌≡◌, ◌≢◌, ◌≤◌, ◌^◌, ◌⊎◌, List, ℕ, [], false, All, length, map, string_bytes, codes};
ghost use Rattle.std.specs.Prelude.{IfOk, IfErr, IfSome, Some};
ghost use Rattle.acc_io.specs.Causes.{Rose};
ghost use Rattle.std.specs.Io.KnownBytes.{Appends, Keeps};
ghost use Rattle.acc_io.specs.Sinks.{WritesFront};
ghost use Rattle.acc_disk.specs.Crashes.{Only, IsCalm};
ghost use Rattle.acc_disk.specs.Moments.{AtAnyMoment};
ghost use Rattle.acc_commands.specs.Files.{AllGiven, SaysRefused};
ghost use Rattle.acc_journalled.specs.declared.answers.Ending.TheVariants as ending;
ghost use Rattle.acc_cli.specs.declared.status.Status.TheVariants.{Ran, Usage, File, Sink, Memory};
ghost use Rattle.acc_base.specs.Lines.{line};
ghost use Rattle.acc_cli.specs.Meant.{Meant, RunsSo, LeavesOfLine};
ghost use Rattle.acc_cli.specs.Leavings.{LeavesLine};
ghost use Rattle.acc_cli.specs.Answered.{Ends, Answered};
ghost use Rattle.acc_cli.specs.Causes.{HasCauses};
ghost use Rattle.acc_cli.specs.Status.{IsCoded, IsBeforeJournal, code_of};
ghost use Rattle.acc_cli.specs.Promises.{KeepsPromise};
ghost use Rattle.acc_cli.specs.Runs.{RunsLine, WorksLine};
ghost use Rattle.acc_cli.specs.Creations.{IsCreated};
ghost use Rattle.acc_cli.specs.Provings.{IsProved};
ghost use Rattle.acc_cli.specs.Bookings.{SellsOnce};
ghost use Rattle.acc_cli.specs.Recoveries.{wanted_by, StopsGiven, TellsRecovery, LeavesRefused};
ghost use Rattle.acc_cli.specs.Migrations.{TellsMigration};
ghost use Rattle.acc_cli.specs.Sealings.{TellsSealed};
ghost use Rattle.acc_cli.specs.Verifications.{TellsVerification};
ghost use Rattle.acc_cli.specs.Audits.{TellsAudit};
ghost use Rattle.acc_cli.specs.Followings.{TellsFollowing};
ghost use Rattle.acc_cli.specs.Benches.{TellsBench};
ghost use Rattle.acc_commands.specs.RecoverFiles.{Saying};
ghost use Rattle.acc_commands.specs.Command.{Command as TheCommand};
ghost use Rattle.acc_commands.specs.Disks.{seen, IsUntouched};
ghost use Rattle.acc_commands.specs.Words.{command_of, is_journalled, is_over_journal};
ghost use Rattle.acc_commands.specs.Requests.{command_in, texts_in, points_in};
ghost use Rattle.acc_commands.specs.Means.{LeavesOf};
ghost use Rattle.acc_commands.specs.Overs.{IsRecovering};
ghost use Rattle.acc_commands.specs.Command.TheVariants.{Rehearse, Sched, Run, Init, Prove, Verify, Migrate, BookingVerify, Bench, Audit};
ghost use Rattle.acc_commands.specs.Command.TheVariants.{Follow};
ghost use Rattle.acc_commands.specs.Mix.{Mix};

use crate::status::Status;
use acc_base::machines::Event;
use acc_base::sequences::Seq;
use acc_commands::{
    Crew, Ended, Ending, Engine, IndexStore, Request, Searchers, command_of, files_in, points_in,
    read_all, run,
};
use acc_disk::Disk;
use acc_io::{Shelf, ShelfError, Sink, write_all};
use acc_lift::Accepted;
use acc_progress::Progress;
use std::alloc::{AllocError, Global};

/// How the program ended: its status, from 0 to 10, the disk that it was handed, the events of the machine whose lines it printed, oldest
/// first, and how many of the first of them the journal holds as durable. Where memory ran out no line was printed, and the events are
/// those that came before that.
#[derive(Drop)]
pub struct Done<D> {
    pub status: u8,
    pub disk: D,
    pub history: Seq<Event>,
    pub settled: u64,
}

// The same, with the status by name.
#[derive(Drop)]
struct Closed<D> {
    status: Status,
    disk: D,
    history: Seq<Event>,
    settled: u64,
}

// Prints an answer, and tells how the program ends by it.
fn print_answer<K: Sink>(out: &mut K, text: &[u8], status: Status) -> Status
    ensures given { (result ≡ status) ⊎ ((status ≡ Ran ending.Done) × (result ≡ Sink) × Rose (K.faults out.old) (K.faults out.new)) }
    ensures front { WritesFront (K.bytes out.old) (K.bytes out.new) text.now }
    ensures whole { Appends (K.bytes out.old) (K.bytes out.new) text.now ⊎ Rose (K.faults out.old) (K.faults out.new) }
    ensures done { result ≡ Ran ending.Done → Appends (K.bytes out.old) (K.bytes out.new) text.now
        × (K.faults out.new ≡ K.faults out.old) }
    ensures faults { K.faults out.old ≤ K.faults out.new }
{
    let written = write_all(out, text);
    if status == Status::Ran(Ending::Done) && written.is_err() {
        Status::Sink
    } else {
        status
    }
}

// Memory ran out: nothing is printed.
fn lacking<D>(disk: D, history: Seq<Event>, settled: u64) -> Closed<D>
    ensures { result ≡ record { status = Memory; disk = disk; history = history; settled = settled } }
{
    Closed {
        status: Status::Memory,
        disk,
        history,
        settled,
    }
}

// Ends without a machine. The text is printed, if memory lasted for it.
fn refuse<K: Sink, D: Disk>(
    alloc: Global,
    status: Status,
    text: Result<Vec<u8>, AllocError>,
    out: &mut K,
    disk: D,
) -> Closed<D>
    requires { status ≢ Ran ending.Done }
    ensures untouched { IsUntouched disk result.disk result.history result.settled }
    ensures status { (result.status ≡ status) ⊎ (result.status ≡ Memory) }
    ensures lacking { IfErr text (λ e. (result.status ≡ Memory) × Keeps (K.bytes out.old) (K.bytes out.new)) }
    ensures printed { IfOk text (λ t. Ends (record { status = status; text = t.items; history = []; settled = 0 })
        (K.bytes out.old) (K.bytes out.new) (Rose (K.faults out.old) (K.faults out.new)) result.status result.history result.settled) }
    ensures sink_faults { K.faults out.old ≤ K.faults out.new }
{
    let Ok(text) = text else {
        return lacking(disk, Seq::new(alloc), 0);
    };
    Closed {
        status: print_answer(out, &text, status),
        disk,
        history: Seq::new(alloc),
        settled: 0,
    }
}

// What is printed of words that are no form.
fn usage(alloc: Global) -> Result<Vec<u8>, AllocError>
    ensures { IfOk result (λ text. text.items ≡ line (codes "usage")) }
{
    b"usage\n".to_vec(alloc)
}

// What is printed of a file that isn't given.
fn refusal_text(alloc: Global, name: &str, error: ShelfError) -> Result<Vec<u8>, AllocError>
    ensures { IfOk result (λ text. SaysRefused name.now error text.items) }
{
    let text = match error {
        ShelfError::Failed => format!(in alloc; "fault read {name}\n")?,
        ShelfError::Absent => format!(in alloc; "absent {name}\n")?,
        ShelfError::Long(_) => format!(in alloc; "long {name}\n")?,
        ShelfError::Memory => return Err(AllocError),
    };
    Ok(text.into_bytes())
}

// Answers a command whose files are given.
fn answer_command<
    'a,
    K: Sink,
    D: Disk,
    C: Crew<Engine<'a, IndexStore, D>>,
    S: Searchers,
    P: Progress,
>(
    alloc: Global,
    request: Request,
    out: &mut K,
    disk: D,
    crew: &C,
    searchers: &S,
    slot: &'a mut Option<Accepted>,
    progress: &mut P,
) -> Closed<D>
    requires short { All (λ text. length text ≤ 2 ^ 26) (texts_in request) }
    requires ready { C.ready crew.now }
    requires searching { S.ready searchers.now }
    ensures answered { Answered (is_journalled (command_in request.entry))
        (RunsSo (command_in request.entry) (points_in request.entry) (texts_in request.entry) (seen (D.told disk) (D.faults disk))
        (seen (D.told result.disk) (D.faults result.disk)))
        (K.bytes out.old) (K.bytes out.new) (Rose (K.faults out.old) (K.faults out.new)) result.status result.history result.settled }
    ensures leaves { LeavesOf D.clock D.left_since D.told D.may_leave D.faults (command_in request.entry) (texts_in request.entry)
        disk result.disk result.history result.settled }
    ensures without { is_journalled (command_in request.entry) ≡ false → result.disk ≡ disk }
    ensures refused { IsBeforeJournal (code_of result.status) → result.disk ≡ disk }
    ensures calm { code_of result.status ≢ 5 → code_of result.status ≢ 9 → IsCalm (D.told disk) (D.may_leave disk)
        → IsCalm (D.told result.disk) (D.may_leave result.disk) }
    ensures clean { result.status ≡ Ran ending.Done → K.faults out.new ≡ K.faults out.old }
    ensures sink_faults { K.faults out.old ≤ K.faults out.new }
    ensures disk_faults { D.faults disk ≤ D.faults result.disk }
{
    let Ended {
        disk,
        history,
        settled,
        answer,
    } = run(alloc, request, disk, crew, searchers, slot, progress);
    let Ok(answer) = answer else {
        return lacking(disk, history, settled);
    };
    Closed {
        status: print_answer(out, &answer.text, Status::Ran(answer.ending)),
        disk,
        history,
        settled,
    }
}

// Answers a command line.
fn answer_line<
    'a,
    H: Shelf,
    K: Sink,
    D: Disk,
    C: Crew<Engine<'a, IndexStore, D>>,
    S: Searchers,
    P: Progress,
>(
    alloc: Global,
    words: &[String],
    shelf: &mut H,
    out: &mut K,
    disk: D,
    crew: &C,
    searchers: &S,
    slot: &'a mut Option<Accepted>,
    progress: &mut P,
) -> Closed<D>
    requires ready { C.ready crew.now }
    requires searching { S.ready searchers.now }
    ensures held { H.held shelf.new ≡ H.held shelf.old }
    ensures faults { (H.counts shelf.old).faults ≤ (H.counts shelf.new).faults }
    ensures absences { (H.counts shelf.old).absences ≤ (H.counts shelf.new).absences }
    ensures sink_faults { K.faults out.old ≤ K.faults out.new }
    ensures disk_faults { D.faults disk ≤ D.faults result.disk }
    ensures clean { result.status ≡ Ran ending.Done → AllGiven (H.counts shelf.old) (H.counts shelf.new)
        × (K.faults out.new ≡ K.faults out.old) }
    ensures answered { Answered (is_over_journal (command_of (map string_bytes words.now)))
        (Meant (H.held shelf.old) (H.counts shelf.old) (H.counts shelf.new) (seen (D.told disk) (D.faults disk))
        (seen (D.told result.disk) (D.faults result.disk)) (map string_bytes words.now))
        (K.bytes out.old) (K.bytes out.new) (Rose (K.faults out.old) (K.faults out.new)) result.status result.history result.settled }
    ensures leaves { LeavesLine D.clock D.left_since D.told D.may_leave D.faults (H.held shelf.old) (map string_bytes words.now)
        disk result.disk result.history result.settled }
    ensures without { is_over_journal (command_of (map string_bytes words.now)) ≡ false → result.disk ≡ disk }
    ensures refused { IsBeforeJournal (code_of result.status) → result.disk ≡ disk }
    ensures calm { code_of result.status ≢ 5 → code_of result.status ≢ 9 → IsCalm (D.told disk) (D.may_leave disk)
        → IsCalm (D.told result.disk) (D.may_leave result.disk) }
{
    let Some(command) = command_of(words) else {
        return refuse(alloc, Status::Usage, usage(alloc), out, disk);
    };
    match read_all(alloc, shelf, files_in(command, words)) {
        Ok(files) => {
            let request = Request::new(command, &files, points_in(command, words));
            answer_command(alloc, request, out, disk, crew, searchers, slot, progress)
        }
        Err(refusal) => {
            let text = refusal_text(alloc, refusal.name, refusal.error);
            refuse(alloc, Status::File, text, out, disk)
        }
    }
}

/// Answers a command line: reads the files that it names, answers the command over the disk, prints the text whole, and tells the status,
/// the history and how much of it is durable. Hands the disk back.
///
/// The text is made before its first byte is written. Want of memory (status 9) may come at any time, and then nothing was printed; what a
/// command over a journal had done before that is told all the same. How far a long command is, and what a recovery found, is told to
/// `progress` meanwhile, and changes nothing of the answer.
///
/// An accepted design is kept in the slot while a crew works, since its engine borrows it; nothing is read there.
///
/// `run` lets the crew work, and so waits for whom the crew waits; `prove` and `advise` let the searchers search, and wait for them; no
/// other command asks either for anything. With a crew and searchers that wait for nobody (`Alone`, `InTurn`) the call returns, whatever
/// the words.
pub fn acc<
    'a,
    H: Shelf,
    K: Sink,
    D: Disk,
    C: Crew<Engine<'a, IndexStore, D>>,
    S: Searchers,
    P: Progress,
>(
    alloc: Global,
    words: &[String],
    shelf: &mut H,
    out: &mut K,
    disk: D,
    crew: &C,
    searchers: &S,
    slot: &'a mut Option<Accepted>,
    progress: &mut P,
) -> Done<D>
    requires ready { C.ready crew.now }
    requires searching { S.ready searchers.now }
    ensures answered { IsCoded result.status (λ status. Answered (is_over_journal (command_of (map string_bytes words.now)))
        (Meant (H.held shelf.old) (H.counts shelf.old) (H.counts shelf.new) (seen (D.told disk) (D.faults disk))
        (seen (D.told result.disk) (D.faults result.disk)) (map string_bytes words.now))
        (K.bytes out.old) (K.bytes out.new) (Rose (K.faults out.old) (K.faults out.new)) status result.history result.settled) }
    ensures causes { IsCoded result.status (λ status. HasCauses (H.held shelf.old)
        (H.counts shelf.old) (H.counts shelf.new)
        (seen (D.told disk) (D.faults disk)) (seen (D.told result.disk) (D.faults result.disk))
        (map string_bytes words.now) (Rose (K.faults out.old) (K.faults out.new)) status) }
    // What `rehearse` ran is a lawful and annotated run of an accepted design, whatever the order of turns.
    ensures promise { command_of (map string_bytes words.now) ≡ Some Rehearse
        → KeepsPromise (H.held shelf.old) (map string_bytes words.now) Rehearse result.history }
    // What `sched` ran behind the recovered history is so too, and follows the order of turns; of its ends all but one at most are durable.
    // From a calm disk a crash at any moment of the call leaves its file, or a journal of what was found, of that with its compensation, or
    // of a front of the history with all of that; and after the call a front with all that is told as durable. This is so with each status,
    // also where memory ran out. Else nothing was asked of the disk, and nothing is told.
    ensures runs { command_of (map string_bytes words.now) ≡ Some Sched
        → RunsLine D.clock D.left_since D.told D.may_leave (H.held shelf.old) (map string_bytes words.now) disk result.disk
        result.history result.settled }
    // What `run` ran behind the recovered history is a lawful and annotated run too, whatever its workers did, with the same law of
    // crashes: behind where the workers left off it follows the one ending that is left. This is so with each status, also where memory
    // ran out.
    ensures works { (workers : ℕ) → command_of (map string_bytes words.now) ≡ Some (Run workers)
        → WorksLine D.clock D.left_since D.told D.may_leave (H.held shelf.old) (map string_bytes words.now) workers disk result.disk
        result.history result.settled }
    // Where `init` ended with status 0, the disk holds the journal of the printed design, without an event.
    ensures created { command_of (map string_bytes words.now) ≡ Some Init → result.status ≡ 0
        → IsCreated (H.held shelf.old) (map string_bytes words.now) (D.told disk) (D.told result.disk) (K.bytes out.old) (K.bytes out.new) }
    // Where `prove` ended with status 0, what it said is a certificate with which the design is accepted, and so it is sound.
    ensures proved { command_of (map string_bytes words.now) ≡ Some Prove → result.status ≡ 0
        → IsProved (H.held shelf.old) (map string_bytes words.now) (K.bytes out.old) (K.bytes out.new) }
    // Where `recover`, `dump`, `replies` or `booking verify` ended with status 0 or 7, the history is the recovered one, all of it durable,
    // and the disk holds a journal of just that; with 0 what is wanted of it was said. Else none is told, or, where memory ran out, that
    // one; or that, where the disk failed or memory ran out before the text of its rows was put behind it, and then a crash leaves a
    // journal of just that.
    ensures recovered { (c : TheCommand) (say : Saying) → command_of (map string_bytes words.now) ≡ Some c → wanted_by c ≡ Some say
        → TellsRecovery (H.held shelf.old) (map string_bytes words.now) c say (D.told disk) (D.told result.disk) (K.bytes out.old)
        (K.bytes out.new) result.status result.history result.settled
        (StopsGiven D.told D.may_leave D.faults (H.held shelf.old) (map string_bytes words.now) c disk result.disk result.history
        result.settled) }
    // Where `verify` ended with status 0, 7 or 10, the history is the recovered one, all of it durable, and the disk holds a journal of
    // just that; with 10 a condition is false of its rows, and else each is true. With 0 a line for each was said, with 10 these or a
    // front of them. Else none is told, or, where memory ran out, that one; or that, where the disk failed or memory ran out before the
    // text of its rows was put behind it.
    ensures verified { command_of (map string_bytes words.now) ≡ Some Verify
        → TellsVerification (H.held shelf.old) (map string_bytes words.now) (D.told disk) (D.told result.disk) (K.bytes out.old)
        (K.bytes out.new) result.status result.history result.settled
        (StopsGiven D.told D.may_leave D.faults (H.held shelf.old) (map string_bytes words.now) Verify disk result.disk result.history
        result.settled) }
    // Where a command that recovers a journal ended with status 0, 7, 8 or 10, and the history has events that the file didn't count, the
    // last state of the journal that the disk tells now stands behind all of them; unless it is of version 1, or the text of the rows is
    // longer than 2^22 bytes.
    ensures sealed { (c : TheCommand) → command_of (map string_bytes words.now) ≡ Some c → IsRecovering c
        → TellsSealed (H.held shelf.old) (map string_bytes words.now) c (D.told disk) (D.told result.disk) result.history
        result.status }
    // Where `migrate` ended with status 0 or 7, its third file is a journal of the design, and the history is what was recovered from it,
    // all of it durable. The disk held no journal, and holds one of just that, with the text of the rows behind it, where that has at most
    // 2^22 bytes; with 0 it was said how many events that has. Else none is told, or, where memory ran out, that one.
    ensures migrated { command_of (map string_bytes words.now) ≡ Some Migrate
        → TellsMigration (H.held shelf.old) (map string_bytes words.now) (D.told disk) (D.told result.disk) (K.bytes out.old)
        (K.bytes out.new) result.status result.history result.settled }
    // Where `booking verify` ended with status 0 or 7, the design is the shipped one, and nothing of the recovered rows is oversold.
    ensures booked { command_of (map string_bytes words.now) ≡ Some BookingVerify → (result.status ≡ 0) ⊎ (result.status ≡ 7)
        → SellsOnce (H.held shelf.old) (map string_bytes words.now) (D.told disk) (D.told result.disk) result.history result.settled }
    // Where `bench` ended with status 0, 7, 8 or 10, the history is that of its load and its mix in the generated order. The status tells
    // how they ended, and the lines what they came to: with 10 a condition is false of the rows at the end, and else each is true. Else
    // none is told.
    ensures benched { (mix : Mix) → command_of (map string_bytes words.now) ≡ Some (Bench mix)
        → TellsBench (H.held shelf.old) (map string_bytes words.now) mix (K.bytes out.old) (K.bytes out.new) result.status
        result.history }
    // Where `audit` ended with status 0, 7 or 10, the copy is a journal of the design, and this is told of its events: with 10 that a
    // clause is false behind one of them, and which values show it, or that it can't be told; and else that none is false at values of its
    // ranges. A sound design finds nothing false in lawful events. Else nothing is told.
    ensures audited { command_of (map string_bytes words.now) ≡ Some Audit
        → TellsAudit (H.held shelf.old) (map string_bytes words.now) (K.bytes out.old) (K.bytes out.new) result.status }
    // Where `follow` ended with status 0 or 7, all batches of the copy that came whole are done, and the state is that of their events,
    // which are annotated; with 0 how many there are, how many transactions are unfinished behind them, and the rows were said. This is
    // the same for each number of a piece's bytes. Else no rows are told.
    ensures followed { (size : ℕ) → command_of (map string_bytes words.now) ≡ Some (Follow size)
        → TellsFollowing (H.held shelf.old) (map string_bytes words.now) size (K.bytes out.old) (K.bytes out.new) result.status }
    // What `bench` ran is a lawful and annotated run of an accepted design, as that of `rehearse`.
    ensures bench_promise { (mix : Mix) → command_of (map string_bytes words.now) ≡ Some (Bench mix)
        → KeepsPromise (H.held shelf.old) (map string_bytes words.now) (Bench mix) result.history }
    // A journal that is refused tells the same bytes, or counts what it counted.
    ensures unchanged { result.status ≡ 4 → LeavesRefused (D.told disk) (D.told result.disk) }
    // Status 0 comes only where each read gave its file and no write failed.
    ensures clean { result.status ≡ 0 → AllGiven (H.counts shelf.old) (H.counts shelf.new)
        × (K.faults out.new ≡ K.faults out.old) }
    // A command without a journal asks the disk nothing, and neither does any whose words, files, design or script are refused.
    ensures without { is_over_journal (command_of (map string_bytes words.now)) ≡ false → result.disk ≡ disk }
    ensures refused { IsBeforeJournal result.status → result.disk ≡ disk }
    // Where the disk was calm, a crash at any moment of the call leaves its file, or what the command may leave of it, and the disk holds
    // such bytes when the call ends.
    ensures crash { (file : List ℕ) → D.told disk ≡ Some file → Only file (D.may_leave disk)
        → AtAnyMoment D.clock D.left_since disk result.disk (LeavesOfLine (H.held shelf.old) (map string_bytes words.now) file) }
    ensures left { (file : List ℕ) → D.told disk ≡ Some file → Only file (D.may_leave disk)
        → IfSome (D.told result.disk) (LeavesOfLine (H.held shelf.old) (map string_bytes words.now) file) }
    // A calm disk is calm again, but where one of its calls failed or memory ran out.
    ensures calm { result.status ≢ 5 → result.status ≢ 9 → IsCalm (D.told disk) (D.may_leave disk)
        → IsCalm (D.told result.disk) (D.may_leave result.disk) }
    // The files are as before, and no count falls.
    ensures held { H.held shelf.new ≡ H.held shelf.old }
    ensures faults { (H.counts shelf.old).faults ≤ (H.counts shelf.new).faults }
    ensures absences { (H.counts shelf.old).absences ≤ (H.counts shelf.new).absences }
    ensures sink_faults { K.faults out.old ≤ K.faults out.new }
    ensures disk_faults { D.faults disk ≤ D.faults result.disk }
{
    let closed = answer_line(
        alloc, words, shelf, out, disk, crew, searchers, slot, progress,
    );
    Done {
        status: closed.status.code(),
        disk: closed.disk,
        history: closed.history,
        settled: closed.settled,
    }
}
