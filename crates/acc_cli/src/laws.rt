//! What the definitions of the answers say by themselves.
ghost use Rattle.acc_cli.specs.Headline.{SchedSurvives, RunSurvives};
ghost use Rattle.acc_cli.specs.Laws.{LinesMeanOne, AcceptedIsAnswered, ClosedIsAnswered};

use acc_disk::Disk;

/// On a shelf that tells what stands at each name, a command line means one status, one text and one history, where no read fails; but
/// which certificate `prove` makes is free, and so is the order of the turns of `run`. So each status but that of want of memory comes
/// exactly where its row says.
pub fn lines_mean_one()
    ensures { LinesMeanOne }
{}

/// Where no read fails, what is meant by `check` of a design and a certificate with which it is accepted is status 0 and `accepted`.
/// So it is answered, but where memory lacks or a write fails.
pub fn accepted_is_answered()
    ensures { AcceptedIsAnswered }
{}

/// Where no read fails, what is meant by `prove` of a well-formed design whose searches all close, with no number too large, is status 0
/// and a certificate with which it is accepted. So it is answered, but where memory lacks or a write fails.
pub fn closed_is_answered()
    ensures { ClosedIsAnswered }
{}

/// What `acc` leaves with `sched` survives a crash at any moment of the call and after it, whatever the status, also where memory ran out:
/// `recover` finds in it what was there before, or that with its compensation, or a front of the history that was told; and after the call
/// all that was told as durable, so each reply of that. What it makes of them is lawful and idle, and nothing is left unfinished.
pub fn crashes_are_recovered<D: Disk>()
    ensures { SchedSurvives D.clock D.left_since D.told D.may_leave }
{}

/// And so does what it leaves with `run`, however many workers there were and whatever they did: `recover` finds in it what was there
/// before, or that with its compensation, or a front of the history that was told; and after the call all that was told as durable.
pub fn crashes_of_workers_are_recovered<D: Disk>()
    ensures { RunSurvives D.clock D.left_since D.told D.may_leave }
{}
