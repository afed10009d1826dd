//! Laws of the definitions.
ghost use Rattle.acc_running.specs.Laws.{RunningSaysOne, CrashRecovers, EndRecovers};

/// Of a disk that tells its bytes, a run over its journal says one thing, where no call of the disk fails: the design, the calls, the order
/// and the bytes decide the text, the events and how many of them are durable.
pub fn running_says_one()
    ensures { RunningSaysOne }
{}

/// What a crash at any moment of a run leaves is recovered: no refusal but a fault of the disk and want of memory has a cause. The events
/// that recovery finds are those that were found before, or these with their compensation, or a front of the run's events with all of that.
pub fn a_crash_recovers()
    ensures { CrashRecovers }
{}

/// And so is what a crash after the run leaves: recovery finds a front of the run's events with all that were told as durable.
pub fn an_end_recovers()
    ensures { EndRecovers }
{}
