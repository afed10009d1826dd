//! What the definitions of the commands say by themselves.
ghost use Rattle.acc_commands.specs.Laws.{CommandsMeanOne, ProvedIsAccepted, AcceptedIsTold, ClosedIsTold, ShippedStaysTrue};
ghost use Rattle.acc_commands.specs.Laws.{ShippedBenchesTrue};

/// Whatever its files hold, a command means one ending, one text and one history; but which certificate `prove` makes is free, and so is
/// the order of the turns of `run`.
pub fn commands_mean_one()
    ensures { CommandsMeanOne }
{}

/// What `prove` prints where it is done, `check` accepts.
pub fn proved_is_accepted()
    ensures { ProvedIsAccepted }
{}

/// What is accepted with a certificate, `check` accepts.
pub fn accepted_is_told()
    ensures { AcceptedIsTold }
{}

/// Where each search closes, `prove` is done.
pub fn closed_is_told()
    ensures { ClosedIsTold }
{}

/// Of the shipped design `verify` never finds a condition false.
pub fn shipped_stays_true()
    ensures { ShippedStaysTrue }
{}

/// Nor does `bench`, however large its load and its mix are.
pub fn shipped_benches_true()
    ensures { ShippedBenchesTrue }
{}
