//! What the definitions of schedules say by themselves.
ghost use Rattle.acc_schedule.specs.Laws.{SchedulesOnce, WholeSchedulesAre};

/// Calls in an order have one schedule: whatever way it is found, it has one text and one history.
pub fn schedules_are_one()
    ensures { SchedulesOnce }
{}

/// Calls that fit have a whole schedule in each order of their places, from each play on whose state is one of an accepted design.
pub fn whole_schedules_are()
    ensures { WholeSchedulesAre }
{}
