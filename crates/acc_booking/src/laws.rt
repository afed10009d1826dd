//! What the shipped booking design keeps.
ghost use Rattle.acc_booking.specs.Law.{ShippedNeverOversells, IsTold};

/// Where the assertions of the shipped design are true of rows, and no transaction is unfinished, nothing is booked beyond its seats or
/// rooms.
pub fn idle_never_oversells()
    ensures { ShippedNeverOversells }
{}

/// Of a flight alone, of whose 3 seats -1 are free, `check` tells 1 and its key; and of no rows it tells nothing.
pub fn oversold_flight_is_told()
    ensures { IsTold }
{}
