//! The numbers of the tables of the shipped booking design, and of their columns.

/// The number of the table of flights.
pub const FLIGHT: u32 = 0;
/// The number of the table of rooms.
pub const ROOM: u32 = 1;
/// The number of the table of what is booked of flights.
pub const BOOKED: u32 = 2;
/// The number of the table of what is booked of rooms.
pub const STAY: u32 = 3;

/// The column of a flight or of rooms that tells how many there are.
pub const WHOLE: usize = 0;
/// The column of a flight or of rooms that tells how many are free.
pub const FREE: usize = 1;
/// The column of what is booked that tells how many are.
pub const TAKEN: usize = 0;
