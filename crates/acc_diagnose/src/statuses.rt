//! The numbers that a command line ends with.

/// The command was answered.
pub const DONE: u8 = 0;

/// The words are no command.
pub const USAGE: u8 = 1;

/// The design or its certificate is refused.
pub const DESIGN: u8 = 2;

/// The script or the order is refused.
pub const SCRIPT: u8 = 3;

/// The journal is refused.
pub const JOURNAL: u8 = 4;

/// The disk failed.
pub const DISK: u8 = 5;

/// A file isn't given.
pub const FILE: u8 = 6;

/// Standard output can't be written to.
pub const SINK: u8 = 7;

/// A place of the script couldn't begin.
pub const UNBEGUN: u8 = 8;

/// Memory ran out.
pub const MEMORY: u8 = 9;

/// An obligation of the design stays open, or a condition is false of the rows of a journal or of a benchmark, or an audit finds a clause.
pub const OPEN: u8 = 10;
