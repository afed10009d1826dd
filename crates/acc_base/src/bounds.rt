//! The bounds of numbers, rows, designs and runs, each by its name.

/// Numbers that steps use lie within so much of 0: 2^45.
pub const LARGEST_NUMBER: u64 = 1 << 45;
/// Numbers that forms and sums are computed with lie within so much of 0: 2^120.
pub const LARGEST_SUM: u128 = 1 << 120;

/// Components of a key.
pub const MOST_KEY_PARTS: usize = 6;
/// Columns of a table.
pub const MOST_COLUMNS: usize = 12;

/// Bytes of a name.
pub const LONGEST_NAME: usize = 32;
/// Tables of a design.
pub const MOST_TABLES: usize = 64;
/// Clauses of a design that hold always.
pub const MOST_ALWAYS: usize = 128;
/// Types of a design.
pub const MOST_TYPES: usize = 64;
/// Entries of a design.
pub const MOST_ENTRIES: usize = 1024;
/// Hints of a design.
pub const MOST_HINTS: usize = 1024;

/// Points of a type.
pub const MOST_POINTS: usize = 32;
/// Locals of a type, its parameters among them.
pub const MOST_LOCALS: usize = 48;
/// Clauses that hold at a point, that a type ensures, and that it repairs: of each so many.
pub const MOST_CLAUSES: usize = 64;
/// Variables of a clause.
pub const MOST_VARIABLES: usize = 8;
/// Relations that guard a path or a clause.
pub const MOST_GUARDS: usize = 16;
/// Reads of a step.
pub const MOST_READS: usize = 32;
/// Paths of a step.
pub const MOST_PATHS: usize = 16;
/// Actions of a path.
pub const MOST_ACTIONS: usize = 16;
/// Steps forward of a transaction, as its type allows them.
pub const LARGEST_LIMIT: u32 = 65_536;
/// The variant of a point: how far compensation has still to go.
pub const LARGEST_VARIANT: u32 = 65_536;
/// The number of a refusal.
pub const LARGEST_REFUSAL: u32 = 255;
/// The number of a limit or of a refusal in a design's text is below this: 2^32.
pub const PAST_SMALL_NUMBERS: u64 = 1 << 32;

/// Numbers on the tape of a call.
pub const LONGEST_TAPE: usize = 4096;
/// Steps forward after which a call may ask to turn.
pub const LATEST_ASK: u32 = 65_536;
/// Calls of a script: 2^20.
pub const MOST_CALLS: usize = 1 << 20;
/// Numbers of an order: 2^20.
pub const MOST_TURNS: usize = 1 << 20;
/// Events of a run: 2^20.
pub const MOST_EVENTS: usize = 1 << 20;
/// Transactions that are unfinished at once.
pub const MOST_UNFINISHED: usize = 64;

/// Instances of hypotheses that a search tries for an obligation.
pub const MOST_INSTANCES: usize = 4096;
/// Splits that a search tries for an obligation.
pub const MOST_SPLITS: usize = 256;
