//! The words and the marks of the design language, as bytes: they stand nowhere else.

pub const TABLE: &[u8] = b"table";

pub const PRIVATE: &[u8] = b"private";

pub const ALWAYS: &[u8] = b"always";

pub const TYPE: &[u8] = b"type";

pub const LIMIT: &[u8] = b"limit";

pub const RETURNS: &[u8] = b"returns";

pub const LOCAL: &[u8] = b"local";

pub const ENSURES: &[u8] = b"ensures";

pub const REPAIRS: &[u8] = b"repairs";

pub const POINT: &[u8] = b"point";

pub const VARIANT: &[u8] = b"variant";

pub const HOLDS: &[u8] = b"holds";

pub const NEXT: &[u8] = b"next";

pub const UNDO: &[u8] = b"undo";

pub const LET: &[u8] = b"let";

pub const GET: &[u8] = b"get";

pub const HAS: &[u8] = b"has";

pub const COUNT: &[u8] = b"count";

pub const SUM: &[u8] = b"sum";

pub const LEAST: &[u8] = b"least";

pub const GREATEST: &[u8] = b"greatest";

pub const TAKE: &[u8] = b"take";

pub const MUL: &[u8] = b"mul";

pub const DIV: &[u8] = b"div";

pub const PATH: &[u8] = b"path";

pub const PUT: &[u8] = b"put";

pub const DEL: &[u8] = b"del";

pub const SET: &[u8] = b"set";

pub const ADD: &[u8] = b"add";

pub const GOTO: &[u8] = b"goto";

pub const COMMIT: &[u8] = b"commit";

pub const UNDONE: &[u8] = b"undone";

pub const REFUSE: &[u8] = b"refuse";

pub const ENTRY: &[u8] = b"entry";

pub const BY: &[u8] = b"by";

pub const HINT: &[u8] = b"hint";

pub const FORALL: &[u8] = b"forall";

pub const ONESELF: &[u8] = b"self";

pub const OPEN: &[u8] = b"[";

pub const CLOSE: &[u8] = b"]";

pub const COMMA: &[u8] = b",";

pub const DOT: &[u8] = b".";

pub const COLON: &[u8] = b":";

pub const EQUAL: &[u8] = b"=";

pub const AT_MOST: &[u8] = b"<=";

pub const AT_LEAST: &[u8] = b">=";

pub const IMPLIES: &[u8] = b"=>";

pub const PLUS: &[u8] = b"+";

pub const MINUS: &[u8] = b"-";

pub const TIMES: &[u8] = b"*";

/// The words that a table begins with.
pub const TABLES: [&[u8]; 2] = [TABLE, PRIVATE];

/// The words that a read begins with.
pub const READS: [&[u8]; 10] = [LET, GET, HAS, COUNT, SUM, LEAST, GREATEST, TAKE, MUL, DIV];

/// The words that an action begins with.
pub const ACTIONS: [&[u8]; 4] = [PUT, DEL, SET, ADD];

/// The words that the end of a path begins with.
pub const TARGETS: [&[u8]; 4] = [GOTO, COMMIT, UNDONE, REFUSE];

/// The words that a clause begins with.
pub const CLAUSES: [&[u8]; 4] = [ALWAYS, ENSURES, REPAIRS, HOLDS];

/// The marks between the two sides of a relation.
pub const RELATIONS: [&[u8]; 3] = [AT_MOST, AT_LEAST, EQUAL];
