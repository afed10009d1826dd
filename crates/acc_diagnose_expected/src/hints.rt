//! How usual mistakes are mended, a line each.

/// Stands in a hint for the word that was found, in quotes.
pub const FOUND: u8 = b'%';

/// Stands in a hint for the word before, in quotes.
pub const BEFORE: u8 = b'@';

// Bytes that can't stand in a text.

pub const COMMENT: &[u8] =
    b"a comment is a line of its own, with `#` as its first byte past spaces";

pub const LESS: &[u8] = b"relations are `<=`, `>=` and `=`: `a < b` is `a + 1 <= b`";

pub const MORE: &[u8] = b"relations are `<=`, `>=` and `=`: `a > b` is `a >= b + 1`";

pub const UNEQUAL: &[u8] =
    b"relations are `<=`, `>=` and `=`: for `a != b` write two paths, one with `a + 1 <= b` and one with `a >= b + 1`";

pub const TAB: &[u8] = b"this is a tab: words are parted by spaces";

pub const CARRIAGE_RETURN: &[u8] = b"this is a carriage return: lines end with a line feed alone";

pub const NO_BRACKETS: &[u8] =
    b"there are no parentheses: behind @ a key stands in `[ ]`, and a value alone";

pub const NO_PARENTHESES: &[u8] =
    b"there are no parentheses: relations and values stand without them";

pub const NO_BRACES: &[u8] =
    b"there are no braces: a step ends where `undo`, `point`, `type` or `entry` begins what comes next";

pub const QUOTIENT: &[u8] = b"a quotient, rounded down, is the read `div z = x 2`";

pub const REMAINDER: &[u8] =
    b"a remainder is what the quotient leaves: `div q = x 7`, and then `let r = x - 7 * q`";

pub const NO_QUOTES: &[u8] = b"values are whole numbers, and names stand without quotes";

pub const UNDERSCORE: &[u8] =
    b"a name begins with a letter; no letter and no `_` stands right behind a number";

pub const ZERO: &[u8] = b"a number has no leading zeros";

pub const LETTER: &[u8] = b"no letter stands right behind a number; a name begins with a letter";

pub const NO_TEXT: &[u8] =
    b"a design has the bytes from the space to `~`, and line feeds; no accents, in comments neither";

pub const MARKS: &[u8] = b"the marks are `[ ] , . : = <= >= => + - *` and `;`";

// The heads of statements.

pub const NO_IF: &[u8] =
    b"there is no `if`: a path is taken where its relations hold, as in `path shop = 0; refuse 1`";

pub const NO_ELSE: &[u8] =
    b"there is no `else`: the last `path` of a step has no relations, and is taken where no other is open";

pub const INSERT: &[u8] = b"a row is made or replaced by `put TABLE[KEY] VALUE, VALUE`";

pub const UPDATE: &[u8] = b"a column is changed by `set TABLE[KEY].COLUMN VALUE`, or by `add`";

pub const DELETE: &[u8] = b"a row is dropped by `del TABLE[KEY]`";

pub const SELECT: &[u8] =
    b"a column is read by `get x = TABLE[KEY].COLUMN`, before the first `path` of the step";

pub const RETURN: &[u8] =
    b"what a commit replies is named once for the type, by `returns` behind its `limit`";

pub const GIVE_UP: &[u8] = b"a transaction gives up by `refuse NUMBER`, as the end of a path";

pub const NO_LET: &[u8] =
    b"no statement begins with a name: where % gets a value, write `let` before it";

pub const LET_BEFORE: &[u8] =
    b"no statement begins with a name; a local gets its value by `let`, before the first `path`";

pub const NO_HEAD: &[u8] =
    b"no statement begins with a name or a number; each begins with a word of the language";

pub const PATH_ENDED: &[u8] =
    b"a path has one end, which the statement before is: actions stand before it, or behind a `path` of their own";

pub const BEHIND_PATH: &[u8] =
    b"actions, and where a step leads, stand behind a `path`, which may be without relations";

pub const READS_FIRST: &[u8] = b"the reads of a step stand before its first `path`";

pub const PATH_ENDS: &[u8] =
    b"each path ends with `goto POINT`, `commit`, `undone` or `refuse NUMBER`";

pub const TWO_STEPS: &[u8] = b"each point has two steps: `next`, and behind it `undo`";

pub const TYPE_LIMIT: &[u8] =
    b"behind `type` stands `limit NUMBER`: the most steps forward of one transaction";

pub const NEXT_FIRST: &[u8] =
    b"the step forward of a point begins with `next`: write that before its reads and paths";

pub const TYPE_ORDER: &[u8] =
    b"a type has, in this order, `type`, `limit`, `returns`, `local`, `ensures`, `repairs`, and then its points";

pub const POINT_ORDER: &[u8] =
    b"a point has, in this order, `point`, `variant`, `holds`, `next` and `undo`";

pub const PARTS_ORDER: &[u8] =
    b"a design has, in this order, its tables, `always`, the types, the entries and the hints";

pub const POINT_FIRST: &[u8] =
    b"steps stand at points: write `point NAME`, and `next` or `undo`, before their reads and paths";

// Within statements: words of other languages, numbers, equality.

pub const NO_OR: &[u8] =
    b"there is no `or`: write two paths, one for each relation, with the same actions";

pub const NO_AND: &[u8] = b"relations that all have to hold are parted by `,`";

pub const NO_THEN: &[u8] =
    b"there is no `then`: the relations of a path end with `;` or with its line";

pub const REFUSE: &[u8] = b"a refusal has a number, which tells its reason, as in `refuse 1`";

pub const TWO_SIGNS: &[u8] = b"no two signs stand side by side: `x - -5` is `x + 5`";

pub const NO_SIGN: &[u8] = b"a number that stands alone has no sign";

pub const COMPONENTS: &[u8] =
    b"behind @ stands how many components its key has, and then its columns, as in `table NAME 2 COLUMN`";

pub const NO_EQUAL: &[u8] =
    b"no `=` stands before what is written, as in `set TABLE[KEY].COLUMN VALUE`";

pub const ONE_EQUAL: &[u8] = b"equality is written with one `=`";

// Where one statement ends, and the names of others.

pub const NAME_OR_HEAD: &[u8] =
    b"a word of the language is no name; where it begins a statement, the one before ends with `;` or with its line";

pub const PARTED: &[u8] = b"a statement ends with `;` or with its line";

pub const NO_READ: &[u8] =
    b"a value has no % in it: let it be a read of its own, before, and use its local";

pub const NO_SEMICOLON: &[u8] =
    b"a `,` goes on with the same statement: before %, which begins the next one, write `;` in its place";

pub const STEP: &[u8] = b"behind the point stands which of its steps is meant, `next` or `undo`";

pub const ENTRY: &[u8] =
    b"an entry is `entry TYPE.POINT by TYPE.POINT next`, or `undo`, and then its pairs";

pub const POINT: &[u8] = b"a point is named with its type, as in `TYPE.POINT`";

pub const PAIRS: &[u8] =
    b"pairs stand behind `:` and are parted by `,`, as in `next : s = s, c = c`";

pub const PAIR: &[u8] =
    b"a pair is a local of the first type, `=`, and a local of the second: no number";

pub const FORALL: &[u8] =
    b"behind `forall` stand names, parted by spaces alone, and then `:`, as in `forall s c : RELATION`";

pub const OWN: &[u8] =
    b"`self` is the number of the transaction: it stands in values, within types alone";

pub const NO_NAME: &[u8] = b"this is a word of the language, and so no name: choose another name";

pub const PARAMETERS: &[u8] =
    b"parameters stand behind the type's name, parted by spaces alone, as in `type NAME a b`";

pub const NO_COMMA: &[u8] = b"names are parted by spaces alone";

pub const LOCALS: &[u8] =
    b"behind `local` stand names alone: each begins as 0, and gets its value by a read";

pub const GOTO: &[u8] =
    b"behind `goto` stands the name of a point of the same type, and nothing more";

// Values, rows and relations.

pub const MUL: &[u8] =
    b"`mul` multiplies two variables, as in `mul z = x y`; twice a variable is `let z = 2 * x`";

pub const DIV: &[u8] = b"`div` divides a variable by a number, as in `div z = x 2`";

pub const PRODUCT: &[u8] =
    b"in a product the number stands first, as in `2 * x`; two variables are multiplied by the read `mul z = x y`";

pub const FACTOR: &[u8] = b"a product is a number times one name, as in `2 * x`";

pub const ASSIGNED: &[u8] =
    b"a read begins with the local that gets the value, and `=`, as in `get x = TABLE[KEY].COLUMN`";

pub const GET: &[u8] =
    b"`get` reads a column, as in `get x = TABLE[KEY].COLUMN`; whether the row is there tells `has x = TABLE[KEY]`";

pub const SUM: &[u8] = b"`sum` adds up a column, as in `sum x = TABLE[PREFIX].COLUMN`";

pub const SET: &[u8] =
    b"`set` and `add` change a column, as in `set TABLE[KEY].COLUMN VALUE`; `put` writes a whole row";

pub const COLUMN: &[u8] =
    b"a row has a value by its column, as in `TABLE[KEY].COLUMN`; `has TABLE[KEY]` is 1 where it is there";

pub const HAS: &[u8] =
    b"`has` tells whether the whole row is there; a column is read by `get x = TABLE[KEY].COLUMN`";

pub const KEY: &[u8] =
    b"behind @ stands a key in `[ ]`; for `sum` and `count` its front will do, of one component or more";

pub const NO_ROW: &[u8] =
    b"a value has no row in it: read what is wanted of @ before, by a `get` of its own, and use that local";

pub const EMPTY_KEY: &[u8] =
    b"a key has at least one component: no whole table can be counted or summed";

pub const KEY_ENDS: &[u8] = b"a key ends with `]`, and its components are parted by `,`";

pub const VALUES: &[u8] = b"the values of a `put` are parted by `,`, one for each column";

pub const RELATION: &[u8] = b"a relation is between two values, with `<=`, `>=` or `=`";

pub const CHAIN: &[u8] =
    b"a relation is between two values: write a second one for the third value";

pub const ONE_RELATION: &[u8] =
    b"a clause states one relation, and may have others before a `=>`: state a further one in a clause of its own";
