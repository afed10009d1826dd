//! The limits of a design's text, in words.
use crate::numbers::push_with;
use acc_base::bounds::{
    LARGEST_NUMBER, LONGEST_NAME, MOST_ACTIONS, MOST_ALWAYS, MOST_CLAUSES, MOST_COLUMNS,
    MOST_ENTRIES, MOST_GUARDS, MOST_HINTS, MOST_KEY_PARTS, MOST_LOCALS, MOST_PATHS, MOST_POINTS,
    MOST_READS, MOST_TABLES, MOST_TYPES, MOST_VARIABLES, PAST_SMALL_NUMBERS,
};
use acc_base::limits::Limit;
use acc_page::Page;

/// How many assertions a point and a type have.
fn push_clauses(out: &mut Page) {
    push_with(out, b"a point has at most ", MOST_CLAUSES, b" `holds`, ");
    push_with(out, b"a type at most ", MOST_CLAUSES, b" `ensures` and ");
    push_with(out, b"", MOST_CLAUSES, b" `repairs`")
}

/// How many entries and hints a design has.
fn push_entries(out: &mut Page) {
    push_with(
        out,
        b"a design has at most ",
        MOST_ENTRIES,
        b" entries and ",
    );
    push_with(out, b"", MOST_HINTS, b" hints")
}

/// Writes what a limit says.
pub fn push_limit(out: &mut Page, limit: Limit) {
    match limit {
        Limit::Tables => push_with(out, b"a design has at most ", MOST_TABLES, b" tables"),
        Limit::KeyWidth => push_with(out, b"a key has 1 to ", MOST_KEY_PARTS, b" components"),
        Limit::Columns => push_with(out, b"a table has at most ", MOST_COLUMNS, b" columns"),
        Limit::Types => push_with(out, b"a design has at most ", MOST_TYPES, b" types"),
        Limit::Points => push_with(out, b"a type has at most ", MOST_POINTS, b" points"),
        Limit::Locals => push_with(
            out,
            b"a type has at most ",
            MOST_LOCALS,
            b" locals, its parameters among them",
        ),
        Limit::Clauses => push_clauses(out),
        Limit::Variables => push_with(out, b"a `forall` has at most ", MOST_VARIABLES, b" names"),
        Limit::AlwaysClauses => push_with(out, b"a design has at most ", MOST_ALWAYS, b" `always`"),
        Limit::Paths => push_with(out, b"a step has at most ", MOST_PATHS, b" paths"),
        Limit::GuardRelations => push_with(
            out,
            b"a path, and a clause before its `=>`, has at most ",
            MOST_GUARDS,
            b" relations",
        ),
        Limit::Actions => push_with(out, b"a path has at most ", MOST_ACTIONS, b" actions"),
        Limit::Reads => push_with(out, b"a step has at most ", MOST_READS, b" reads"),
        Limit::EntriesAndHints => push_entries(out),
        Limit::NameLength => push_with(out, b"a name has at most ", LONGEST_NAME, b" bytes"),
        Limit::NumberSize => out.push(b"a number is too large"),
    }
}

/// How large numbers are.
fn push_sizes(out: &mut Page) {
    push_with(
        out,
        b"numbers go up to ",
        LARGEST_NUMBER,
        b", collected ones too; ",
    );
    push_with(
        out,
        b"behind `limit` and `refuse` they are below ",
        PAST_SMALL_NUMBERS,
        b"",
    )
}

/// Writes how a design is mended that passes a limit, where something can be said.
pub fn push_limit_hint(out: &mut Page, limit: Limit) {
    match limit {
        Limit::KeyWidth => out.push(
            b"the number behind a table's name says how many components its key has",
        ),
        Limit::Columns => out.push(
            b"put the further columns into a second table with the same key",
        ),
        Limit::Types => out.push(b"let one type do the work of several, by a parameter"),
        Limit::Points | Limit::Locals => out.push(b"split the type into two"),
        Limit::Clauses | Limit::AlwaysClauses | Limit::GuardRelations => out.push(
            b"put what belongs together into one relation, or leave out what follows from the others",
        ),
        Limit::Paths | Limit::Actions | Limit::Reads => out.push(
            b"split the step into two, with a point between them",
        ),
        Limit::NumberSize => push_sizes(out),
        Limit::Tables | Limit::Variables | Limit::EntriesAndHints | Limit::NameLength => {}
    }
}
