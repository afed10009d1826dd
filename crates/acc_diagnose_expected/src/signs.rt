//! The words and marks that the grammar fixes.
use acc_diagnose_words::push_quoted;
use acc_lex::{Sign, spelling};
use acc_page::Page;

/// How many signs there are: the end of a statement is the last.
pub const COUNT: usize = Sign::End as usize + 1;

/// Each sign, in the order in which what could stand at a place is told.
pub const SIGNS: [Sign; COUNT] = [
    Sign::Table,
    Sign::Private,
    Sign::Always,
    Sign::Type,
    Sign::Limit,
    Sign::Returns,
    Sign::Local,
    Sign::Ensures,
    Sign::Repairs,
    Sign::Point,
    Sign::Variant,
    Sign::Holds,
    Sign::Next,
    Sign::Undo,
    Sign::Let,
    Sign::Get,
    Sign::Has,
    Sign::Count,
    Sign::Sum,
    Sign::Least,
    Sign::Greatest,
    Sign::Take,
    Sign::Mul,
    Sign::Div,
    Sign::Path,
    Sign::Put,
    Sign::Del,
    Sign::Set,
    Sign::Add,
    Sign::Goto,
    Sign::Commit,
    Sign::Undone,
    Sign::Refuse,
    Sign::Entry,
    Sign::By,
    Sign::Hint,
    Sign::Forall,
    Sign::Oneself,
    Sign::Open,
    Sign::Close,
    Sign::Comma,
    Sign::Dot,
    Sign::Colon,
    Sign::AtMost,
    Sign::AtLeast,
    Sign::Equal,
    Sign::Implies,
    Sign::Plus,
    Sign::Minus,
    Sign::Times,
    Sign::End,
];

/// What a sign is for.
#[derive(Clone, Copy)]
enum Class {
    /// Begins a part of a design.
    Part,
    /// Begins a clause that is a part of a design.
    Invariant,
    /// Begins a statement of a type before its points.
    OfType,
    /// Begins a clause of a type.
    Promise,
    /// Begins a point, or a part of one.
    OfPoint,
    /// Begins a clause of a point.
    Assertion,
    Read,
    Path,
    Action,
    /// Begins the statement that ends a path.
    PathEnd,
    /// Stands within a statement, or ends it.
    Within,
}

fn class_of(sign: Sign) -> Class {
    match sign {
        Sign::Table | Sign::Private | Sign::Type | Sign::Entry | Sign::Hint => Class::Part,
        Sign::Always => Class::Invariant,
        Sign::Limit | Sign::Returns | Sign::Local => Class::OfType,
        Sign::Ensures | Sign::Repairs => Class::Promise,
        Sign::Point | Sign::Variant | Sign::Next | Sign::Undo => Class::OfPoint,
        Sign::Holds => Class::Assertion,
        Sign::Let | Sign::Get | Sign::Has | Sign::Count | Sign::Sum => Class::Read,
        Sign::Least | Sign::Greatest | Sign::Take | Sign::Mul | Sign::Div => Class::Read,
        Sign::Path => Class::Path,
        Sign::Put | Sign::Del | Sign::Set | Sign::Add => Class::Action,
        Sign::Goto | Sign::Commit | Sign::Undone | Sign::Refuse => Class::PathEnd,
        Sign::By | Sign::Forall | Sign::Oneself | Sign::Open | Sign::Close => Class::Within,
        Sign::Comma | Sign::Dot | Sign::Colon | Sign::Equal | Sign::AtMost => Class::Within,
        Sign::AtLeast | Sign::Implies | Sign::Plus | Sign::Minus | Sign::Times => Class::Within,
        Sign::End => Class::Within,
    }
}

/// Writes a sign as messages name it.
pub fn push_sign(out: &mut Page, sign: Sign) {
    match spelling(sign) {
        Some(word) => push_quoted(out, word),
        None => out.push(b"the end of the statement"),
    }
}

/// Whether a sign begins a read.
pub fn is_read(sign: Sign) -> bool {
    match class_of(sign) {
        Class::Read => true,
        Class::Part | Class::Invariant | Class::OfType | Class::Promise | Class::OfPoint => false,
        Class::Assertion | Class::Path | Class::Action | Class::PathEnd | Class::Within => false,
    }
}

/// Whether a sign begins an action, or the end of a path.
pub fn is_of_path(sign: Sign) -> bool {
    match class_of(sign) {
        Class::Action | Class::PathEnd => true,
        Class::Part | Class::Invariant | Class::OfType | Class::Promise | Class::OfPoint => false,
        Class::Assertion | Class::Read | Class::Path | Class::Within => false,
    }
}

/// Whether a sign begins a statement.
pub fn is_head(sign: Sign) -> bool {
    match class_of(sign) {
        Class::Part | Class::Invariant | Class::OfType | Class::Promise | Class::OfPoint => true,
        Class::Assertion | Class::Read | Class::Path | Class::Action | Class::PathEnd => true,
        Class::Within => false,
    }
}

/// Whether a sign begins the statement that ends a path.
pub fn is_path_end(sign: Sign) -> bool {
    match class_of(sign) {
        Class::PathEnd => true,
        Class::Part | Class::Invariant | Class::OfType | Class::Promise | Class::OfPoint => false,
        Class::Assertion | Class::Read | Class::Path | Class::Action | Class::Within => false,
    }
}

/// Whether a sign begins a clause.
pub fn is_clause(sign: Sign) -> bool {
    match class_of(sign) {
        Class::Invariant | Class::Promise | Class::Assertion => true,
        Class::Part | Class::OfType | Class::OfPoint | Class::Read | Class::Path => false,
        Class::Action | Class::PathEnd | Class::Within => false,
    }
}

/// Whether a sign begins a statement that stands in a type before its points.
pub fn is_of_type(sign: Sign) -> bool {
    match class_of(sign) {
        Class::OfType | Class::Promise => true,
        Class::Part | Class::Invariant | Class::OfPoint | Class::Assertion | Class::Read => false,
        Class::Path | Class::Action | Class::PathEnd | Class::Within => false,
    }
}

/// Whether a sign begins a point, or a part of one.
pub fn is_of_point(sign: Sign) -> bool {
    match class_of(sign) {
        Class::OfPoint | Class::Assertion => true,
        Class::Part | Class::Invariant | Class::OfType | Class::Promise | Class::Read => false,
        Class::Path | Class::Action | Class::PathEnd | Class::Within => false,
    }
}

/// Whether a sign begins a part of a design.
pub fn is_of_part(sign: Sign) -> bool {
    match class_of(sign) {
        Class::Part | Class::Invariant => true,
        Class::OfType | Class::Promise | Class::OfPoint | Class::Assertion | Class::Read => false,
        Class::Path | Class::Action | Class::PathEnd | Class::Within => false,
    }
}
