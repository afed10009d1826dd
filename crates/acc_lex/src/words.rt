//! The words of a design's text.
use acc_base::sequences::Text;

/// A word or mark that the grammar fixes, or the end of a statement.
#[derive(Clone, Copy, Debug, PartialEq, Eq)]
pub enum Sign {
    Table,
    Private,
    Always,
    Type,
    Limit,
    Returns,
    Local,
    Ensures,
    Repairs,
    Point,
    Variant,
    Holds,
    Next,
    Undo,
    Let,
    Get,
    Has,
    Count,
    Sum,
    Least,
    Greatest,
    Take,
    Mul,
    Div,
    Path,
    Put,
    Del,
    Set,
    Add,
    Goto,
    Commit,
    Undone,
    Refuse,
    Entry,
    By,
    Hint,
    Forall,
    /// `self`
    Oneself,
    Open,
    Close,
    Comma,
    Dot,
    Colon,
    Equal,
    AtMost,
    AtLeast,
    Implies,
    Plus,
    Minus,
    Times,
    /// The end of a statement.
    End,
}

/// A word of the text.
#[derive(Drop)]
pub enum Word {
    Sign(Sign),
    Name(Text),
    /// A whole number; one past the last of 64 bits counts as that.
    Number(u64),
}
