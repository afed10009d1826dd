//! The limits on a design's text, by name and number.
ghost use Rattle.std.specs.Prelude.{◌≡◌};
ghost use Rattle.acc_base.specs.Numbering.{limit_number};

/// A limit on a design's text.
#[derive(Clone, Copy, Debug)]
pub enum Limit {
    /// 64 tables.
    Tables,
    /// A key has 1 to 6 components.
    KeyWidth,
    /// 12 columns a table.
    Columns,
    /// 64 types.
    Types,
    /// 32 points a type.
    Points,
    /// 48 locals a type, its parameters among them.
    Locals,
    /// 64 clauses that hold at a point, 64 that a type ensures, and 64 that it repairs.
    Clauses,
    /// 8 variables a clause.
    Variables,
    /// 128 clauses that hold always.
    AlwaysClauses,
    /// 16 paths a step.
    Paths,
    /// 16 relations that guard a path or a clause.
    GuardRelations,
    /// 16 actions a path.
    Actions,
    /// 32 reads a step.
    Reads,
    /// 1,024 entries, and 1,024 hints.
    EntriesAndHints,
    /// Names of 32 bytes.
    NameLength,
    /// Numbers up to 2^45, those of a type's limit and of a refusal below 2^32.
    NumberSize,
}

impl Limit {
    /// The limit's number, from 1.
    pub fn number(self) -> u32
        ensures { result ≡ limit_number self }
    {
        match self {
            Limit::Tables => 1,
            Limit::KeyWidth => 2,
            Limit::Columns => 3,
            Limit::Types => 4,
            Limit::Points => 5,
            Limit::Locals => 6,
            Limit::Clauses => 7,
            Limit::Variables => 8,
            Limit::AlwaysClauses => 9,
            Limit::Paths => 10,
            Limit::GuardRelations => 11,
            Limit::Actions => 12,
            Limit::Reads => 13,
            Limit::EntriesAndHints => 14,
            Limit::NameLength => 15,
            Limit::NumberSize => 16,
        }
    }
}
