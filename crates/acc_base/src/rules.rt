//! The rules that a design's form keeps, each by its name.
ghost use Rattle.std.specs.Prelude.{◌≡◌};
ghost use Rattle.acc_base.specs.Numbering.{form_rule_number};

/// A rule that a design's form keeps.
#[derive(Clone, Copy)]
pub enum FormRule {
    /// Each number that names a table, a column, a variable, a type or a point is in range; there is a point in each type and a
    /// path in each step.
    Ranges,
    /// Keys are as long as their tables' keys, prefixes not longer, and rows that are put have a value a column.
    Widths,
    /// The prefix of `least` and `greatest` is shorter than the key.
    ShortPrefixes,
    /// The limits on counts, names and numbers.
    Limits,
    /// A type's limit is 1 to 65,536, a refusal's number 1 to 255, a divisor at least 1.
    Numbers,
    /// No name is given twice in its scope.
    Names,
    /// The last path of a step has no guard.
    LastPaths,
    /// A forward path doesn't end undone; an undo path neither commits nor refuses.
    Ends,
    /// A path that refuses has no actions.
    Refusals,
    /// A write to a private table has `self` alone as the last component of its key.
    PrivateKeys,
    /// No read assigns a parameter or `self`.
    Assigned,
    /// An undo step neither takes nor multiplies.
    UndoReads,
    /// A start point's undo does nothing.
    StartUndos,
    /// No entry holds a start point, and none forbids a start point's undo.
    Starts,
    /// No two entries have the same held point, step and side.
    Entries,
    /// No undo step assigns a local that stands in a pair of an entry.
    Pairs,
}

impl FormRule {
    /// The rule's number, from 1.
    pub fn number(self) -> u32
        ensures { result ≡ form_rule_number self }
    {
        match self {
            FormRule::Ranges => 1,
            FormRule::Widths => 2,
            FormRule::ShortPrefixes => 3,
            FormRule::Limits => 4,
            FormRule::Numbers => 5,
            FormRule::Names => 6,
            FormRule::LastPaths => 7,
            FormRule::Ends => 8,
            FormRule::Refusals => 9,
            FormRule::PrivateKeys => 10,
            FormRule::Assigned => 11,
            FormRule::UndoReads => 12,
            FormRule::StartUndos => 13,
            FormRule::Starts => 14,
            FormRule::Entries => 15,
            FormRule::Pairs => 16,
        }
    }
}
