//! The form rules of a design, in words.
use crate::numbers::push_with;
use acc_base::bounds::{LARGEST_LIMIT, LARGEST_REFUSAL};
use acc_base::rules::FormRule;
use acc_page::Page;

/// Of which range numbers in a design are.
fn push_ranges(out: &mut Page) {
    push_with(
        out,
        b"`limit` is 1 to ",
        LARGEST_LIMIT,
        b", the number of `refuse` 1 to ",
    );
    push_with(out, b"", LARGEST_REFUSAL, b", and a divisor at least 1")
}

/// Writes what a form rule says.
pub fn push_rule(out: &mut Page, rule: FormRule) {
    match rule {
        FormRule::Ranges => out.push(b"a number of a name is out of range"),
        FormRule::Widths => out.push(
            b"a row has a key component for each of its table, a prefix at most as many, and `put` has a value for each column",
        ),
        FormRule::ShortPrefixes => out.push(
            b"the prefix of `least` and `greatest` is shorter than the table's key",
        ),
        FormRule::Limits => out.push(b"a limit is passed"),
        FormRule::Numbers => push_ranges(out),
        FormRule::Names => out.push(b"a name stands twice in its scope"),
        FormRule::LastPaths => out.push(b"the last path of a step has no relations"),
        FormRule::Ends => out.push(
            b"`undone` doesn't stand behind `next`, and neither `commit` nor `refuse` behind `undo`",
        ),
        FormRule::Refusals => out.push(b"a path that refuses has no actions"),
        FormRule::PrivateKeys => out.push(
            b"a write to a private table has `self`, alone, as the last component of its key",
        ),
        FormRule::Assigned => out.push(b"a read assigns no parameter, and not `self`"),
        FormRule::UndoReads => out.push(b"no `take` and no `mul` stands behind `undo`"),
        FormRule::StartUndos => out.push(
            b"the undo of a type's first point has no actions, and each of its paths ends `undone`",
        ),
        FormRule::Starts => out.push(
            b"no entry holds a type's first point, and none is against the undo of one",
        ),
        FormRule::Entries => out.push(b"two entries have the same held point, step and side"),
        FormRule::Pairs => out.push(b"no undo step of its type assigns a local of an entry's pair"),
    }
}

/// How a design is mended that breaks a form rule; empty where nothing can be said.
pub fn rule_hint(rule: FormRule) -> &'static [u8] {
    match rule {
        FormRule::Widths =>
            b"its table's line, `table NAME COMPONENTS COLUMNS`, says how many values stand in `[ ]`, and how many behind a `put`",
        FormRule::ShortPrefixes =>
            b"leave out the last component: the answer is the next component behind the prefix",
        FormRule::Numbers =>
            b"write a number of that range, as in `limit 2`, `refuse 1` or `div z = x 2`",
        FormRule::Names => b"choose another name for one of the two",
        FormRule::LastPaths =>
            b"let a further `path` without relations follow, which is taken where no other is open",
        FormRule::Ends =>
            b"a step forward ends with `goto`, `commit` or `refuse`, an undo step with `goto` or `undone`",
        FormRule::Refusals =>
            b"leave the actions out: a refused transaction is undone from the point where it stands",
        FormRule::PrivateKeys =>
            b"let the table's key end with a component for the transaction, and write `self` there",
        FormRule::Assigned => b"name a further local behind `local`, and let the read assign that",
        FormRule::UndoReads =>
            b"do it in the step forward, and keep the value in a local or a private row",
        FormRule::StartUndos =>
            b"a transaction at its first point has done nothing yet: write `undo; path; undone`",
        FormRule::Starts =>
            b"a transaction that stands at its first point has done nothing yet: name a later point",
        FormRule::Entries =>
            b"put both sets of pairs into one entry; without pairs an entry always forbids the step",
        FormRule::Pairs => b"assign another local there",
        FormRule::Ranges | FormRule::Limits => b"",
    }
}
