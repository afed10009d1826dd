//! What an obligation of each rule asks for, in words, and what helps where it can't be shown.
use acc_base::bounds::LARGEST_VARIANT;
use acc_base::sequents::Rule;
use acc_diagnose_words::push_with;
use acc_page::Page;

/// What an obligation is about.
#[derive(Clone, Copy)]
pub enum Subject {
    /// An assertion, or a table, which is stated elsewhere.
    Stated,
    /// An action of the obligation's path.
    Action,
    /// The variant of a point.
    Variant,
    /// A number that a step uses.
    Number,
}

/// What the obligations of a rule are about.
pub fn subject_of(rule: Rule) -> Subject {
    match rule {
        Rule::Begins | Rule::Promises | Rule::Always | Rule::Spares => Subject::Stated,
        Rule::Clears | Rule::Empty => Subject::Stated,
        Rule::There => Subject::Action,
        Rule::Ranges => Subject::Number,
        Rule::Variants => Subject::Variant,
    }
}

/// Writes what isn't shown of a variant, by the number of the obligation among those on variants.
fn push_variant_lack(out: &mut Page, clause: u32) {
    match clause {
        1 => out.push(b" isn't shown to be at least 0"),
        2 => push_with(out, b" isn't shown to be at most ", LARGEST_VARIANT, b""),
        _ => out.push(b" isn't shown to fall by"),
    }
}

/// Writes what isn't shown of what an obligation of this rule is about; `clause` tells the variant's obligations apart.
pub fn push_rule_lack(out: &mut Page, rule: Rule, clause: u32) {
    match rule {
        Rule::Begins => out.push(b" isn't shown to be true where a transaction begins"),
        Rule::Promises => out.push(b" isn't shown to be true behind"),
        Rule::Always => out.push(b" isn't shown to stay true through"),
        Rule::Spares => out.push(b" isn't shown to stay true while another transaction takes"),
        Rule::There => out.push(b" isn't shown to find its row, in"),
        Rule::Ranges => out.push(b" isn't shown to stay within the range of numbers, in"),
        Rule::Variants => push_variant_lack(out, clause),
        Rule::Clears => out.push(
            b" isn't shown to be left without rows of a transaction that ends by",
        ),
        Rule::Empty => out.push(b" isn't shown to be true while there are no rows"),
    }
}

/// What helps where an obligation of this rule can't be shown.
pub fn obligation_hint(rule: Rule) -> &'static [u8] {
    match rule {
        Rule::Begins => b"hold less at the first point, and let the first step look",
        Rule::Promises =>
            b"hold what this needs, at the point of the step or always, or let the path's relations tell more",
        Rule::Always =>
            b"hold what this needs at the step's point, let the path's relations tell more, or write a further action that keeps it true",
        Rule::Spares => b"write an entry that keeps the step out, or hold less",
        Rule::There =>
            b"hold at the point that the row is there, or read it by `has` and let the path ask for 1",
        Rule::Ranges => b"bound the number, by `holds` or `always`",
        Rule::Variants => b"let the variant count what is left to undo, and bound it by `holds`",
        Rule::Clears => b"drop the rows in the last step, and in the last undo step",
        Rule::Empty => b"say it of rows that are there: `forall k : has T[k] = 1 => ..`",
    }
}
