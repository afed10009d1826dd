//! The design of a text.
ghost use Rattle.std.specs.Prelude.{◌≡◌, ◌<◌, ◌^◌, ℕ, None, length, Err, IfOk, IfErr, MatchResult};
ghost use Rattle.acc_base.specs.declared.designs.Design.{Design as DesignValue};
ghost use Rattle.acc_lex.specs.Texts.{IsLexed};
ghost use Rattle.acc_parse_syntax.specs.declared.trees.DesignTree.{DesignTree as TreeValue};
ghost use Rattle.acc_parse_designs.specs.Texts.{IsSpelling};
ghost use Rattle.acc_parse_statements.specs.Counts.{statements_of};
ghost use Rattle.acc_parse_statements.specs.Lines.{IsLineOf};
ghost use Rattle.acc_parse_names.specs.Faults.{first_fault_of};
ghost use Rattle.acc_parse_meaning.specs.Designs.{design_of};
ghost use Rattle.acc_parse.specs.Texts.{IsGrammatical, IsAllowed, IsDesignText, past_limits};
ghost use Rattle.acc_parse.specs.Syntax.{IsWrongAt};
ghost use Rattle.acc_parse.specs.Faults.{IsFirstIn, Refuses};

use crate::errors::ParseError;
use crate::limits::{first_passed, limit_at};
use crate::lines::{good_words, wrong_line};
use acc_base::designs::Design;
use acc_lex::lexers::LexError;
use acc_lex::texts::words;
use acc_lex::words::Word;
use acc_parse_designs::designs::{SyntaxError, syntax};
use acc_parse_meaning::meaning_of;
use acc_parse_names::{DesignNames, names_of};
use acc_parse_statements::line_of;
use acc_parse_statements::lines::first_lines;
use acc_parse_syntax::trees::DesignTree;
use std::alloc::{AllocError, Global};

/// How many words there are.
fn count_of(words: &[Word]) -> usize
    ensures { result ≡ length words.now }
{
    words.len()
}

/// The tree that is spelled by the words of a text.
fn spelled_tree(alloc: Global, text: &[u8], words: &[Word]) -> Result<DesignTree, ParseError>
    requires { IsLexed text.now words.now }
    ensures ok { IfOk result (IsSpelling words.now) }
    ensures err { IfErr result (Refuses text.now) }
    ensures only { (t : TreeValue) → IsSpelling words.now t
        → MatchResult result (λ found. found ≡ t) (λ e. e ≡ ParseError.Memory) }
    ensures few { IfOk result (λ t. statements_of t < 2 ^ 64) }
{
    let _count = count_of(words);
    match syntax(alloc, words) {
        Ok(tree) => Ok(tree),
        Err(SyntaxError::At(place)) => Err(ParseError::Syntax(wrong_line(alloc, text, place)?)),
        Err(SyntaxError::Memory) => Err(ParseError::Memory),
    }
}

/// The tree that is spelled by a text.
fn tree_of(alloc: Global, text: &[u8]) -> Result<DesignTree, ParseError>
    ensures ok { IfOk result (λ t. (g : IsGrammatical text.now) × (g.tree ≡ t)) }
    ensures err { IfErr result (Refuses text.now) }
    ensures only { (g : IsGrammatical text.now)
        → MatchResult result (λ found. found ≡ g.tree) (λ e. e ≡ ParseError.Memory) }
    ensures few { IfOk result (λ t. statements_of t < 2 ^ 64) }
{
    match words(alloc, text) {
        Ok(found) => spelled_tree(alloc, text, found.as_slice()),
        Err(LexError::Bad(line)) => {
            let good = good_words(alloc, first_lines(text, line - 1))?;
            Err(ParseError::Syntax(wrong_line(alloc, text, good)?))
        }
        Err(LexError::Memory) => Err(ParseError::Memory),
    }
}

/// The line of a statement of a text's tree.
fn line_in(alloc: Global, text: &[u8], tree: &DesignTree, n: u64) -> Result<u64, AllocError>
    requires grammatical { (g : IsGrammatical text.now) × (g.tree ≡ tree.now) }
    requires few { statements_of tree.now < 2 ^ 64 }
    requires there { n < statements_of tree.now }
    ensures { IfOk result (IsLineOf text.now n) }
{
    Ok(line_of(alloc, text, n)?.number)
}

/// The refusal for a limit.
fn limit_error(
    alloc: Global,
    text: &[u8],
    tree: &DesignTree,
    first: u64,
) -> Result<ParseError, AllocError>
    requires grammatical { (g : IsGrammatical text.now) × (g.tree ≡ tree.now) }
    requires few { statements_of tree.now < 2 ^ 64 }
    requires named { first_fault_of tree.now ≡ None }
    requires first { IsFirstIn (past_limits tree.now) first }
    ensures { IfOk result (Refuses text.now) }
{
    let passed = limit_at(alloc, text, tree, first)?;
    Ok(ParseError::Limit(passed.line, passed.which))
}

/// The design of a tree whose names are right, or the limit that it passes.
fn named_design<'a>(
    alloc: Global,
    text: &[u8],
    names: &DesignNames<'a>,
    tree: &'a DesignTree,
) -> Result<Design, ParseError>
    requires grammatical { (g : IsGrammatical text.now) × (g.tree ≡ tree.now) }
    requires few { statements_of tree.now < 2 ^ 64 }
    requires tables { names.now.tables.trees.now ≡ tree.now.tables }
    requires types { names.now.types.trees.now ≡ tree.now.types }
    requires named { first_fault_of tree.now ≡ None }
    ensures ok { IfOk result (λ d. IsAllowed tree.now × (d ≡ design_of tree.now)) }
    ensures err { IfErr result (Refuses text.now) }
{
    let meaning = meaning_of(alloc, names, tree)?;
    match first_passed(tree, meaning.first_fault) {
        Some(first) => Err(limit_error(alloc, text, tree, first)?),
        None => Ok(meaning.design),
    }
}

/// The design of a tree that a text spells, or why it stands for none.
fn design_of_tree(alloc: Global, text: &[u8], tree: &DesignTree) -> Result<Design, ParseError>
    requires grammatical { (g : IsGrammatical text.now) × (g.tree ≡ tree.now) }
    requires few { statements_of tree.now < 2 ^ 64 }
    ensures ok { IfOk result (λ d. IsAllowed tree.now × (d ≡ design_of tree.now)) }
    ensures err { IfErr result (Refuses text.now) }
{
    let names = names_of(alloc, tree)?;
    if let Some(n) = names.first_fault {
        return Err(ParseError::Name(line_in(alloc, text, tree, n)?));
    }
    named_design(alloc, text, &names, tree)
}

/// The design of a text. The cost is that of going over the text, with a look-up in an ordered map for each name and for each
/// term of a value or a form; a text that is refused is gone over once more, up to the line that is answered.
#[tactic(auto, using(crate::proofs::WrongLines::one_wrong))]
pub fn parse(alloc: Global, text: &[u8]) -> Result<Design, ParseError>
    ensures ok { IfOk result (IsDesignText text.now) }
    // What is refused isn't of the grammar and goes wrong on the line that is answered; or it has its first fault of names there; or,
    // without such a fault, it passes a limit there first, the lowest of those the one that is answered.
    ensures refused { IfErr result (Refuses text.now) }
    // A text goes wrong on one line at most.
    ensures line { (a b : ℕ) → IsWrongAt text.now a → IsWrongAt text.now b → a ≡ b }
    // A text is the text of one design at most, and a text that is one is answered with it unless memory runs out.
    ensures only { (d : DesignValue) → IsDesignText text.now d
        → MatchResult result (λ found. found ≡ d) (λ e. e ≡ ParseError.Memory) }
{
    match tree_of(alloc, text) {
        Ok(tree) => design_of_tree(alloc, text, &tree),
        Err(error) => Err(error),
    }
}
