//! The statement of a text that breaks a form rule.
ghost use Rattle.std.specs.Prelude.{◌≡◌, ◌-◌, List, IfOk};
ghost use Rattle.acc_lex.specs.declared.words.Word.{Word as WordValue};
ghost use Rattle.acc_lex.specs.Texts.{IsLexed};
ghost use Rattle.acc_parse_syntax.specs.declared.trees.DesignTree.{DesignTree as TreeValue};
ghost use Rattle.acc_parse_designs.specs.Texts.{IsSpelling};
ghost use Rattle.acc_parse_statements.specs.Lines.{IsLineOf};
ghost use Rattle.acc_form.specs.declared.rules.FormError.TheVariants.{Bad};
ghost use Rattle.acc_form.specs.Judged.{IsFaultInPrint};
ghost use Rattle.acc_parse.specs.Texts.{IsDesignText};
ghost use Rattle.acc_diagnose_sources.specs.Sources.{IsPrintedBehind};
ghost use Rattle.acc_diagnose_faults.specs.Refusals.{IsFormFaultAt};

use acc_base::designs::Design;
use acc_base::rules::FormRule;
use acc_base::sequences::Seq;
use acc_diagnose_sources::source_of;
use acc_lex::LexError;
use acc_lex::texts::words;
use acc_lex::words::Word;
use acc_parse_designs::{SyntaxError, syntax};
use acc_parse_statements::{ends, line_of};
use acc_parse_syntax::trees::DesignTree;
use std::alloc::{AllocError, Global};

/// A statement of a text by its number, from 0, and the line on which it ends, from 1.
#[derive(Clone, Copy)]
pub struct SourceLine {
    pub statement: u64,
    pub line: u64,
}

/// The words of a text that has some.
pub fn words_in(alloc: Global, text: &[u8]) -> Result<Seq<Word>, AllocError>
    ensures words { IfOk result (IsLexed text.now) }
    ensures only { (words : List WordValue) → IsLexed text.now words → IfOk result (λ found. found ≡ words) }
{
    match words(alloc, text) {
        Ok(words) => Ok(words),
        Err(LexError::Bad(_) | LexError::Memory) => Err(AllocError),
    }
}

/// The tree that words spell that spell one.
pub fn tree_in(alloc: Global, words: &[Word]) -> Result<DesignTree, AllocError>
    ensures { (t : TreeValue) → IsSpelling words.now t → IfOk result (λ found. found ≡ t) }
{
    match syntax(alloc, words) {
        Ok(tree) => Ok(tree),
        Err(SyntaxError::At(_) | SyntaxError::Memory) => Err(AllocError),
    }
}

/// The line of a text on which the statement with this number ends; the words are the text's.
fn line_in(alloc: Global, text: &[u8], words: &[Word], number: u64) -> Result<u64, AllocError>
    requires { IsLexed text.now words.now }
    ensures { IfOk result (IsLineOf text.now number) }
{
    let count = ends(words) as u64;
    if number >= count {
        return Err(AllocError);
    }
    Ok(line_of(alloc, text, number)?.number)
}

/// The number of a tree's statement that is printed on this line.
fn statement_on(
    alloc: Global,
    tree: &DesignTree,
    design: &Design,
    printed: u64,
) -> Result<u64, AllocError>
    ensures { IfOk result (IsPrintedBehind tree.now design.now (printed - 1)) }
{
    match source_of(alloc, tree, design, printed.saturating_sub(1))? {
        Some(statement) => Ok(statement),
        None => Err(AllocError),
    }
}

/// The statement of a text whose printed line breaks a form rule of the design that the text stands for, and its line.
pub fn source_line(
    alloc: Global,
    text: &[u8],
    design: &Design,
    rule: FormRule,
    printed: u64,
) -> Result<SourceLine, AllocError>
    requires stands { IsDesignText text.now design.now }
    requires broken { IsFaultInPrint design.now (Bad rule printed) }
    ensures { IfOk result (λ s. IsFormFaultAt text.now rule printed s.line) }
{
    let words = words_in(alloc, text)?;
    let tree = tree_in(alloc, words.as_slice())?;
    let statement = statement_on(alloc, &tree, design, printed)?;
    let line = line_in(alloc, text, words.as_slice(), statement)?;
    Ok(SourceLine { statement, line })
}
