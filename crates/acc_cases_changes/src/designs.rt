//! What is shown of a design's text; the last line is a status.
ghost use Rattle.std.specs.Prelude.{◌≡◌};

use acc_base::designs::Design;
use acc_form::{FormError, well_formed};
use acc_lex::texts::words;
use acc_parse::parse;
use acc_parse_designs::designs::syntax;
use acc_parse_meaning::meaning_of;
use acc_parse_names::{DesignNames, names_of};
use acc_parse_syntax::trees::DesignTree;
use acc_print::print;
use std::alloc::{AllocError, Global};

const REFUSED: &str = "refused\nstatus 2\n";

/// The print of a design, and the status of a command that did all.
fn spelled_design(alloc: Global, design: &Design) -> Result<String, AllocError> {
    let text = print(alloc, design).map_err(|_| AllocError)?;
    let text = String::from_utf8_lossy(alloc, &text)?;
    format!(in alloc; "{text}status 0\n")
}

/// The print of the text's design, whether it keeps the form rules or not.
pub fn spelled(alloc: Global, text: &str) -> Result<String, AllocError> {
    match parse(alloc, text.as_bytes()) {
        Ok(design) => spelled_design(alloc, &design),
        Err(_) => String::from_str(alloc, REFUSED),
    }
}

/// The first form rule that a design breaks, and the line of the print that breaks it.
fn judged(alloc: Global, design: &Design) -> Result<String, AllocError> {
    match well_formed(design) {
        Ok(()) => String::from_str(alloc, "status 0\n"),
        Err(FormError::Bad(rule, line)) => {
            format!(in alloc; "refused form {} {line}\nstatus 2\n", rule.number())
        }
        Err(FormError::Memory) => Err(AllocError),
    }
}

/// Judges what a tree with these names stands for.
fn judged_meaning<'a>(
    alloc: Global,
    names: &DesignNames<'a>,
    tree: &'a DesignTree,
) -> Result<String, AllocError>
    requires tables { names.now.tables.trees.now ≡ tree.now.tables }
    requires types { names.now.types.trees.now ≡ tree.now.types }
{
    judged(alloc, &meaning_of(alloc, names, tree)?.design)
}

/// Judges what a tree stands for, whatever its names and limits are.
fn judged_tree(alloc: Global, tree: &DesignTree) -> Result<String, AllocError> {
    judged_meaning(alloc, &names_of(alloc, tree)?, tree)
}

/// Judges what a text of the grammar stands for, whatever its names and limits are.
pub fn judged_text(alloc: Global, text: &str) -> Result<String, AllocError> {
    let Ok(words) = words(alloc, text.as_bytes()) else {
        return String::from_str(alloc, REFUSED);
    };
    match syntax(alloc, words.as_slice()) {
        Ok(tree) => judged_tree(alloc, &tree),
        Err(_) => String::from_str(alloc, REFUSED),
    }
}
