//! The statement of a text that stands on a line of the print.
ghost use Rattle.std.specs.Prelude.{◌≤◌, IfOk, MatchOption};
ghost use Rattle.acc_diagnose_sources.specs.Shown.{shown};
ghost use Rattle.acc_diagnose_sources.specs.Sources.{trues, IsPrintedBehind};

use crate::places::true_behind;
use crate::shown::shown_statements;
use acc_base::designs::Design;
use acc_parse_syntax::trees::DesignTree;
use std::alloc::{AllocError, Global};

/// The number, from 0, of a tree's statement that is printed behind so many others, where the tree stands for the design.
pub fn source_of(
    alloc: Global,
    tree: &DesignTree,
    design: &Design,
    before: u64,
) -> Result<Option<u64>, AllocError>
    ensures { IfOk result (λ found. MatchOption found (trues (shown tree.now design.now) ≤ before)
        (IsPrintedBehind tree.now design.now before)) }
{
    let shown = shown_statements(alloc, tree, design)?;
    Ok(true_behind(&shown, before))
}
