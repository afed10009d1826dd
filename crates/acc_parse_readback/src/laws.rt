//! What holds of the print of a design that some text stands for.
ghost use Rattle.std.specs.Prelude.{◌≡◌, ◌+◌, ◌-◌, ◌*◌, ◌<◌, ◌≤◌, ◌++◌, ℕ, List, length};
ghost use Rattle.acc_base.specs.declared.rules.FormRule.{FormRule};
ghost use Rattle.acc_base.specs.declared.designs.Design.{Design};
ghost use Rattle.acc_lex.specs.Texts.{IsLexed};
ghost use Rattle.acc_parse_syntax.specs.Spelling.{spelled_design};
ghost use Rattle.acc_parse_statements.specs.Counts.{statements_of};
ghost use Rattle.acc_parse_statements.specs.Lines.{IsLineOf, first_lines};
ghost use Rattle.acc_print.specs.Designs.{printed};
ghost use Rattle.acc_form.specs.Judged.{IsJudgedOn};
ghost use Rattle.acc_parse.specs.Texts.{IsDesignText};
ghost use Rattle.acc_parse_readback.specs.TypeTrees.{tree_of};
ghost use Rattle.acc_parse_readback.specs.PrintableTypes.{IsSaid};

/// A design that some text stands for is the one that its print stands for: so the parser reads back each design that it
/// answers.
pub fn prints_are_read_back()
    ensures { (source : List ℕ) (d : Design) → IsDesignText source d → IsDesignText (printed d) d }
{}

/// So is each design whose parts can be said in a text.
pub fn what_is_said_is_read_back()
    ensures { (d : Design) → IsSaid d → IsDesignText (printed d) d }
{}

/// The print has at most 16 bytes for each byte of a text that stands for the design.
pub fn prints_are_short()
    ensures { (source : List ℕ) (d : Design) → IsDesignText source d → length (printed d) ≤ 16 * length source }
{}

/// The words of the print spell the tree of the design.
pub fn prints_spell_trees()
    ensures { (d : Design) → IsSaid d → IsLexed (printed d) (spelled_design (tree_of d)) }
{}

/// Each of its statements stands on a line of its own, in the order of the lines.
pub fn statements_are_lines()
    ensures { (d : Design) (n : ℕ) → IsSaid d → n < statements_of (tree_of d) → IsLineOf (printed d) n (n + 1) }
{}

/// A statement that breaks a form rule is the line of print that is told.
pub fn faults_are_lines()
    ensures statement { (d : Design) (rule : FormRule) (at : ℕ) → IsSaid d → IsJudgedOn d rule at → IsLineOf (printed d) (at - 1) at }
    ensures text { (d : Design) (rule : FormRule) (at : ℕ) → IsSaid d → (j : IsJudgedOn d rule at) →
        first_lines at (printed d) ≡ first_lines (at - 1) (printed d) ++ j.broken.statement.text }
{}
