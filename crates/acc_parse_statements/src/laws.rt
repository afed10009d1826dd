//! Laws of statements, each proved by the contract of a function that does nothing.
ghost use Rattle.acc_parse_statements.specs.Laws.{EachStatementEnds, OneLineEach};

/// The words of a design have an end for each of its statements.
pub fn each_statement_ends()
    ensures { EachStatementEnds }
{}

/// A statement ends on one line at most.
pub fn one_line_each()
    ensures { OneLineEach }
{}
