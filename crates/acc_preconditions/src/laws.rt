//! What the definitions of the law say of paths.
ghost use Rattle.acc_preconditions.specs.Laws.{ActionsAgree};

/// The rows that the actions of a path leave, where no number of them leaves its range, are the rows after the actions.
pub fn a_path_leaves_the_rows_after_its_actions()
    ensures { ActionsAgree }
{}
