//! What a point with which a search ends shows.
ghost use Rattle.acc_elim_solved.specs.Meetings.{SearchedIsMet};
ghost use Rattle.acc_elim_solved.specs.Rows.{RowsStay};

/// The point with which a search ends has a value for each unknown, and each relation is met there.
pub fn a_point_meets_the_relations()
    ensures { SearchedIsMet }
{}

/// The rows of relations stay as they are when more relations come behind them.
pub fn rows_stay()
    ensures { RowsStay }
{}
