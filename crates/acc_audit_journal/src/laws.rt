//! What the definitions say by themselves.
ghost use Rattle.acc_audit_journal.specs.Laws.{JudgesOne, JudgingMeans};

/// One thing is told of a journal's bytes by a design, unless memory ran out. So each answer comes exactly where its cause stands.
pub fn journals_are_judged_once()
    ensures { JudgesOne }
{}

/// What a judgement tells of the truth of the clauses.
pub fn judgements_mean()
    ensures { JudgingMeans }
{}
