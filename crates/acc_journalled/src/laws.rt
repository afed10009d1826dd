//! Laws of the definitions.
ghost use Rattle.acc_journalled.specs.Laws.{MakingSaysOne, RecoveringSaysOne};
ghost use Rattle.acc_journalled.specs.Migrating.{MigratingSaysOne};
ghost use Rattle.acc_journalled.specs.Verifying.{VerifyingSaysOne};

/// Of a disk that tells its bytes, making a journal says one thing, where no call of the disk fails. So each refusal comes exactly where
/// its cause stands.
pub fn making_says_one()
    ensures { MakingSaysOne }
{}

/// Of a disk that tells its bytes, recovering a journal says one thing, where no call of the disk fails. So each refusal comes exactly
/// where its cause stands.
pub fn recovering_says_one()
    ensures { RecoveringSaysOne }
{}

/// And so does telling which conditions are true of a recovered journal.
pub fn verifying_says_one()
    ensures { VerifyingSaysOne }
{}

/// And so does making a new journal of an old one's bytes.
pub fn migrating_says_one()
    ensures { MigratingSaysOne }
{}
