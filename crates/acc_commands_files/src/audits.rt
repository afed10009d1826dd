//! Judging a journal by a design.
ghost use Rattle.std.specs.Prelude.{◌≡◌, ◌≤◌, ◌^◌, length, IfOk, Ok, Err};
ghost use Rattle.acc_formed.specs.WellFormed.{IsWellFormed};
ghost use Rattle.acc_commands_inputs.specs.Answers.{said_alone};
ghost use Rattle.acc_audit_journal.specs.JudgementLines.{judgement_line};
ghost use Rattle.acc_journalled.specs.Recovering.{IsRecoverError};
ghost use Rattle.acc_commands_files.specs.Auditing.{ending_of, refusal_of, SaysJudged, SaysAudit, AuditsFiles};

use crate::pages::finished;
use acc_audit_journal::{JudgeError, Judgement, judge, push_judgement};
use acc_base::designs::Design;
use acc_commands_inputs::{AuditFiles, ReadDesign, read_design};
use acc_journalled::{Answer, Ending, not_recovered};
use acc_page::Page;
use acc_progress::Progress;
use acc_recover::RecoverError;
use std::alloc::{AllocError, Global};

/// How a command ends by a judgement.
fn ending_of(judgement: &Judgement) -> Ending
    ensures { result ≡ ending_of judgement.now }
{
    match judgement {
        Judgement::Clean(_) => Ending::Done,
        Judgement::False(_, _, _, _) | Judgement::Large(_, _, _) => Ending::ConditionFalse,
    }
}

/// What is answered by a judgement.
fn judged(alloc: Global, judgement: Judgement) -> Result<Answer, AllocError>
    ensures { IfOk result (λ a. SaysJudged (Ok judgement) (said_alone a)) }
{
    let ending = ending_of(&judgement);
    let mut text = Page::new(alloc);
    push_judgement(&mut text, &judgement);
    finished(text, ending)
}

/// Why nothing is recovered of a journal that isn't judged for this cause.
fn refusal_of(error: JudgeError) -> RecoverError
    ensures { result ≡ refusal_of error }
{
    match error {
        JudgeError::Journal(why) => RecoverError::Journal(why),
        JudgeError::OtherDesign => RecoverError::OtherDesign,
        JudgeError::NotRun(at) => RecoverError::Unlawful(at),
        JudgeError::Memory => RecoverError::Memory,
    }
}

/// What is answered where a journal isn't judged.
fn not_judged(alloc: Global, error: JudgeError) -> Result<Answer, AllocError>
    requires { IsRecoverError (refusal_of error) }
    ensures { IfOk result (λ a. SaysJudged (Err error) (said_alone a)) }
{
    not_recovered(alloc, refusal_of(error))
}

/// Judges a journal by a design.
fn audit_design<P: Progress>(
    alloc: Global,
    d: &Design,
    journal: &[u8],
    progress: &mut P,
) -> Result<Answer, AllocError>
    requires formed { IsWellFormed d.now }
    requires short { length journal.now ≤ 2 ^ 26 }
    ensures { IfOk result (λ a. SaysAudit d.now journal.now (said_alone a)) }
{
    match judge(alloc, d, journal, progress) {
        Ok(judgement) => judged(alloc, judgement),
        Err(error) => not_judged(alloc, error),
    }
}

/// Judges a journal by the design of a text: whether after one of its events a clause is false that is asserted then, whoever wrote it. No
/// certificate is asked for, and nothing is recovered. How far it is, is told behind each event.
pub fn audit_files<P: Progress>(
    alloc: Global,
    files: AuditFiles,
    progress: &mut P,
) -> Result<Answer, AllocError>
    requires { length files.journal.now ≤ 2 ^ 26 }
    ensures { IfOk result (λ a. AuditsFiles files.entry.design.now files.entry.journal.now (said_alone a)) }
{
    match read_design(alloc, files.design)? {
        ReadDesign::Read(d) => audit_design(alloc, &d, files.journal, progress),
        ReadDesign::Refused(answer) => Ok(answer),
    }
}
