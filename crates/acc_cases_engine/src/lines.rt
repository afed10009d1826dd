//! How the answer of a schedule over a journal is spelled.
use acc_cases_words::words::push_lines;
use acc_disk::MemDisk;
use acc_journalled::{Answer, Ended, Ending};
use std::alloc::AllocError;
use std::fmt::Write;

/// How a run ended, in a word.
fn word(ending: Ending) -> &'static str {
    match ending {
        Ending::Done => "done",
        Ending::Unbegun => "unbegun",
        Ending::JournalRefused => "refused",
        Ending::DiskFailed => "failed",
        Ending::DesignRefused | Ending::ScriptRefused => "otherwise",
        Ending::Open | Ending::ConditionFalse => "otherwise",
    }
}

/// Pushes the lines that were said, and how the run ended.
fn push_said(out: &mut String, answer: &Answer) -> Result<(), AllocError> {
    if !answer.text.is_empty() {
        push_lines(out, &answer.text)?;
        out.push_str(" / ")?;
    }
    out.push_str(word(answer.ending))
}

/// Pushes what a run answered, how many events are durable, of how many, and how many calls the disk has had.
pub fn push_run(out: &mut String, run: &Ended<MemDisk>) -> Result<(), AllocError> {
    match &run.answer {
        Ok(answer) => push_said(out, answer)?,
        Err(_) => out.push_str("memory")?,
    }
    let all = run.history.len();
    write!(
        out,
        ", durable {} of {all}, {} calls / ",
        run.settled,
        run.disk.calls()
    )
}
