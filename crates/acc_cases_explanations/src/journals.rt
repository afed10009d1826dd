//! What is told of journals beside the answer.
use acc_cases_commands::texts::first_word;
use acc_diagnose::{cut_line, room_line};
use std::alloc::{AllocError, Global};

/// The line, or that there is none.
fn told(alloc: Global, line: Option<String>) -> Result<String, AllocError> {
    match line {
        Some(line) => Ok(line),
        None => String::from_str(alloc, "nothing\n"),
    }
}

/// What is told of the room of a journal with so many events.
pub fn room(alloc: Global, events: &str) -> Result<String, AllocError> {
    let line = room_line(alloc, "accounts", events.parse().unwrap_or(0))?;
    told(alloc, line)
}

/// How to go on with a journal that is refused for that.
pub fn cut(alloc: Global, rest: &str) -> Result<String, AllocError> {
    let (path, why) = first_word(rest);
    let printed = format!(in alloc; "refused journal {why}\n")?;
    let line = cut_line(alloc, path, printed.as_bytes())?;
    told(alloc, line)
}
