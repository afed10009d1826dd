//! What is answered to rows of tables that show a refusal.
use crate::answers::{play, print};
use crate::rows::DocumentRow;
use acc_cases_commands::texts::with_feeds;
use std::alloc::{AllocError, Global};

/// What is answered to the design with a piece exchanged.
pub fn of_change(alloc: Global, design: &str, row: &DocumentRow) -> Result<String, AllocError> {
    let old = with_feeds(alloc, row.first.as_str())?;
    let new = with_feeds(alloc, row.second.as_str())?;
    match design.split_once(old.as_str()) {
        Some((before, after)) => {
            let text = format!(in alloc; "{before}{new}{after}")?;
            print(alloc, text.as_str())
        }
        None => String::from_str(alloc, "no such piece"),
    }
}

/// What is answered to a script and an order.
pub fn of_script(alloc: Global, design: &str, row: &DocumentRow) -> Result<String, AllocError> {
    play(alloc, design, row.first.as_str(), row.second.as_str())
}
