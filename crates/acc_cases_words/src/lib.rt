//! What words of a case stand for, and how answers are spelled: what the crates of cases have in common.
#![tactic(auto)]

pub mod causes;
pub mod events;
pub mod rows;
pub mod words;

pub use causes::cause;
pub use events::{event, push_reply, push_unfinished};
pub use rows::{push_row, push_row_answer};
pub use words::{list, number, parted, push_lines, said, small};
