//! What a person is told of a file that is refused: the words of each message, and how it is laid out.
#![tactic(auto)]

mod files;
mod limits;
mod numbers;
mod reports;
mod rules;
mod spots;
mod texts;

pub use files::{absent_text, failed_text, memory_text, push_long, sink_text};
pub use limits::{push_limit, push_limit_hint};
pub use numbers::{push_grouped, push_with};
pub use reports::{begin_note, end_note, line_at, push_note, push_report};
pub use rules::{push_rule, rule_hint};
pub use spots::Spot;
pub use texts::push_quoted;
