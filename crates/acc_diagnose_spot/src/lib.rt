//! Where in a text something is wrong: the word on a refused line, what is wrong with it, and how to mend it.
#![tactic(auto)]

mod limits;
mod names;
mod numbers;
mod orders;
mod roles;
mod scopes;
mod scripts;
mod statements;

pub use limits::limit_spot;
pub use names::name_spot;
pub use orders::order_spot;
pub use scripts::script_spot;
pub use statements::{bytes_of, is_one_of, line_spot, spot_at, statement_spot};
