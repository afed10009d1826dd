//! What is told of a refused command line: the file, the line and the word, what is wrong, and how to mend it. And of a long
//! one, how far it is.
#![tactic(auto)]

mod audits;
mod behind;
mod damage;
mod explained;
mod journals;
mod keeping;
mod obligations;
mod openings;
mod points;
mod progress;
mod reasons;
mod room;
pub mod statuses;
mod usage;
mod workloads;

pub use damage::cut_line;
pub use explained::explain;
pub use journals::read_name;
pub use keeping::Keeping;
pub use progress::{
    found_line, memory_line, part_line, replay_line, search_line, speed_line, work_line,
};
pub use reasons::system_reason;
pub use room::room_line;
