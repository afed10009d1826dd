//! A benchmark's run: a load, then a mix of calls in a given order, in memory, by the rules of locks; and what is told of it.
#![tactic(auto)]

mod answers;
mod benches;
mod conditions;
mod counts;
mod results;
mod runs;

pub use answers::{bench_answer, count_lines};
pub use benches::{bench, load_and_mix};
pub use conditions::judge;
pub use results::{Benched, FalseCondition, Loaded, Mixed, Ran};
