//! Cases of TPC-C's workload: its words, its load, its mix and its order.
//!
//! `pcg STATE STREAM COUNT` gives the first words of PCG32, and `words START COUNT` those that a workload is drawn from. `load W I C` gives
//! a load's lines, and `load W I C LINE` the one of this number, from 1; `mix W I C COUNT START` a mix's lines, and `order W I C COUNT
//! START` the numbers of its order. A number out of its bounds is brought to the nearest within them.
#![tactic(auto)]

mod answers;
mod numbers;

pub use answers::answer;
