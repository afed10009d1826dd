//! Axioms, the nodes of proofs that name them, and what an axiom needs and adds.
#![tactic(auto)]

pub mod axioms;
mod conditions;
pub mod kinds;
pub mod nodes;
pub mod terms;

pub use axioms::{Need, need_of};
pub use kinds::{Arguments, AxiomKind};
pub use nodes::{ABOVE, BELOW, Cert, Node, Proof, Schema};
pub use terms::{is_zero, lin_form, plain, single};
