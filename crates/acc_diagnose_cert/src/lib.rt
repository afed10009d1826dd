//! Where a certificate is wrong, and which assertion of a design isn't shown: the words and the places of their messages.
#![tactic(auto)]

mod certificates;
mod json;
mod obligations;
mod parts;
mod rules;
mod shapes;

pub use certificates::{Marked, off_mark, proof_mark, proofs_in};
pub use obligations::{asserted_mark, clause_mark, path_mark};
pub use rules::obligation_hint;
