//! What the lists of a sequent are.
use acc_base::forms::{Form, Lin};
use acc_base::sequences::Seq;
pub use acc_prover_choices::listing::InstError;

/// Instances, each a hypothesis's number with values for its own variables, and forms to split by.
#[derive(Drop)]
pub struct Listed {
    pub splits: Seq<Form>,
    pub insts: Seq<(u32, Seq<Lin>)>,
}
