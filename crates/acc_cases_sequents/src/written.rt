//! How splits and instances are printed: as the nodes of a certificate.
use acc_axioms::nodes::{Cert, Node, Proof};
use acc_base::forms::{Form, Lin};
use acc_base::sequences::{Seq, copied};
use acc_cert::write;
use std::alloc::{AllocError, Global};

/// A certificate of these nodes, as a text.
pub fn written(alloc: Global, nodes: Seq<Node>) -> Result<String, AllocError> {
    let mut proofs = Seq::new(alloc);
    proofs.push(Proof { nodes })?;
    match write(alloc, &Cert { proofs }) {
        Ok(bytes) => String::from_str(alloc, std::str::from_utf8(&bytes).unwrap_or("no text")),
        Err(_) => Err(AllocError),
    }
}

/// Adds splits by these forms.
pub fn add_splits(nodes: &mut Seq<Node>, forms: &[Form]) -> Result<(), AllocError> {
    for form in forms {
        nodes.push(Node::Split(copied(form)?))?;
    }
    Ok(())
}

/// Adds these instances without multipliers.
pub fn add_instances(
    alloc: Global,
    nodes: &mut Seq<Node>,
    insts: &[(u32, Seq<Lin>)],
) -> Result<(), AllocError> {
    for (hypothesis, values) in insts {
        let values = copied(values)?;
        nodes.push(Node::Inst(*hypothesis, values, Seq::new(alloc)))?;
    }
    Ok(())
}
