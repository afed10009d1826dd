//! Multipliers, axioms, nodes and proofs.
ghost use Rattle.std.specs.Prelude.{◌≡◌, IfOk};
ghost use Rattle.serde_json.specs.View.{view};
ghost use Rattle.acc_cert_read.specs.Parts.{Good};
ghost use Rattle.acc_cert_read.specs.Causes.{TellsOff};
ghost use Rattle.acc_cert_read.specs.Nodes.{schema_of, schema_at, shown_by, axiom_of, node_rest};

use crate::errors::{CertError, off, under};
use crate::parts::{Part, ends, field, item, one, three, two};
use crate::values::word;
use crate::words::NodeWord;
use acc_axioms::kinds::AxiomKind;
use acc_axioms::nodes::{Cert, Node, Proof, Schema};
use acc_farkas::refuting::Mults;
use serde_json::Value;
use std::alloc::Global;

impl Part for Mults {
    ghost use Rattle.acc_cert_read.specs.Nodes.{mults_of};

    ghost shape = { mults_of };

    fn read(alloc: Global, value: &Value) -> Result<Self, CertError> {
        let of = Part::read(alloc, value)?;
        Ok(Mults { of })
    }
}

/// An axiom of a kind with its arguments.
fn schema(alloc: Global, kind: AxiomKind, value: &Value) -> Result<Schema, CertError>
    ensures value { IfOk result (λ x. schema_of kind (view value.now) ≡ Good x) }
    ensures off { TellsOff result (schema_of kind (view value.now)) }
{
    match kind {
        AxiomKind::Has => two(alloc, value, 0).map(|(t, k)| Schema::Has(t, k)),
        AxiomKind::Count => two(alloc, value, 0).map(|(t, p)| Schema::Count(t, p)),
        AxiomKind::Front => three(alloc, value, 0).map(|(t, k, n)| Schema::Front(t, k, n)),
        AxiomKind::Same => two(alloc, value, 0).map(|(u, v)| Schema::Same(u, v)),
        AxiomKind::NoCol => three(alloc, value, 0).map(|(t, k, c)| Schema::NoCol(t, k, c)),
        AxiomKind::NoSum => three(alloc, value, 0).map(|(t, p, c)| Schema::NoSum(t, p, c)),
        AxiomKind::OneCount => two(alloc, value, 0).map(|(t, k)| Schema::OneCount(t, k)),
        AxiomKind::OneSum => three(alloc, value, 0).map(|(t, k, c)| Schema::OneSum(t, k, c)),
        AxiomKind::Opened => one(alloc, value, 0).map(|u| Schema::Opened(u)),
        AxiomKind::Shut => three(alloc, value, 0).map(|(u, n, side)| Schema::Shut(u, n, side)),
        AxiomKind::Empty => one(alloc, value, 0).map(|u| Schema::Empty(u)),
        AxiomKind::Fresh => two(alloc, value, 0).map(|(t, k)| Schema::Fresh(t, k)),
    }
}

/// The axiom of this number with the arguments that a node has.
fn schema_at(alloc: Global, number: u32, node: &Value) -> Result<Schema, CertError>
    ensures value { IfOk result (λ x. schema_at number (view node.now) ≡ Good x) }
    ensures off { TellsOff result (schema_at number (view node.now)) }
{
    let Some(kind) = AxiomKind::of(number) else {
        return Err(under(1, off(alloc)));
    };
    let arguments = item(alloc, node, 2)?;
    match schema(alloc, kind, arguments) {
        Ok(schema) => Ok(schema),
        Err(cause) => Err(under(2, cause)),
    }
}

/// An axiom with the multipliers that a node has for its facts.
fn shown(alloc: Global, schema: Schema, node: &Value) -> Result<Node, CertError>
    ensures value { IfOk result (λ x. shown_by schema (view node.now) ≡ Good x) }
    ensures off { TellsOff result (shown_by schema (view node.now)) }
{
    let multipliers = field(alloc, node, 3)?;
    ends(alloc, node, 4, Node::Axiom(schema, multipliers))
}

/// An axiom, as a node.
fn axiom(alloc: Global, node: &Value) -> Result<Node, CertError>
    ensures value { IfOk result (λ x. axiom_of (view node.now) ≡ Good x) }
    ensures off { TellsOff result (axiom_of (view node.now)) }
{
    let number = field(alloc, node, 1)?;
    let schema = schema_at(alloc, number, node)?;
    shown(alloc, schema, node)
}

/// What stands behind the word of a node.
fn node_behind(alloc: Global, node: &Value, word: Option<NodeWord>) -> Result<Node, CertError>
    ensures value { IfOk result (λ x. node_rest word (view node.now) ≡ Good x) }
    ensures off { TellsOff result (node_rest word (view node.now)) }
{
    match word {
        Some(NodeWord::Split) => Ok(Node::Split(one(alloc, node, 1)?)),
        Some(NodeWord::Inst) => {
            let (hypothesis, own, multipliers) = three(alloc, node, 1)?;
            Ok(Node::Inst(hypothesis, own, multipliers))
        }
        Some(NodeWord::Axiom) => axiom(alloc, node),
        Some(NodeWord::Leaf) => Ok(Node::Leaf(one(alloc, node, 1)?)),
        None => Err(under(0, off(alloc))),
    }
}

impl Part for Node {
    ghost use Rattle.acc_cert_read.specs.Nodes.{node_of};

    ghost shape = { node_of };

    fn read(alloc: Global, value: &Value) -> Result<Self, CertError> {
        let word = word(alloc, value)?;
        node_behind(alloc, value, NodeWord::named(word))
    }
}

impl Part for Proof {
    ghost use Rattle.acc_cert_read.specs.Nodes.{proof_of};

    ghost shape = { proof_of };

    fn read(alloc: Global, value: &Value) -> Result<Self, CertError> {
        let nodes = Part::read(alloc, value)?;
        Ok(Proof { nodes })
    }
}

impl Part for Cert {
    ghost use Rattle.acc_cert_read.specs.Certificates.{cert_of};

    ghost shape = { cert_of };

    fn read(alloc: Global, value: &Value) -> Result<Self, CertError> {
        let proofs = Part::read(alloc, value)?;
        Ok(Cert { proofs })
    }
}
