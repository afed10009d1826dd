//! Nodes, proofs and certificates as they are written.
use crate::spelled::{Spelled, four, one, three, two};
use acc_axioms::nodes::{Cert, Node, Proof, Schema};
use acc_farkas::refuting::Mults;
use serde_json::Value;
use std::alloc::{AllocError, Global};

impl Spelled for Mults {
    ghost use Rattle.acc_cert.specs.SpelledNodes.{mults};

    ghost spelled = { mults };

    fn value(&self, alloc: Global) -> Result<Value, AllocError> {
        self.of.value(alloc)
    }
}

/// The arguments of an axiom, without its number.
impl Spelled for Schema {
    ghost use Rattle.acc_cert.specs.SpelledNodes.{arguments};

    ghost spelled = { arguments };

    fn value(&self, alloc: Global) -> Result<Value, AllocError> {
        match self {
            Schema::Has(table, key) => two(alloc, table, key),
            Schema::Count(table, prefix) => two(alloc, table, prefix),
            Schema::Front(table, key, front) => three(alloc, table, key, front),
            Schema::Same(first, second) => two(alloc, first, second),
            Schema::NoCol(table, key, column) => three(alloc, table, key, column),
            Schema::NoSum(table, prefix, column) => three(alloc, table, prefix, column),
            Schema::OneCount(table, key) => two(alloc, table, key),
            Schema::OneSum(table, key, column) => three(alloc, table, key, column),
            Schema::Opened(unknown) => one(alloc, unknown),
            Schema::Shut(unknown, place, side) => three(alloc, unknown, place, side),
            Schema::Empty(unknown) => one(alloc, unknown),
            Schema::Fresh(table, key) => two(alloc, table, key),
        }
    }
}

impl Spelled for Node {
    ghost use Rattle.acc_cert.specs.SpelledNodes.{node_data};

    ghost spelled = { node_data };

    fn value(&self, alloc: Global) -> Result<Value, AllocError> {
        match self {
            Node::Split(form) => two(alloc, &"split", form),
            Node::Inst(hypothesis, own, shown) => four(alloc, &"inst", hypothesis, own, shown),
            Node::Axiom(schema, shown) => four(
                alloc,
                &"axiom",
                &schema.kind().number(),
                schema,
                shown,
            ),
            Node::Leaf(multipliers) => two(alloc, &"leaf", multipliers),
        }
    }
}

impl Spelled for Proof {
    ghost use Rattle.acc_cert.specs.SpelledNodes.{proof};

    ghost spelled = { proof };

    fn value(&self, alloc: Global) -> Result<Value, AllocError> {
        self.nodes.value(alloc)
    }
}

impl Spelled for Cert {
    ghost use Rattle.acc_cert.specs.SpelledNodes.{cert};

    ghost spelled = { cert };

    fn value(&self, alloc: Global) -> Result<Value, AllocError> {
        self.proofs.value(alloc)
    }
}
