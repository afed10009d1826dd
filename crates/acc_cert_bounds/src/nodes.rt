//! Multipliers, axioms, nodes and proofs.
use crate::bounded::Bounded;
use acc_axioms::nodes::{Node, Proof, Schema};
use acc_farkas::refuting::Mults;

impl Bounded for Mults {
    ghost use Rattle.acc_cert_bounds.specs.InBounds.{mults, mults_near};

    ghost in_bounds = { mults };

    ghost near = { mults_near };

    fn is_in_bounds(&self) -> bool {
        self.of.is_in_bounds()
    }
}

impl Bounded for Schema {
    ghost use Rattle.std.specs.Prelude.{true};
    ghost use Rattle.acc_cert_bounds.specs.InBounds.{schema_in};

    ghost in_bounds = { schema_in };

    ghost near = { λ _. true };

    #[tactic(auto, using(crate::proofs::Near::none_wide))]
    fn is_in_bounds(&self) -> bool {
        match self {
            Schema::Has(table, key)
            | Schema::Count(table, key)
            | Schema::OneCount(table, key)
            | Schema::Fresh(table, key) => table.is_in_bounds() && key.is_in_bounds(),
            Schema::Front(table, key, number)
            | Schema::NoCol(table, key, number)
            | Schema::NoSum(table, key, number)
            | Schema::OneSum(table, key, number) => {
                table.is_in_bounds() && key.is_in_bounds() && number.is_in_bounds()
            }
            Schema::Same(first, second) => first.is_in_bounds() && second.is_in_bounds(),
            Schema::Opened(unknown) | Schema::Empty(unknown) => unknown.is_in_bounds(),
            Schema::Shut(unknown, place, side) => {
                unknown.is_in_bounds() && place.is_in_bounds() && side.is_in_bounds()
            }
        }
    }
}

impl Bounded for Node {
    ghost use Rattle.acc_cert_bounds.specs.InBounds.{node_in, node_near};

    ghost in_bounds = { node_in };

    ghost near = { node_near };

    #[tactic(auto, using(crate::proofs::Near::none_wide))]
    fn is_in_bounds(&self) -> bool {
        match self {
            Node::Split(form) => form.is_in_bounds(),
            Node::Inst(hypothesis, own, shown) => {
                hypothesis.is_in_bounds() && own.is_in_bounds() && shown.is_in_bounds()
            }
            Node::Axiom(schema, shown) => schema.is_in_bounds() && shown.is_in_bounds(),
            Node::Leaf(multipliers) => multipliers.is_in_bounds(),
        }
    }
}

impl Bounded for Proof {
    ghost use Rattle.acc_cert_bounds.specs.InBounds.{proof, nodes_near};

    ghost in_bounds = { proof };

    ghost near = { λ p. nodes_near p.nodes };

    fn is_in_bounds(&self) -> bool {
        self.nodes.is_in_bounds()
    }
}
