//! Whether an axiom is among others.
ghost use Rattle.std.specs.Prelude.{◌≡◌};
ghost use Rattle.std.specs.List.{list_any};
ghost use Rattle.acc_axioms.specs.SchemaEquality.{schema_eq};

use acc_axioms::nodes::Schema;

/// Whether an axiom stands among others.
pub fn is_among(schemas: &[Schema], schema: &Schema) -> bool
    ensures { result ≡ list_any (schema_eq schema.now) schemas.now }
{
    for other in schemas {
        if schema == other {
            return true;
        }
    }
    false
}
