//! Copies of what a branch knows.
ghost use Rattle.std.specs.Prelude.{◌≡◌, IfOk};

use acc_axioms::nodes::Schema;
use acc_base::forms::Rel;
use acc_base::sequences::copied;
use std::alloc::{AllocError, Global};

/// Axioms again.
pub fn copied_schemas(alloc: Global, schemas: &[Schema]) -> Result<Vec<Schema>, AllocError>
    ensures { IfOk result (λ v. v.items ≡ schemas.now) }
{
    let mut again = Vec::new(alloc);
    for schema in schemas {
        again.push(copied(schema)?)?;
    }
    Ok(again)
}

/// Relations again.
pub fn copied_rels(alloc: Global, rels: &[Rel]) -> Result<Vec<Rel>, AllocError>
    ensures { IfOk result (λ v. v.items ≡ rels.now) }
{
    let mut again = Vec::new(alloc);
    for rel in rels {
        again.push(copied(rel)?)?;
    }
    Ok(again)
}

/// Numbers again.
pub fn copied_numbers(alloc: Global, numbers: &[usize]) -> Result<Vec<usize>, AllocError>
    ensures { IfOk result (λ v. v.items ≡ numbers.now) }
{
    let mut again = Vec::new(alloc);
    for n in numbers {
        again.push(*n)?;
    }
    Ok(again)
}
