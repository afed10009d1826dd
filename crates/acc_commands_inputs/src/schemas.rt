//! Finding TPC-C's tables in a design, and what is said of one that lacks a table.
ghost use Rattle.std.specs.Prelude.{◌≡◌, ◌++◌, codes, IfOk};
ghost use Rattle.std.specs.Fmt.{decimal};
ghost use Rattle.acc_base.specs.Lines.{line};
ghost use Rattle.acc_journalled.specs.declared.answers.Ending.TheVariants.{DesignRefused};
ghost use Rattle.acc_commands_inputs.specs.Answers.{said_alone};
ghost use Rattle.acc_commands_inputs.specs.Schemas.{FindsSchema};
ghost use Rattle.acc_commands_inputs.specs.Text.{Says};

use acc_base::designs::Design;
use acc_journalled::{Answer, Ending, one_line};
use std::alloc::{AllocError, Global};
use tpcc_tables::{SchemaError, TableSet, schema};

/// The numbers of TPC-C's tables in a design, or what is answered where it lacks one.
#[derive(Drop)]
pub enum FoundSchema {
    Found(TableSet),
    Refused(Answer),
}

/// What is answered to a design that lacks the table of TPC-C with this number.
fn schema_refusal(alloc: Global, number: u32) -> Result<Answer, AllocError>
    ensures { IfOk result (λ a. Says DesignRefused (line (codes "refused schema " ++ decimal number)) (said_alone a)) }
{
    let text = format!(in alloc; "refused schema {number}")?;
    Ok(one_line(alloc, Ending::DesignRefused, text.as_str())?)
}

/// Finds TPC-C's tables in a design.
pub fn find_schema(alloc: Global, d: &Design) -> Result<FoundSchema, AllocError>
    ensures { IfOk result (FindsSchema d.now) }
{
    match schema(alloc, d) {
        Ok(tables) => Ok(FoundSchema::Found(tables)),
        Err(SchemaError::Lacks(number)) => {
            Ok(FoundSchema::Refused(schema_refusal(alloc, number)?))
        }
        Err(SchemaError::Memory) => Err(AllocError),
    }
}
