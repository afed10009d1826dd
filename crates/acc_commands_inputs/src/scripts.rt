//! Reading a script and an order, and what is said of one that is refused.
ghost use Rattle.std.specs.Prelude.{◌≡◌, ◌++◌, length, IfOk};
ghost use Rattle.std.specs.Fmt.{decimal};
ghost use Rattle.acc_base.specs.Lines.{line};
ghost use Rattle.acc_journalled.specs.declared.answers.Ending.TheVariants.{ScriptRefused};
ghost use Rattle.acc_commands_inputs.specs.ReadScripts.{ReadsScript, ReadsOrder};
ghost use Rattle.acc_commands_inputs.specs.Answers.{said_alone};
ghost use Rattle.acc_commands_inputs.specs.Text.{Says};

use acc_base::designs::Design;
use acc_base::machines::Call;
use acc_base::sequences::Seq;
use acc_journalled::{Answer, Ending, one_line};
use acc_script::{ScriptError, calls, order};
use std::alloc::{AllocError, Global};

/// The calls of a script, or what is answered where it is refused.
#[derive(Drop)]
pub enum ReadScript {
    Read(Seq<Call>),
    Refused(Answer),
}

/// The places of an order, or what is answered where it is refused.
#[derive(Drop)]
pub enum ReadOrder {
    Read(Seq<u64>),
    Refused(Answer),
}

/// What is answered to a text of which a line is refused; the label says which text.
fn line_refusal(alloc: Global, label: &str, at: u64) -> Result<Answer, AllocError>
    ensures { IfOk result (λ a. Says ScriptRefused (line (label.now ++ decimal at)) (said_alone a)) }
{
    let text = format!(in alloc; "{label}{at}")?;
    Ok(one_line(alloc, Ending::ScriptRefused, text.as_str())?)
}

/// Reads a script: calls of a design's types.
pub fn read_script(alloc: Global, d: &Design, file: &[u8]) -> Result<ReadScript, AllocError>
    ensures { IfOk result (ReadsScript d.now file.now) }
{
    match calls(alloc, d, file) {
        Ok(asked) => Ok(ReadScript::Read(asked)),
        Err(ScriptError::Line(at)) => {
            Ok(ReadScript::Refused(line_refusal(alloc, "refused script ", at)?))
        }
        Err(ScriptError::Memory) => Err(AllocError),
    }
}

/// Reads an order: places of calls.
pub fn read_order(alloc: Global, asked: &[Call], file: &[u8]) -> Result<ReadOrder, AllocError>
    ensures { IfOk result (ReadsOrder asked.now file.now) }
{
    match order(alloc, asked.len() as u64, file) {
        Ok(places) => Ok(ReadOrder::Read(places)),
        Err(ScriptError::Line(at)) => {
            Ok(ReadOrder::Refused(line_refusal(alloc, "refused order ", at)?))
        }
        Err(ScriptError::Memory) => Err(AllocError),
    }
}
