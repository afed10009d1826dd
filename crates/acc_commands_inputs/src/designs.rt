//! Reading a design, and what is said of one that is refused.
ghost use Rattle.std.specs.Prelude.{◌≡◌, [], IfOk};
ghost use Rattle.acc_journalled.specs.declared.answers.Ending.TheVariants.{DesignRefused};
ghost use Rattle.acc_commands_inputs.specs.Answers.{said_alone};
ghost use Rattle.acc_commands_inputs.specs.Refusals.{SaysError, SaysRule};
ghost use Rattle.acc_commands_inputs.specs.ReadDesigns.{Reads};

use acc_base::designs::Design;
use acc_base::rules::FormRule;
use acc_form::{FormError, well_formed};
use acc_journalled::{Answer, Ending, one_line};
use acc_parse_readback::{ParseError, parse};
use std::alloc::{AllocError, Global};

/// A design that was read, or what is answered where it is refused.
#[derive(Drop)]
pub enum ReadDesign {
    Read(Design),
    Refused(Answer),
}

/// What is answered where a design is refused with its certificate, by the line that says why.
pub fn design_refused(text: Vec<u8>) -> Answer
    ensures { said_alone result ≡ record { ending = DesignRefused; text = text.items; history = [] } }
{
    Answer {
        ending: Ending::DesignRefused,
        text,
    }
}

/// What is answered to a text that is no design's.
fn text_refusal(alloc: Global, error: ParseError) -> Result<Answer, AllocError>
    ensures { IfOk result (λ a. SaysError error (said_alone a)) }
{
    let text = match error {
        ParseError::Syntax(line) => format!(in alloc; "refused syntax {line}")?,
        ParseError::Name(line) => format!(in alloc; "refused name {line}")?,
        ParseError::Limit(line, limit) => {
            let which = limit.number();
            format!(in alloc; "refused limit {line} {which}")?
        }
        ParseError::Memory => return Err(AllocError),
    };
    Ok(one_line(alloc, Ending::DesignRefused, text.as_str())?)
}

/// What is answered to a design that breaks a form rule.
fn form_refusal(alloc: Global, rule: FormRule, line: u64) -> Result<Answer, AllocError>
    ensures { IfOk result (λ a. SaysRule rule line (said_alone a)) }
{
    let which = rule.number();
    let text = format!(in alloc; "refused form {which} {line}")?;
    Ok(one_line(alloc, Ending::DesignRefused, text.as_str())?)
}

/// Reads a design: its text, and then the form rules.
pub fn read_design(alloc: Global, file: &[u8]) -> Result<ReadDesign, AllocError>
    ensures { IfOk result (Reads file.now) }
{
    let d = match parse(alloc, file) {
        Ok(d) => d,
        Err(error) => return Ok(ReadDesign::Refused(text_refusal(alloc, error)?)),
    };
    match well_formed(&d) {
        Ok(()) => Ok(ReadDesign::Read(d)),
        Err(FormError::Bad(rule, line)) => {
            Ok(ReadDesign::Refused(form_refusal(alloc, rule, line)?))
        }
        Err(FormError::Memory) => Err(AllocError),
    }
}
