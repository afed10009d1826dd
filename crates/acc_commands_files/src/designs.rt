//! Designs printed, drawn, and checked with certificates.
ghost use Rattle.std.specs.Prelude.{◌≡◌, [], IfOk};
ghost use Rattle.acc_commands_inputs.specs.Answers.{said_alone};
ghost use Rattle.acc_commands_files.specs.PrintFiles.{PrintsFile, DrawsFile};
ghost use Rattle.acc_commands_files.specs.CheckFiles.{ChecksFiles, ending_by};

use acc_commands_inputs::{CertifiedFiles, ReadDesign, Report, check, read_design};
use acc_draw::draw;
use acc_journalled::{Answer, Ending};
use acc_print::{PrintError, print};
use std::alloc::{AllocError, Global};

/// Prints a design in its one spelling.
pub fn print_file(alloc: Global, design: &[u8]) -> Result<Answer, AllocError>
    ensures { IfOk result (λ a. PrintsFile design.now (said_alone a)) }
{
    match read_design(alloc, design)? {
        ReadDesign::Read(d) => match print(alloc, &d) {
            Ok(text) => Ok(Answer {
                ending: Ending::Done,
                text,
            }),
            Err(PrintError::Memory) => Err(AllocError),
        },
        ReadDesign::Refused(answer) => Ok(answer),
    }
}

/// Prints the picture of a design.
pub fn draw_file(alloc: Global, design: &[u8]) -> Result<Answer, AllocError>
    ensures { IfOk result (λ a. DrawsFile design.now (said_alone a)) }
{
    match read_design(alloc, design)? {
        ReadDesign::Read(d) => match draw(alloc, &d) {
            Ok(text) => Ok(Answer {
                ending: Ending::Done,
                text,
            }),
            Err(PrintError::Memory) => Err(AllocError),
        },
        ReadDesign::Refused(answer) => Ok(answer),
    }
}

/// The answer of a report.
fn reported(report: Report) -> Answer
    ensures { said_alone result ≡ record { ending = ending_by report.accepted; text = report.text.items; history = [] } }
{
    let ending = if report.accepted {
        Ending::Done
    } else {
        Ending::DesignRefused
    };
    Answer {
        ending,
        text: report.text,
    }
}

/// Tells whether a design is accepted with a certificate.
pub fn check_files(alloc: Global, files: CertifiedFiles) -> Result<Answer, AllocError>
    ensures { IfOk result (λ a. ChecksFiles files.entry.design.now files.entry.certificate.now (said_alone a)) }
{
    match read_design(alloc, files.design)? {
        ReadDesign::Read(d) => Ok(reported(check(alloc, d, files.certificate)?)),
        ReadDesign::Refused(answer) => Ok(answer),
    }
}
