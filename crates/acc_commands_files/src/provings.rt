//! Proving the obligations of a design.
ghost use Rattle.std.specs.Prelude.{◌≡◌, [], IfOk};
ghost use Rattle.acc_formed.specs.WellFormed.{IsWellFormed};
ghost use Rattle.acc_commands_files.specs.ProveFiles.{SaysProving, ProvesFile};
ghost use Rattle.acc_commands_inputs.specs.Answers.{said_alone};

use acc_base::designs::Design;
use acc_cert_prove::{Proving, Searchers, prove};
use acc_commands_inputs::{ReadDesign, read_design};
use acc_journalled::{Answer, Ending};
use acc_progress::Progress;
use std::alloc::{AllocError, Global};

/// An answer with this text.
fn said(ending: Ending, text: Vec<u8>) -> Answer
    ensures { said_alone result ≡ record { ending = ending; text = text.items; history = [] } }
{
    Answer { ending, text }
}

/// Proves the obligations of a design that is well-formed.
fn prove_design<S: Searchers, P: Progress>(
    alloc: Global,
    d: &Design,
    searchers: &S,
    progress: &mut P,
) -> Result<Answer, AllocError>
    requires searching { S.ready searchers.now }
    requires formed { IsWellFormed d.now }
    ensures { IfOk result (λ a. SaysProving d.now (said_alone a)) }
{
    match prove(alloc, d, searchers, progress)? {
        Proving::Proved(certificate) => Ok(said(Ending::Done, certificate)),
        Proving::Open(lines) => Ok(said(Ending::Open, lines)),
        Proving::Wide(line) => Ok(said(Ending::DesignRefused, line)),
    }
}

/// Proves the obligations of the design of a text, or tells which aren't proved. It waits for its searchers.
pub fn prove_file<S: Searchers, P: Progress>(
    alloc: Global,
    design: &[u8],
    searchers: &S,
    progress: &mut P,
) -> Result<Answer, AllocError>
    requires { S.ready searchers.now }
    ensures { IfOk result (λ a. ProvesFile design.now (said_alone a)) }
{
    match read_design(alloc, design)? {
        ReadDesign::Read(d) => prove_design(alloc, &d, searchers, progress),
        ReadDesign::Refused(answer) => Ok(answer),
    }
}
