//! Why a design isn't accepted with the bytes of a certificate.
ghost use Rattle.std.specs.Prelude.{IfOk};
ghost use Rattle.acc_diagnose_faults.specs.Certificates.{IsJudged, IsJudgedWith};

use acc_accept::{Refusal, accept};
use acc_axioms::nodes::Cert;
use acc_base::designs::Design;
use acc_base::sequences::Seq;
use acc_cert_read::certificates::read;
use acc_cert_read::errors::CertError;
use acc_lift::Accepted;
use std::alloc::{AllocError, Global};

/// Why a design isn't accepted with the bytes of a certificate.
#[derive(Drop)]
pub enum CertFault {
    /// They are no certificate: the part to which these numbers lead is off.
    Bytes(Seq<u64>),
    /// The certificate doesn't prove the design.
    Lacks(Refusal),
}

/// A design that is accepted with a certificate, or one that isn't, and why.
#[derive(Drop)]
pub enum Judged {
    Accepted(Accepted),
    Refused(Design, CertFault),
}

/// Whether a design is accepted with a certificate.
fn judge_with(alloc: Global, d: Design, certificate: &Cert) -> Result<Judged, AllocError>
    ensures { IfOk result (IsJudgedWith d certificate.now) }
{
    match accept(alloc, d, certificate) {
        Ok(accepted) => Ok(Judged::Accepted(accepted)),
        Err((Refusal::Memory, _)) => Err(AllocError),
        Err((refusal, d)) => Ok(Judged::Refused(d, CertFault::Lacks(refusal))),
    }
}

/// Whether a design is accepted with the bytes of a certificate, as the program judges it.
pub fn judge(alloc: Global, d: Design, bytes: &[u8]) -> Result<Judged, AllocError>
    ensures { IfOk result (IsJudged d bytes.now) }
{
    match read(alloc, bytes) {
        Ok(certificate) => judge_with(alloc, d, &certificate),
        Err(CertError::NotCert(path)) => Ok(Judged::Refused(d, CertFault::Bytes(path))),
        Err(CertError::Memory) => Err(AllocError),
    }
}
