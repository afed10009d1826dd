//! Certificates that are read and written.
use crate::judged::push_judged;
use crate::texts;
use acc_axioms::nodes::Cert;
use acc_cases_sequents::given::CaseGiven;
use acc_cert::{CertError, read, write};
use std::alloc::{AllocError, Global};
use std::fmt::Write;

fn push_written(
    alloc: Global,
    out: &mut String,
    cert: &Cert,
    bytes: &[u8],
) -> Result<(), AllocError> {
    let Ok(again) = write(alloc, cert) else {
        return Err(AllocError);
    };
    if again.as_slice() == bytes {
        return out.push_str("the same again");
    }
    out.push_str(std::str::from_utf8(&again).unwrap_or("no text"))
}

fn push_again(alloc: Global, out: &mut String, bytes: &[u8]) -> Result<(), AllocError> {
    match read(alloc, bytes) {
        Ok(cert) => push_written(alloc, out, &cert, bytes),
        Err(CertError::NotCert(path)) => texts::push_path(out, path.as_slice()),
        Err(CertError::Memory) => Err(AllocError),
    }
}

/// Pushes what the certificate of a text is written as, or where the text is none.
pub fn push_read(alloc: Global, out: &mut String, text: &str) -> Result<(), AllocError> {
    let bytes = texts::bytes(alloc, text)?;
    push_again(alloc, out, bytes.as_slice())
}

/// The certificate that a text is, if it is one.
pub fn certificate(alloc: Global, text: &str) -> Result<Option<Cert>, AllocError> {
    match read(alloc, text.as_bytes()) {
        Ok(cert) => Ok(Some(cert)),
        Err(CertError::NotCert(_)) => Ok(None),
        Err(CertError::Memory) => Err(AllocError),
    }
}

/// Pushes how many proofs a certificate has.
pub fn push_count(out: &mut String, cert: Option<&Cert>) -> Result<(), AllocError> {
    match cert {
        Some(cert) => write!(out, "{} proofs", cert.proofs.len()),
        None => out.push_str("no certificate"),
    }
}

fn push_first(
    alloc: Global,
    out: &mut String,
    given: &CaseGiven,
    cert: Option<&Cert>,
) -> Result<(), AllocError> {
    match cert {
        Some(cert) => push_judged(alloc, out, given, cert.proofs.as_slice().first(), "a proof"),
        None => out.push_str("no certificate"),
    }
}

/// Pushes whether the first proof of the certificate of a text is one of the sequent.
pub fn push_proved(
    alloc: Global,
    out: &mut String,
    given: &CaseGiven,
    text: &str,
) -> Result<(), AllocError> {
    let cert = certificate(alloc, text)?;
    push_first(alloc, out, given, cert.as_ref())
}
