//! Accepted designs, for cases over them.
#![tactic(auto)]

use acc_accept::accept;
use acc_cert_read::certificates::read;
use acc_lift::Accepted;
use acc_parse::parse;
use std::alloc::{AllocError, Global};
use std::rt::Files;
use std::{fs, io};

/// The design, if it is accepted with the certificate.
fn accepted(
    alloc: Global,
    design: &[u8],
    certificate: &[u8],
) -> Result<Option<Accepted>, AllocError> {
    let Ok(design) = parse(alloc, design) else {
        return Ok(None);
    };
    let Ok(certificate) = read(alloc, certificate) else {
        return Ok(None);
    };
    match accept(alloc, design, &certificate) {
        Ok(design) => Ok(Some(design)),
        Err(_) => Ok(None),
    }
}

/// The design of a file, if it is accepted with the certificate of the other.
fn accepted_file<R: Files + AllocGlobal>(
    rt: &R,
    design: &str,
    certificate: &str,
) -> io::Result<Option<Accepted>> {
    let design = fs::read_to_string(rt, design)?;
    let certificate = fs::read_to_string(rt, certificate)?;
    Ok(accepted(rt.alloc(), design.as_bytes(), certificate.as_bytes())?)
}

/// Takes the design that a line gives by two files, as `design FILE CERTIFICATE`; whether it gives one.
pub fn take<R: Files + AllocGlobal>(
    rt: &R,
    design: &mut Option<Accepted>,
    line: &str,
) -> io::Result<bool> {
    let Some(files) = line.strip_prefix("design ") else {
        return Ok(false);
    };
    let (text, certificate) = files.split_once(' ').unwrap_or((files, ""));
    *design = accepted_file(rt, text, certificate)?;
    Ok(true)
}
