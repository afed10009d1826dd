//! The search for the proofs of a design's obligations.
use crate::designs::{no_design, read};
use acc_base::designs::Design;
use acc_cert_check::check;
use acc_cert_prove::{InTurn, Proving, prove};
use acc_cert_read::certificates;
use acc_form::well_formed;
use acc_progress::Silent;
use std::alloc::{AllocError, Global};
use std::fmt::Write;

/// What comes of proving the design of a text, if it is one, and well-formed.
fn proving_of(alloc: Global, text: &str) -> Result<Option<Proving>, AllocError> {
    match read(alloc, text)? {
        Some(design) => proving(alloc, &design),
        None => Ok(None),
    }
}

fn proving(alloc: Global, design: &Design) -> Result<Option<Proving>, AllocError> {
    match well_formed(design) {
        Ok(()) => Ok(Some(prove(alloc, design, &InTurn, &mut Silent)?)),
        Err(_) => Ok(None),
    }
}

fn text_of(alloc: Global, bytes: &[u8]) -> Result<String, AllocError> {
    String::from_str(alloc, std::str::from_utf8(bytes).unwrap_or("no text\n"))
}

/// How many proofs a certificate has.
fn counted(alloc: Global, certificate: &[u8]) -> Result<String, AllocError> {
    match certificates::read(alloc, certificate) {
        Ok(certificate) => format!(in alloc; "{} proofs, ", certificate.proofs.len()),
        Err(_) => String::from_str(alloc, "no certificate, "),
    }
}

/// Adds what is told of the design of a text with a certificate.
fn add_checked(
    alloc: Global,
    out: &mut String,
    text: &str,
    certificate: &[u8],
) -> Result<(), AllocError> {
    let Some(design) = read(alloc, text)? else {
        return out.push_str("no design\n");
    };
    let report = check(alloc, design, certificate)?;
    out.push_str(std::str::from_utf8(&report.text).unwrap_or("no text\n"))
}

/// How many proofs a certificate has, and what is told of the design with it.
fn accepted(alloc: Global, text: &str, certificate: &[u8]) -> Result<String, AllocError> {
    let mut out = counted(alloc, certificate)?;
    add_checked(alloc, &mut out, text, certificate)?;
    Ok(out)
}

/// The lines that a search answers; or how many proofs it made, and what is told of the design of the text with them.
fn told(alloc: Global, text: &str, proving: &Proving) -> Result<String, AllocError> {
    match proving {
        Proving::Proved(certificate) => accepted(alloc, text, certificate),
        Proving::Open(lines) | Proving::Wide(lines) => text_of(alloc, lines),
    }
}

/// The lines of the obligations that aren't proved; or how many proofs there are, and what is told of the design with them.
pub fn proved(alloc: Global, text: &str) -> Result<String, AllocError> {
    match proving_of(alloc, text)? {
        Some(proving) => told(alloc, text, &proving),
        None => no_design(alloc),
    }
}

fn certificate(alloc: Global, proving: &Proving) -> Result<String, AllocError> {
    match proving {
        Proving::Proved(certificate) => text_of(alloc, certificate),
        Proving::Open(_) | Proving::Wide(_) => String::from_str(alloc, "not all is proved\n"),
    }
}

/// The certificate, if there is one.
pub fn certificate_of(alloc: Global, text: &str) -> Result<String, AllocError> {
    match proving_of(alloc, text)? {
        Some(proving) => certificate(alloc, &proving),
        None => no_design(alloc),
    }
}

/// Adds a line up to the word before its point.
fn add_kind(out: &mut String, line: &str) -> Result<(), AllocError> {
    match line.split_once(" point") {
        Some((kind, _)) => writeln!(out, "{kind} point"),
        None => writeln!(out, "{line}"),
    }
}

fn add_kinds(out: &mut String, lines: &str) -> Result<(), AllocError> {
    for line in lines.lines() {
        add_kind(out, line)?;
    }
    Ok(())
}

/// The same lines, without the numbers of points.
pub fn kinds_of(alloc: Global, text: &str) -> Result<String, AllocError> {
    let lines = proved(alloc, text)?;
    let mut out = String::new(alloc);
    add_kinds(&mut out, &lines)?;
    Ok(out)
}
