//! Designs whose obligations are to be proved.
use crate::memory;
use std::alloc::{AllocError, Global};
use std::fmt::Write;
use std::io;

/// The status of the command `prove` for a design, and what it prints.
fn proved(alloc: Global, design: &str) -> Result<(u8, String), AllocError> {
    let mut shelf = memory::shelf(alloc, design)?;
    let mut out = memory::sink(alloc, &[], &[])?;
    let (status, _) = memory::answer(alloc, "prove design", &mut shelf, &mut out)?;
    Ok((status, String::from_utf8_lossy(alloc, out.bytes())?))
}

/// What the command `check` prints of a design with a certificate.
fn checked(alloc: Global, design: &str, certificate: &str) -> Result<String, AllocError> {
    let mut shelf = memory::certified_shelf(alloc, design, certificate)?;
    let mut out = memory::sink(alloc, &[], &[])?;
    memory::answer(alloc, "check design certificate", &mut shelf, &mut out)?;
    String::from_utf8_lossy(alloc, out.bytes())
}

/// Adds each line up to its point.
fn add_kinds(out: &mut String, lines: &str) -> Result<(), AllocError> {
    for line in lines.lines() {
        let (kind, _) = line.split_once(" point ").unwrap_or((line, ""));
        out.push_str(kind)?;
        out.push_str("\n")?;
    }
    Ok(())
}

/// What is told of the proofs of a design: what `check` prints of it with the certificate that `prove` makes; or else the lines of the
/// open obligations, each up to its point. Then the status of `prove`.
fn told(alloc: Global, design: &str) -> Result<String, AllocError> {
    let (status, text) = proved(alloc, design)?;
    let mut out = String::new(alloc);
    if status == 0 {
        out.push_str(&checked(alloc, design, &text)?)?;
    } else {
        add_kinds(&mut out, &text)?;
    }
    writeln!(out, "status {status}")?;
    Ok(out)
}

/// Tells it.
pub fn tell<R: Print + AllocGlobal>(rt: &R, design: &str) -> io::Result<()> {
    let told = told(rt.alloc(), design)?;
    print!(rt; "{told}")
}

/// Tells whether the command `prove` prints this certificate of a design, and its status.
pub fn compare<R: Print + AllocGlobal>(rt: &R, design: &str, certificate: &str) -> io::Result<()> {
    let (status, text) = proved(rt.alloc(), design)?;
    let said = if text.as_str() == certificate {
        "the same"
    } else {
        "another"
    };
    println!(rt; "{said}\nstatus {status}")
}
