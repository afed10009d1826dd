//! A certificate's file, read and written.
ghost use Rattle.std.specs.Prelude.{◌≡◌, IfOk, IsTrue};
ghost use Rattle.serde_json.specs.Read.{read};
ghost use Rattle.serde_json.specs.View.{view};
ghost use Rattle.acc_cert_bounds.specs.InBounds.{cert as is_in_bounds};
ghost use Rattle.acc_cert_read.specs.Parts.{Good, given, and_then};
ghost use Rattle.acc_cert_read.specs.Causes.{TellsOff};
ghost use Rattle.acc_cert_read.specs.Certificates.{cert_in, cert_of};

use crate::errors::{CertError, off};
use crate::parts::Part;
use acc_axioms::nodes::Cert;
use serde_json::Value;
use std::alloc::Global;

/// The value that a JSON text is.
fn json(alloc: Global, text: &str) -> Result<Value, CertError>
    ensures value { IfOk result (λ v. given (read text.now) ≡ Good (view v)) }
    ensures off { TellsOff result (given (read text.now)) }
{
    match Value::from_str(alloc, text) {
        Ok(value) => Ok(value),
        Err(error) if error.is_memory() => Err(CertError::Memory),
        Err(_) => Err(off(alloc)),
    }
}

/// The certificate that a JSON text is.
fn read_text(alloc: Global, text: &str) -> Result<Cert, CertError>
    ensures value { IfOk result (λ c. and_then (given (read text.now)) cert_of ≡ Good c) }
    ensures off { TellsOff result (and_then (given (read text.now)) cert_of) }
{
    let value = json(alloc, text)?;
    Cert::read(alloc, &value)
}

/// Reads a certificate from its file.
///
/// `NotCert` exactly where the bytes are no JSON text, with the empty path, or where the first part in reading order that isn't
/// of its shape stands at this path. A text that nests deeper than 127 arrays and objects counts as none, and so does one with a
/// number that is too large for a float. `Memory` where memory ran out.
pub fn read(alloc: Global, bytes: &[u8]) -> Result<Cert, CertError>
    ensures value { IfOk result (λ c. cert_in bytes.now ≡ Good c) }
    ensures bounds { IfOk result (λ c. IsTrue (is_in_bounds c)) }
    ensures off { TellsOff result (cert_in bytes.now) }
{
    match std::str::from_utf8(bytes) {
        Ok(text) => read_text(alloc, text),
        Err(_) => Err(off(alloc)),
    }
}
