//! Writes a certificate.
ghost use Rattle.std.specs.Prelude.{◌≡◌, IfOk, IfErr, IsTrue};
ghost use Rattle.serde_json.specs.Written.{compact_text};
ghost use Rattle.acc_cert_bounds.specs.InBounds.{cert as is_in_bounds};
ghost use Rattle.acc_cert_read.specs.Parts.{Good};
ghost use Rattle.acc_cert_read.specs.Certificates.{cert_in};
ghost use Rattle.acc_cert_read.specs.declared.errors.CertError.TheVariants.{Memory};
ghost use Rattle.acc_cert.specs.SpelledNodes.{cert};

use crate::spelled::Spelled;
use acc_axioms::nodes::Cert;
use acc_cert_read::errors::CertError;
use std::alloc::Global;

/// Writes a certificate, without spaces. Where its numbers are within the bounds, the bytes are read as this certificate.
///
/// `Memory` where memory ran out, and no other error.
pub fn write(alloc: Global, c: &Cert) -> Result<Vec<u8>, CertError>
    ensures value { IfOk result (λ b. b.items ≡ compact_text (cert c.now)) }
    ensures memory { IfErr result (λ e. e ≡ Memory) }
    ensures law { IfOk result (λ b. IsTrue (is_in_bounds c.now) → cert_in b.items ≡ Good c.now) }
{
    let value = c.value(alloc)?;
    Ok(value.to_vec(alloc)?)
}
