//! Whether a design is accepted with the bytes of a certificate.
ghost use Rattle.std.specs.Prelude.{◌≡◌, ◌≢◌, ◌++◌, false, codes, IfOk};
ghost use Rattle.std.specs.Fmt.{decimal};
ghost use Rattle.acc_base.specs.Lines.{line};
ghost use Rattle.acc_base.specs.Numbering.{form_rule_number};
ghost use Rattle.acc_accept.specs.declared.refusals.Refusal.TheVariants.{Memory as OutOfMemory};
ghost use Rattle.acc_page.specs.Written.{Adds};
ghost use Rattle.acc_oblig_origins.specs.Origins.{origin_text, path_text};
ghost use Rattle.acc_cert_check.specs.Reports.{Reports, reason_text};
ghost use Rattle.acc_cert_check.specs.Admissions.{Admits, AdmitsWith};

use acc_accept::{Refusal, accept};
use acc_axioms::nodes::Cert;
use acc_base::designs::Design;
use acc_base::rules::FormRule;
use acc_base::sequents::Origin;
use acc_cert_read::certificates::read;
use acc_cert_read::errors::CertError;
use acc_lift::Accepted;
use acc_oblig_origins::origins::{push_origin, push_path};
use acc_page::Page;
use std::alloc::{AllocError, Global};

/// A design that is accepted with the bytes of a certificate, or the line that says why it isn't.
#[derive(Drop)]
pub enum Admission {
    Accepted(Accepted),
    Refused(Vec<u8>),
}

/// Whether a design is accepted, and the line that says so, or why not.
#[derive(Drop)]
pub struct Report {
    pub accepted: bool,
    pub text: Vec<u8>,
}

/// A label, and where an obligation comes from.
fn push_labelled(out: &mut Page, label: &[u8], d: &Design, origin: &Origin)
    ensures { Adds out.old out.new (label.now ++ origin_text d.now origin.now) }
{
    out.push(label);
    push_origin(out, d, origin)
}

fn push_rule(out: &mut Page, rule: FormRule, line: u64)
    ensures { Adds out.old out.new (codes "form " ++ (decimal (form_rule_number rule) ++ (codes " " ++ decimal line))) }
{
    out.push(b"form ");
    out.push_number(rule.number());
    out.push(b" ");
    out.push_number(line)
}

/// Why a design isn't accepted; want of memory is no reason that is written.
fn push_reason(out: &mut Page, d: &Design, refusal: &Refusal)
    ensures text { Adds out.old out.new (reason_text d.now refusal.now) }
    ensures other { out.new.cut ≡ false → refusal.now ≢ OutOfMemory }
{
    match refusal {
        Refusal::Form(rule, line) => push_rule(out, *rule, *line),
        Refusal::ObligWide(origin) => push_labelled(out, b"wide ", d, origin),
        Refusal::Missing(origin) => push_labelled(out, b"missing ", d, origin),
        Refusal::ProofWide(origin) => push_labelled(out, b"wide ", d, origin),
        Refusal::NotProved(origin) => push_labelled(out, b"proof ", d, origin),
        Refusal::Memory => out.cut_off(),
    }
}

/// What is said of bytes that are no certificate; the part at this path is off.
fn bytes_refused(alloc: Global, path: &[u64]) -> Result<Vec<u8>, AllocError>
    ensures { IfOk result (λ text. text.items ≡ line (codes "refused certificate " ++ path_text path.now)) }
{
    let mut text = Page::new(alloc);
    text.push(b"refused certificate ");
    push_path(&mut text, path);
    text.push(b"\n");
    text.finish().ok_or(AllocError)
}

/// What is said of a design that is refused with a certificate.
fn design_refused(alloc: Global, d: &Design, refusal: &Refusal) -> Result<Vec<u8>, AllocError>
    ensures text { IfOk result (λ text. text.items ≡ line (codes "refused " ++ reason_text d.now refusal.now)) }
    ensures other { IfOk result (λ text. refusal.now ≢ OutOfMemory) }
{
    let mut text = Page::new(alloc);
    text.push(b"refused ");
    push_reason(&mut text, d, refusal);
    text.push(b"\n");
    text.finish().ok_or(AllocError)
}

/// Accepts a design with a certificate.
fn admit_with(alloc: Global, d: Design, certificate: &Cert) -> Result<Admission, AllocError>
    ensures { IfOk result (AdmitsWith d certificate.now) }
{
    match accept(alloc, d, certificate) {
        Ok(accepted) => Ok(Admission::Accepted(accepted)),
        Err((refusal, d)) => Ok(Admission::Refused(design_refused(alloc, &d, &refusal)?)),
    }
}

/// Accepts a design with the bytes of a certificate: whether they are a certificate, and then whether it proves each obligation of
/// the design. Else it tells why not, by the line that `check` says. `AllocError` where memory ran out.
pub fn admit(alloc: Global, d: Design, bytes: &[u8]) -> Result<Admission, AllocError>
    ensures { IfOk result (Admits d bytes.now) }
{
    match read(alloc, bytes) {
        Ok(certificate) => admit_with(alloc, d, &certificate),
        Err(CertError::NotCert(path)) => {
            Ok(Admission::Refused(bytes_refused(alloc, path.as_slice())?))
        }
        Err(CertError::Memory) => Err(AllocError),
    }
}

/// Whether a design is accepted with the bytes of a certificate: whether they are a certificate, and then whether it proves
/// each obligation of the design. `AllocError` where memory ran out.
pub fn check(alloc: Global, d: Design, bytes: &[u8]) -> Result<Report, AllocError>
    ensures { IfOk result (λ r. Reports d bytes.now r.accepted r.text.items) }
{
    match admit(alloc, d, bytes)? {
        Admission::Accepted(_) => Ok(Report {
            accepted: true,
            text: b"accepted\n".to_vec(alloc)?,
        }),
        Admission::Refused(text) => Ok(Report {
            accepted: false,
            text,
        }),
    }
}
