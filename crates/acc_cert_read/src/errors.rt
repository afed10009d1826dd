//! Why bytes are no certificate.
ghost use Rattle.std.specs.Prelude.{◌≡◌, []};
ghost use Rattle.acc_cert_read.specs.declared.errors.CertError.TheVariants.{NotCert, Memory as NoMemory};
ghost use Rattle.acc_cert_read.specs.Causes.{IsUnder};

use acc_base::sequences::Seq;
use std::alloc::{AllocError, AllocFailed, Global};

/// Why bytes are no certificate, or none is written.
#[derive(Drop)]
pub enum CertError {
    /// The bytes are no JSON text, or the first part that isn't of its shape stands at this path: the numbers of the items,
    /// from 0, from the outermost array to that part. The path is empty where the bytes are no JSON text or no array.
    NotCert(Seq<u64>),
    /// Memory ran out.
    Memory,
}

impl From<AllocError> for CertError {
    ghost from_gives = { λ _ e. e ≡ NoMemory };

    fn from(_: AllocError) -> Self {
        CertError::Memory
    }
}

impl<T: Drop> From<AllocFailed<T>> for CertError {
    ghost from_gives = { λ _ e. e ≡ NoMemory };

    fn from(_: AllocFailed<T>) -> Self {
        CertError::Memory
    }
}

/// That a value itself isn't of its shape.
pub fn off(alloc: Global) -> CertError
    ensures { result ≡ NotCert [] }
{
    CertError::NotCert(Seq::new(alloc))
}

/// The cause for an array, by that for its item of this number.
pub fn under(place: usize, cause: CertError) -> CertError
    ensures { IsUnder place cause result }
{
    match cause {
        CertError::NotCert(path) => {
            let mut longer = path.into_vec();
            match longer.insert(0, place as u64) {
                Ok(()) => CertError::NotCert(Seq::from_vec(longer)),
                Err(_) => CertError::Memory,
            }
        }
        CertError::Memory => CertError::Memory,
    }
}
