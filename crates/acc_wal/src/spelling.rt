// What is spelled at a place of a body.
ghost use Rattle.std.specs.Prelude.{◌≡◌, IfOk, IfErr};
ghost use Rattle.acc_wal.specs.Spelled.{ReadsItem};
ghost use Rattle.acc_wal.specs.declared.errors.WalError.TheVariants.{Memory};

use crate::WalError;
use crate::items::Item;
use crate::reading::item_from;
use std::alloc::Global;

/// The item of a journal of that version whose spelling begins at that place of a batch's body, and the place behind it; nothing exactly
/// where no item of the version is spelled there. Only version 2 has states.
///
/// `Memory` is its only error. It takes time and memory with the item's length.
pub fn spelled(
    alloc: Global,
    body: &[u8],
    at: usize,
    version: u32,
) -> Result<Option<(Item, usize)>, WalError>
    ensures ok { IfOk result (λ found. ReadsItem version body.now at found) }
    ensures why { IfErr result (λ error. error ≡ Memory) }
{
    if at > body.len() {
        return Ok(None);
    }
    match item_from(alloc, &body[at..], version)? {
        Some((item, rest)) => Ok(Some((item, body.len() - rest.len()))),
        None => Ok(None),
    }
}
