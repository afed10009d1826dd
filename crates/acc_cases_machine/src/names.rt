//! A name that stands twice, as in no design that a text spells.
use acc_base::designs::{Design, TxType};
use acc_base::sequences::{Text, copied};
use std::alloc::AllocError;

/// The name of a design's first type again, if it has one.
fn first_name(design: &Design) -> Result<Option<Text>, AllocError> {
    match design.types.as_slice().first() {
        Some(first) => Ok(Some(copied(&first.name)?)),
        None => Ok(None),
    }
}

/// The type under another name.
fn renamed(mut kind: TxType, name: Text) -> TxType {
    kind.name = name;
    kind
}

/// Gives the last type of a design the name of its first.
pub fn rename(design: &mut Design) -> Result<(), AllocError> {
    let name = first_name(design)?;
    match (design.types.pop(), name) {
        (Some(last), Some(name)) => design.types.push(renamed(last, name)),
        (Some(last), None) => design.types.push(last),
        (None, _) => Ok(()),
    }
}
