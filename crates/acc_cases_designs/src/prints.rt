//! The print of designs that no text spells.
use crate::designs::{no_design, read};
use acc_base::designs::{Design, Entry};
use acc_base::sequences::Seq;
use acc_print::{PrintError, print};
use std::alloc::{AllocError, Global};
use std::mem;

/// The pairs of the entry: the parameter with itself, and the first local with the number of the transaction, behind the
/// three locals.
const PAIRS: [(u32, u32); 2] = [(0, 0), (1, 3)];

fn set_pairs(alloc: Global, entries: &mut [Entry]) -> Result<(), AllocError> {
    if let Some(entry) = entries.last_mut() {
        entry.pairs = Seq::from_vec(Vec::from_slice(alloc, &PAIRS)?);
    }
    Ok(())
}

fn change_entry(alloc: Global, design: &mut Design) -> Result<(), AllocError> {
    let mut entries = mem::replace(&mut design.entries, Seq::new(alloc)).into_vec();
    let done = set_pairs(alloc, &mut entries);
    design.entries = Seq::from_vec(entries);
    done
}

/// The print of a design.
fn text_of(alloc: Global, design: &Design) -> Result<String, AllocError> {
    match print(alloc, design) {
        Ok(text) => String::from_utf8_lossy(alloc, &text),
        Err(PrintError::Memory) => Err(AllocError),
    }
}

/// The print of a design whose last entry has these pairs.
fn printed_with(alloc: Global, design: &mut Design) -> Result<String, AllocError> {
    change_entry(alloc, design)?;
    text_of(alloc, design)
}

/// The print of the design of a text whose last entry has these pairs.
pub fn printed(alloc: Global, text: &str) -> Result<String, AllocError> {
    match read(alloc, text)? {
        Some(mut design) => printed_with(alloc, &mut design),
        None => no_design(alloc),
    }
}
