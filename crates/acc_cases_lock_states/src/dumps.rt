//! The rows of a state as they are dumped.
use acc_base::designs::Design;
use acc_cases_words::words::push_lines;
use acc_dump::dump;
use acc_store::MapStore;
use std::alloc::{AllocError, Global};

/// Pushes the lines of the rows, with ` / ` between two.
pub fn push_dump(
    alloc: Global,
    out: &mut String,
    design: &Design,
    store: &MapStore,
) -> Result<(), AllocError> {
    push_lines(out, &dump(alloc, design, store)?)
}
