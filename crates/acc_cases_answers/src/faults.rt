//! Shelves and sinks whose calls fail, as lines of cases spell them.
use acc_cases_commands::memory;
use acc_cases_commands::texts::numbers;
use acc_io::{MemShelf, MemSink};
use std::alloc::{AllocError, Global};

/// A shelf some of whose reads fail.
pub fn shelf(alloc: Global, reads: &str) -> Result<MemShelf, AllocError> {
    let reads = numbers(alloc, reads)?;
    memory::empty_shelf(alloc, &reads)
}

/// A sink; the writes of the first list fail, and the others take no more than the second says.
pub fn sink(alloc: Global, writes: &str, takes: &str) -> Result<MemSink, AllocError> {
    let writes = numbers(alloc, writes)?;
    let takes = numbers(alloc, takes)?;
    memory::sink(alloc, &writes, &takes)
}
