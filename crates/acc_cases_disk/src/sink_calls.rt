//! The calls of a sink by name.
use crate::words::{bytes, ended, numbers, said, split};
use acc_io::{Failed, MemSink, Sink, StdSink, write_all};
use std::alloc::{AllocError, Global};

/// A sink without a byte; the writes of the first list fail, and the second says how much each takes at most.
pub fn fresh(alloc: Global, lists: &str) -> Result<MemSink, AllocError> {
    let (fails, takes) = split(lists);
    let fails = numbers(alloc, fails)?;
    let takes = numbers(alloc, takes)?;
    MemSink::new(alloc, &fails, &takes).map_err(|_| AllocError)
}

fn renew(alloc: Global, sink: &mut MemSink, lists: &str) -> Result<String, AllocError> {
    *sink = fresh(alloc, lists)?;
    said(alloc, "fresh")
}

fn write<K: Sink>(alloc: Global, sink: &mut K, piece: &[u8]) -> Result<String, AllocError> {
    match sink.write(piece) {
        Ok(count) => format!(in alloc; "{count}"),
        Err(Failed) => ended(alloc, false),
    }
}

/// What the call of those words answers.
pub fn answer(alloc: Global, sink: &mut MemSink, words: &str) -> Result<String, AllocError> {
    let (name, rest) = split(words);
    match name {
        "new" => renew(alloc, sink, rest),
        "write" => write(alloc, sink, bytes(rest)),
        "all" => ended(alloc, write_all(sink, bytes(rest)).is_ok()),
        "bytes" => format!(in alloc; "{:?}", sink.bytes()),
        "refused" => format!(in alloc; "{}", sink.refused()),
        _ => said(alloc, "no call"),
    }
}

/// Writes a line to standard output; answers what a write of nothing behind it does, or that the line wasn't written.
pub fn answer_of_standard<R: Print + AllocGlobal>(
    rt: &R,
    line: &str,
) -> Result<String, AllocError> {
    let mut sink = StdSink::new(rt);
    if write_all(&mut sink, line.as_bytes()).is_err() || write_all(&mut sink, b"\n").is_err() {
        return ended(rt.alloc(), false);
    }
    write(rt.alloc(), &mut sink, b"")
}
