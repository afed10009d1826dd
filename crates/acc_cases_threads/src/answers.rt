//! Command lines over the folder's files and a disk in memory.
use acc_cases_commands::{InTurn, IndexStore, Searchers, acc, memory};
use acc_crew::{Alone, Crew};
use acc_disk::MemDisk;
use acc_engine::Engine;
use acc_io::FolderShelf;
use acc_lift::Accepted;
use acc_progress::Silent;
use std::alloc::AllocError;
use std::fs::File;
use std::rt::Files;

/// What a command line printed, its status, and the disk that it handed back.
#[derive(Drop)]
pub struct Answered {
    pub text: String,
    pub status: u8,
    pub disk: MemDisk,
}

/// Answers a command line over a disk by a crew and by searchers.
pub fn answer<
    'd,
    R: Files<File = File> + AllocGlobal,
    C: Crew<Engine<'d, IndexStore, MemDisk>>,
    S: Searchers,
>(
    rt: &R,
    line: &str,
    disk: MemDisk,
    crew: &C,
    searchers: &S,
    slot: &'d mut Option<Accepted>,
) -> Result<Answered, AllocError>
    requires ready { C.ready crew.now }
    requires searching { S.ready searchers.now }
{
    let words = memory::words(rt.alloc(), line)?;
    let mut shelf = FolderShelf::new(rt);
    let mut out = memory::sink(rt.alloc(), &[], &[])?;
    let done = acc(
        rt.alloc(),
        &words,
        &mut shelf,
        &mut out,
        disk,
        crew,
        searchers,
        slot,
        &mut Silent,
    );
    Ok(Answered {
        text: String::from_utf8_lossy(rt.alloc(), out.bytes())?,
        status: done.status,
        disk: done.disk,
    })
}

/// Answers a command line over a disk that holds these bytes, without a worker or a thread.
pub fn answer_alone<R: Files<File = File> + AllocGlobal>(
    rt: &R,
    line: &str,
    bytes: &[u8],
) -> Result<Answered, AllocError> {
    let disk = memory::disk(rt.alloc(), bytes, &[], None)?;
    answer(rt, line, disk, &Alone, &InTurn, &mut None)
}
