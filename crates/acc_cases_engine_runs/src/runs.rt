//! Runs of an engine over a journal on a disk.
ghost use Rattle.std.specs.Prelude.{◌≡◌, ◌<◌, ◌^◌, [], false};
ghost use Rattle.acc_script.specs.BeginSizes.{begins_size};
ghost use Rattle.acc_engine.specs.Keeping.{CallsFit};

use crate::calls::asked;
use crate::items::push_items;
use acc_base::machines::Call;
use acc_base::sequences::Seq;
use acc_cases_journals::answers::push_recover_error;
use acc_cases_journals::files::create;
use acc_cases_journals::recoveries::{self, fresh};
use acc_disk::MemDisk;
use acc_lift::Accepted;
use acc_progress::Silent;
use acc_recover::{RecoverError, Recovered, recover};
use acc_settling::over_journal;
use acc_store::MapStore;
use acc_wal::Wal;
use std::alloc::{AllocError, Global};
use std::fmt::Write;

/// What a run is made of: the design, the script's calls, and the items.
#[derive(Clone, Copy)]
pub struct Case<'a> {
    /// Whose calls the script has.
    pub design: &'a Accepted,
    /// The calls, '/' standing for a line feed, and `N*CALL` for a line N times.
    pub script: &'a str,
    /// The calls of the engine and the questions about it, with "; " between two.
    pub items: &'a str,
}

/// Pushes how many events are durable, how many not, and how many calls the disk has had.
fn push_lists(out: &mut String, wal: &Wal<MemDisk>) -> Result<(), AllocError> {
    write!(
        out,
        "durable {} tail {} calls {}; ",
        wal.durable().len(),
        wal.tail().len(),
        wal.disk().calls()
    )
}

/// Pushes what the items answer, of an engine over what was recovered; hands the disk back.
fn push_engine(
    alloc: Global,
    out: &mut String,
    case: &Case,
    recovered: Recovered<MapStore, MemDisk>,
    calls: Seq<Call>,
) -> Result<MemDisk, AllocError>
    requires same { recovered.wal.durable ≡ recovered.state.world.events }
    requires settled { recovered.wal.tail ≡ [] }
    requires quiet { recovered.wal.waiting ≡ [] }
    requires unspent { recovered.wal.spent ≡ false }
    requires fits { CallsFit recovered.state.design calls }
    requires few { begins_size calls < 2 ^ 31 }
{
    let Recovered {
        state,
        wal,
        compensated: _,
    } = recovered;
    let mut engine = over_journal(alloc, state, wal, calls);
    push_items(alloc, out, &mut engine, case.items)?;
    let (_, wal) = engine.give_back();
    push_lists(out, &wal)?;
    Ok(wal.give_back())
}

/// Pushes which part of a run is refused, and why.
fn push_refused(out: &mut String, part: &str, error: RecoverError) -> Result<(), AllocError> {
    write!(out, "{part} ")?;
    push_recover_error(out, error)?;
    out.push_str("; ")
}

/// Pushes the recovery of a journal just made where it fails, and else what the items answer; hands the disk back.
fn push_opened(
    alloc: Global,
    out: &mut String,
    case: &Case,
    calls: Seq<Call>,
    disk: MemDisk,
) -> Result<MemDisk, AllocError>
    requires fits { CallsFit case.now.design.now calls }
    requires few { begins_size calls < 2 ^ 31 }
{
    match recover(alloc, case.design, MapStore::new(alloc), disk, &mut Silent) {
        Ok(recovered) => push_engine(alloc, out, case, recovered, calls),
        Err((error, _, disk)) => {
            push_refused(out, "recover", error)?;
            Ok(disk)
        }
    }
}

/// Pushes what comes of making a journal, and of the calls of an engine over it; hands the disk back.
fn push_made(
    alloc: Global,
    out: &mut String,
    case: &Case,
    calls: Seq<Call>,
    disk: MemDisk,
) -> Result<MemDisk, AllocError>
    requires fits { CallsFit case.now.design.now calls }
    requires few { begins_size calls < 2 ^ 31 }
{
    match create(alloc, case.design.design(), disk) {
        Ok(disk) => push_opened(alloc, out, case, calls, disk),
        Err((error, disk)) => {
            push_refused(out, "create", RecoverError::Journal(error))?;
            Ok(disk)
        }
    }
}

/// Pushes a run on a disk, without its last recovery; hands the disk back.
fn push_front(
    alloc: Global,
    out: &mut String,
    case: &Case,
    disk: MemDisk,
) -> Result<MemDisk, AllocError> {
    match asked(alloc, case.design, case.script)? {
        Some(calls) => push_made(alloc, out, case, calls, disk),
        None => {
            out.push_str("no script; ")?;
            Ok(disk)
        }
    }
}

/// Pushes a run on an empty disk of whose calls this one fails; hands the disk back.
pub fn push_whole(
    alloc: Global,
    out: &mut String,
    case: &Case,
    fails: u64,
) -> Result<MemDisk, AllocError> {
    let disk = push_front(alloc, out, case, fresh(alloc, &[], fails)?)?;
    recoveries::push_recovery(alloc, out, case.design, disk)
}

/// Pushes a run.
pub fn push_run(alloc: Global, out: &mut String, case: &Case) -> Result<(), AllocError> {
    push_whole(alloc, out, case, 0)?;
    Ok(())
}

/// Pushes the last recovery of a run.
pub fn push_recovery(alloc: Global, out: &mut String, case: &Case) -> Result<(), AllocError> {
    let mut front = String::new(alloc);
    let disk = push_front(alloc, &mut front, case, fresh(alloc, &[], 0)?)?;
    recoveries::push_recovery(alloc, out, case.design, disk)?;
    Ok(())
}
