//! A load of TPC-C and a mix behind it, by the rules of locks.
ghost use Rattle.std.specs.Prelude.{◌≡◌, List, length, All, IfOk};
ghost use Rattle.acc_base.specs.declared.designs.Design.{Design};
ghost use Rattle.acc_base.specs.declared.machines.Call.{Call};
ghost use Rattle.acc_bench.specs.Answers.{bench_text, bench_ending};
ghost use Rattle.acc_player.specs.Playing.{AllFit};
ghost use Rattle.acc_script.specs.CallLines.{IsScript};
ghost use Rattle.acc_script.specs.OrderLines.{IsPlace};
ghost use Rattle.tpcc_tables.specs.Schema.{IsSchemaOf};
ghost use Rattle.acc_commands_files.specs.Runs.{told_by};
ghost use Rattle.acc_commands_files.specs.Workloads.{mix_said};
ghost use Rattle.acc_commands_files.specs.BenchFiles.{order_of, SaysBench, SaysOfMix, SaysOfLoad, SaysOfTables, BenchesCertified, BenchesFiles};

use crate::memory_runs::{MemoryRun, unplayed};
use crate::workloads::{load_script, mix_script};
use acc_base::designs::Design;
use acc_base::machines::Call;
use acc_base::sequences::Seq;
use acc_bench::{Benched, bench, bench_answer};
use acc_commands_inputs::{
    Admission, AskedScale, CertifiedFiles, FoundSchema, Mix, ReadDesign, ReadScript, admit,
    design_refused, find_schema, read_design, read_script,
};
use acc_lift::Accepted;
use acc_progress::Progress;
use std::alloc::{AllocError, Global};
use tpcc_gen::order;
use tpcc_tables::TableSet;

/// The order in which the calls of a mix take their turns. It is empty for a mix that is too large; no words ask for such a one.
fn mix_order(alloc: Global, asked: Mix) -> Result<Seq<u64>, AllocError>
    ensures numbers { IfOk result (λ numbers. numbers ≡ order_of asked) }
    ensures places { IfOk result (λ numbers. (d : Design) (calls : List Call) → IsScript d (mix_said asked) calls
        → All (IsPlace (length calls)) numbers) }
{
    if asked.is_fit() {
        let AskedScale {
            warehouses,
            items,
            customers,
        } = asked.scale;
        order(
            alloc,
            warehouses,
            items,
            customers,
            asked.count,
            asked.start,
        )
    } else {
        Ok(Seq::new(alloc))
    }
}

/// What is said of a load and a mix, and their events.
fn benched_run(alloc: Global, benched: Benched) -> Result<MemoryRun, AllocError>
    ensures { IfOk result (λ r. told_by r ≡
        record { ending = bench_ending benched; text = bench_text benched; history = benched.history }) }
{
    let answer = bench_answer(alloc, &benched)?;
    let Benched {
        loaded: _,
        mixed: _,
        history,
        against: _,
    } = benched;
    Ok(MemoryRun { answer, history })
}

/// Runs the calls of a load, and then those of a mix in its order.
fn bench_calls<P: Progress>(
    alloc: Global,
    accepted: &Accepted,
    tables: &TableSet,
    asked: Mix,
    load: &[Call],
    calls: &[Call],
    progress: &mut P,
) -> Result<MemoryRun, AllocError>
    requires schema { IsSchemaOf tables.now accepted.now }
    requires load_fits { AllFit accepted.now load.now }
    requires calls_fit { AllFit accepted.now calls.now }
    requires script { IsScript accepted.now (mix_said asked) calls.now }
    ensures { IfOk result (λ r. SaysBench accepted.now tables.now asked load.now calls.now (told_by r)) }
{
    let places = mix_order(alloc, asked)?;
    let turns = places.as_slice();
    let benched = bench(alloc, accepted, tables, load, calls, turns, progress)?;
    benched_run(alloc, benched)
}

/// Runs the calls of a load, and then a mix, if the design has its calls.
fn bench_mix<P: Progress>(
    alloc: Global,
    accepted: &Accepted,
    tables: &TableSet,
    asked: Mix,
    load: &[Call],
    progress: &mut P,
) -> Result<MemoryRun, AllocError>
    requires schema { IsSchemaOf tables.now accepted.now }
    requires load_fits { AllFit accepted.now load.now }
    ensures { IfOk result (λ r. SaysOfMix accepted.now tables.now asked load.now (told_by r)) }
{
    let script = mix_script(alloc, asked)?;
    match read_script(alloc, accepted.design(), script.as_slice())? {
        ReadScript::Read(calls) => {
            let calls = calls.as_slice();
            bench_calls(alloc, accepted, tables, asked, load, calls, progress)
        }
        ReadScript::Refused(answer) => Ok(unplayed(alloc, answer)),
    }
}

/// Runs a load and a mix, if the design has their calls.
fn bench_load<P: Progress>(
    alloc: Global,
    accepted: &Accepted,
    tables: &TableSet,
    asked: Mix,
    progress: &mut P,
) -> Result<MemoryRun, AllocError>
    requires schema { IsSchemaOf tables.now accepted.now }
    ensures { IfOk result (λ r. SaysOfLoad accepted.now tables.now asked (told_by r)) }
{
    let script = load_script(alloc, asked.scale)?;
    match read_script(alloc, accepted.design(), script.as_slice())? {
        ReadScript::Read(load) => {
            bench_mix(alloc, accepted, tables, asked, load.as_slice(), progress)
        }
        ReadScript::Refused(answer) => Ok(unplayed(alloc, answer)),
    }
}

/// Runs a load and a mix on an accepted design, if it has TPC-C's tables.
fn bench_accepted<P: Progress>(
    alloc: Global,
    accepted: &Accepted,
    asked: Mix,
    progress: &mut P,
) -> Result<MemoryRun, AllocError>
    ensures { IfOk result (λ r. SaysOfTables accepted.now asked (told_by r)) }
{
    match find_schema(alloc, accepted.design())? {
        FoundSchema::Found(tables) => bench_load(alloc, accepted, &tables, asked, progress),
        FoundSchema::Refused(answer) => Ok(unplayed(alloc, answer)),
    }
}

/// Runs a load and a mix on a design, if it is accepted with its certificate.
fn bench_design<P: Progress>(
    alloc: Global,
    d: Design,
    certificate: &[u8],
    asked: Mix,
    progress: &mut P,
) -> Result<MemoryRun, AllocError>
    ensures { IfOk result (λ r. BenchesCertified d certificate.now asked (told_by r)) }
{
    match admit(alloc, d, certificate)? {
        Admission::Accepted(accepted) => bench_accepted(alloc, &accepted, asked, progress),
        Admission::Refused(text) => Ok(unplayed(alloc, design_refused(text))),
    }
}

/// Runs a load of TPC-C and a mix behind it in memory, by the rules of locks, on a design that is accepted with its certificate and has
/// TPC-C's tables. It tells how many calls there were and how they ended, how many events, and whether TPC-C's conditions are true.
pub fn bench_files<P: Progress>(
    alloc: Global,
    files: CertifiedFiles,
    asked: Mix,
    progress: &mut P,
) -> Result<MemoryRun, AllocError>
    ensures { IfOk result (λ r. BenchesFiles asked files.entry.design.now files.entry.certificate.now (told_by r)) }
{
    match read_design(alloc, files.design)? {
        ReadDesign::Read(d) => bench_design(alloc, d, files.certificate, asked, progress),
        ReadDesign::Refused(answer) => Ok(unplayed(alloc, answer)),
    }
}
