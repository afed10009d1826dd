// A disk in memory, some of whose calls fail.
ghost use Rattle.std.specs.Prelude.{◌≡◌, ◌≤◌, nat_le, length, is_ok, if◌then◌else◌, IsTrue};
ghost use Rattle.std.specs.List.{list_all};
ghost use Rattle.acc_io.specs.Causes.{one_more};
ghost use Rattle.acc_disk.specs.Crashes.{ReadsAt};

use crate::Disk;
use crate::history::History;
use acc_io::Failed;
use std::alloc::{AllocError, AllocFailed, Global};

/// Want of memory.
#[derive(Clone, Copy)]
pub struct DiskMemory;

impl From<AllocError> for DiskMemory {
    fn from(_: AllocError) -> Self {
        DiskMemory
    }
}

impl<T: Drop> From<AllocFailed<T>> for DiskMemory {
    fn from(_: AllocFailed<T>) -> Self {
        DiskMemory
    }
}

/// A disk in memory. It notes each call that changes something, so it answers for every moment what stood there and
/// what a crash may have left.
///
/// The calls that are to fail answer `Failed` and do nothing, and so does one whose growth is refused. Its count of
/// faults is the number of the calls that were to fail, and then the number of its growths that were refused.
///
/// Each call costs a walk over the list of those that are to fail; a read and a write cost their bytes besides.
#[derive(Drop)]
pub struct MemDisk {
    alloc: Global,
    history: History,
    fails: Vec<u64>,
    from: Option<u64>,
    calls: u64,
    synced: u64,
    failed: u64,
    refused: u64,
    ghost numbered: { IsTrue (list_all (λ recorded. nat_le recorded.number calls) history.past.items) },
}

// Copies the bytes from that place on into the buffer, as many as fit in it or are there, and tells how many.
fn copy_from(file: &[u8], at: usize, buf: &mut [u8]) -> usize
    ensures bound { result ≤ length buf.old }
    ensures bytes { ReadsAt file.now at buf.new result }
{
    let start = at.min(file.len());
    let count = buf.len().min(file.len() - start);
    buf[..count].copy_from_slice(&file[start..start + count]);
    count
}

// A growth that was refused is counted.
fn grown(outcome: Result<(), AllocError>, refused: &mut u64) -> Result<(), Failed>
    ensures same { is_ok result ≡ is_ok outcome }
    ensures counted { refused.new ≡ (if is_ok outcome then refused.old else one_more refused.old) }
    ensures grows { refused.old ≤ refused.new }
{
    match outcome {
        Ok(()) => Ok(()),
        Err(_) => {
            *refused = refused.saturating_add(1);
            Err(Failed)
        }
    }
}

impl MemDisk {
    ghost use Rattle.std.specs.Prelude.{◌≡◌, ◌↔◌, IfOk, OnOk, OnErr};
    ghost use Rattle.acc_io.specs.Causes.{one_more};
    ghost use Rattle.acc_disk.specs.Standings.{IsImage, IsSettled};
    ghost use Rattle.acc_disk.specs.MemDisks.{IsFresh, FailsAt, FailsNext, Begins};
    ghost use Rattle.acc_disk.specs.MemDisks.{stored, call_count, sync_count, refused, standing_after, may_have_been_left};

    /// A disk that holds these bytes as synced. The calls whose numbers, from 1 on, stand in `fails`, and all calls
    /// from the number `from` on, answer `Failed` and do nothing.
    pub fn new(
        alloc: Global,
        bytes: &[u8],
        fails: &[u64],
        from: Option<u64>,
    ) -> Result<MemDisk, DiskMemory>
        ensures { IfOk result (IsFresh bytes.now fails.now from) }
    {
        Ok(MemDisk {
            alloc,
            history: History::new(alloc, bytes)?,
            fails: fails.to_vec(alloc)?,
            from,
            calls: 0,
            synced: 0,
            failed: 0,
            refused: 0,
        })
    }

    /// How many calls were made.
    pub fn calls(&self) -> u64
        ensures { result ≡ call_count self.now }
    {
        self.calls
    }

    /// How many of them were a `sync` that answered `Ok`.
    pub fn synced(&self) -> u64
        ensures { result ≡ sync_count self.now }
    {
        self.synced
    }

    /// How many of its growths were refused. Each made a call answer `Failed`.
    pub fn refused(&self) -> u64
        ensures { result ≡ refused self.now }
    {
        self.refused
    }

    /// The bytes that stand there.
    pub fn bytes(&self) -> &[u8]
        ensures { result.now ≡ stored self.now }
    {
        &self.history.bytes
    }

    /// Bytes that a crash may have left when that many calls were done. Where nothing was unsynced then, they are
    /// those that stood there. The number `pick` chooses among them: small numbers choose what is cut short, lost or
    /// torn in the plainest ways, and larger ones each length with any bytes, as far as 64 bits reach.
    ///
    /// It costs all bytes that were written before, and for each byte of the answer a look at each range that was
    /// written since the last sync.
    pub fn image(&self, after: u64, pick: u64) -> Result<Vec<u8>, DiskMemory>
        requires { after ≤ call_count self.now }
        ensures allowed { IfOk result (λ image. IsImage (standing_after self.now after) image.items) }
        ensures settled { IfOk result (λ image. IsSettled (standing_after self.now after)
            → image.items ≡ (standing_after self.now after).bytes) }
        ensures left { IfOk result (λ image. may_have_been_left self.now 0 image.items) }
    {
        let replay = self.history.replay(self.alloc, after)?;
        Ok(replay.image(self.alloc, pick)?)
    }

    // Whether the call of that number is to fail.
    fn fails_at(&self, number: u64) -> bool
        ensures { IsTrue result ↔ FailsAt self.now number }
    {
        self.fails.contains(&number) || self.from.is_some_and(|from| from <= number)
    }

    // Counts a call, which fails where it is to fail.
    #[tactic(auto, using(crate::proofs::Numbers::numbered_by_later))]
    fn begin(&mut self) -> Result<(), Failed>
        ensures ok { OnOk result ((¬ FailsNext self.old) × Begins self.old.failed self.old self.new) }
        ensures err { OnErr result (FailsNext self.old × Begins (one_more self.old.failed) self.old self.new) }
        ensures grows { self.old.failed ≤ self.new.failed }
    {
        let number = self.calls.saturating_add(1);
        let fails = self.fails_at(number);
        self.calls = number;
        if fails {
            self.failed = self.failed.saturating_add(1);
            return Err(Failed);
        }
        Ok(())
    }
}

impl Disk for MemDisk {
    ghost use Rattle.std.specs.Prelude.{◌≡◌, ◌≤◌, length, take, Some, IfOk, IfSome, OnOk, OnErr};
    ghost use Rattle.std.specs.Option.{option_map, ForSome};
    ghost use Rattle.std.proofs.Common.{subst};
    ghost use Rattle.acc_disk.specs.Faults.{CountsFault};
    ghost use Rattle.acc_disk.specs.Crashes.{overwritten, ReadsAt, Torn, PartlyCut, Becomes, Follows, LeavesNoMore, Only};
    ghost use Rattle.acc_disk.specs.Moments.{Elapses};
    ghost use Rattle.acc_disk.specs.Standings.{after_write, after_cut, IsImage};
    ghost use Rattle.acc_disk.specs.Laws.{left_now, left_only_now, left_earlier};
    ghost use Rattle.acc_disk.specs.MemDisks.{standing, clock_of, told_by, may_be_left, may_have_been_left, fault_count};
    ghost use Rattle.acc_disk.specs.MemDisks.{AnswersLook, AnswersChange, AnswersSync, MadeCall};

    ghost clock = { clock_of };

    ghost told = { told_by };

    ghost may_leave = { may_be_left };

    ghost left_since = { may_have_been_left };

    ghost faults = { fault_count };

    ghost nothing_lost = { λ disk. subst (IsImage (standing disk)) disk.history.kept disk.history.in_order.present };

    ghost counts_now = { λ disk time image le now. left_now disk.history time image le now };

    ghost only_now = { λ disk image left. left_only_now disk.history image left };

    ghost fits = { λ disk. disk.history.short };

    ghost earlier = { λ disk sooner time image le left. left_earlier disk.history sooner time image le left };

    // The clauses of a disk, and what each answer says of the lists and the counts.
    fn len(&mut self) -> Result<u64, Failed>
        ensures count { IfOk result (λ count. IfSome (told_by self.old) (λ file. count ≡ length file)) }
        ensures told { told_by self.new ≡ told_by self.old }
        ensures crash { LeavesNoMore (may_be_left self.old) (may_be_left self.new) }
        ensures time { Elapses (clock_of self.old) (clock_of self.new)
            (may_have_been_left self.old) (may_have_been_left self.new) (may_be_left self.new) }
        ensures faults { CountsFault result (fault_count self.old) (fault_count self.new) }
        ensures answer { AnswersLook self.old self.new result }
        ensures made { MadeCall self.old self.new }
    {
        self.begin()?;
        Ok(self.history.bytes.len() as u64)
    }

    fn read(&mut self, at: u64, buf: &mut [u8]) -> Result<usize, Failed>
        ensures bound { IfOk result (λ count. count ≤ length buf.old) }
        ensures bytes { IfOk result (λ count. IfSome (told_by self.old) (λ file. ReadsAt file at buf.new count)) }
        ensures told { told_by self.new ≡ told_by self.old }
        ensures crash { LeavesNoMore (may_be_left self.old) (may_be_left self.new) }
        ensures time { Elapses (clock_of self.old) (clock_of self.new)
            (may_have_been_left self.old) (may_have_been_left self.new) (may_be_left self.new) }
        ensures faults { CountsFault result (fault_count self.old) (fault_count self.new) }
        ensures answer { AnswersLook self.old self.new result }
        ensures made { MadeCall self.old self.new }
    {
        self.begin()?;
        Ok(copy_from(&self.history.bytes, at as usize, buf))
    }

    fn write_at(&mut self, at: u64, bytes: &[u8]) -> Result<(), Failed>
        requires { ForSome (told_by self.old) (λ file. at ≤ length file) }
        ensures written { OnOk result (told_by self.new ≡ option_map (overwritten at bytes.now) (told_by self.old)) }
        ensures part { OnErr result (Becomes (Torn at (length bytes.now)) (told_by self.old) (told_by self.new)) }
        ensures crash { Follows (Torn at (length bytes.now)) (may_be_left self.old) (may_be_left self.new) }
        ensures time { Elapses (clock_of self.old) (clock_of self.new)
            (may_have_been_left self.old) (may_have_been_left self.new) (may_be_left self.new) }
        ensures faults { CountsFault result (fault_count self.old) (fault_count self.new) }
        ensures answer { AnswersChange (after_write at bytes.now) self.old self.new result }
        ensures made { MadeCall self.old self.new }
    {
        self.begin()?;
        let outcome = self
            .history
            .write(self.alloc, self.calls, at as usize, bytes);
        grown(outcome, &mut self.refused)?;
        Ok(())
    }

    fn cut(&mut self, to: u64) -> Result<(), Failed>
        requires { ForSome (told_by self.old) (λ file. to ≤ length file) }
        ensures cut { OnOk result (told_by self.new ≡ option_map (take to) (told_by self.old)) }
        ensures part { OnErr result (Becomes (PartlyCut to) (told_by self.old) (told_by self.new)) }
        ensures crash { Follows (PartlyCut to) (may_be_left self.old) (may_be_left self.new) }
        ensures time { Elapses (clock_of self.old) (clock_of self.new)
            (may_have_been_left self.old) (may_have_been_left self.new) (may_be_left self.new) }
        ensures faults { CountsFault result (fault_count self.old) (fault_count self.new) }
        ensures answer { AnswersChange (after_cut to) self.old self.new result }
        ensures made { MadeCall self.old self.new }
    {
        self.begin()?;
        let outcome = self.history.cut(self.calls, to as usize);
        grown(outcome, &mut self.refused)?;
        Ok(())
    }

    fn sync(&mut self) -> Result<(), Failed>
        ensures durable { OnOk result (IfSome (told_by self.new) (λ file. Only file (may_be_left self.new))) }
        ensures told { told_by self.new ≡ told_by self.old }
        ensures crash { LeavesNoMore (may_be_left self.old) (may_be_left self.new) }
        ensures time { Elapses (clock_of self.old) (clock_of self.new)
            (may_have_been_left self.old) (may_have_been_left self.new) (may_be_left self.new) }
        ensures faults { CountsFault result (fault_count self.old) (fault_count self.new) }
        ensures answer { AnswersSync self.old self.new result }
        ensures made { MadeCall self.old self.new }
    {
        self.begin()?;
        let outcome = self.history.sync(self.calls);
        grown(outcome, &mut self.refused)?;
        self.synced = self.synced.saturating_add(1);
        Ok(())
    }
}
