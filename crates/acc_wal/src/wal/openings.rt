// Journals that are made, and those that are attached.
use super::Wal;
use crate::WalError;
use crate::attaching::open_old;
use crate::creating::{begin, prepared};
use crate::filled::ready_with;
use acc_base::machines::Event;
use acc_disk::Disk;
use std::alloc::Global;

impl<D: Disk> Wal<D> {
    ghost use Rattle.std.specs.Prelude.{◌≡◌, ◌≤◌, ◌<◌, ◌+◌, ◌^◌, false, [], ◌∷◌, length, Some, List, ℕ, All, IfOk, IfErr, IfSome};
    ghost use Rattle.std.specs.Option.{option_map};
    ghost use Rattle.acc_io.specs.Causes.{Rose};
    ghost use Rattle.acc_disk.specs.Crashes.{Only, IsCalm};
    ghost use Rattle.acc_disk.specs.Moments.{AtAnyMoment};
    ghost use Rattle.acc_base.specs.declared.machines.Event.{Event};
    ghost use Rattle.acc_wal.specs.declared.items.Seal.{Seal as TheSeal};
    ghost use Rattle.acc_wal.specs.Items.{seal_bytes};
    ghost use Rattle.acc_wal.specs.Journals.{Counts, CountsAll};
    ghost use Rattle.acc_wal.specs.Attaching.{RefusesOld, IsOfBytes, IsMended, LeavesOld};
    ghost use Rattle.acc_wal.specs.Wals.{IsOpened};
    ghost use Rattle.acc_wal.specs.Spellings.{body, Fits};
    ghost use Rattle.acc_wal.specs.Creating.{rest_of, seals_behind, IsThere, LeavesNew, LeavesFull, RefusesNew};
    ghost use Rattle.acc_wal.specs.Opened.{disk_of};

    /// Makes a journal of that base text, on a disk that holds none. A crash at any moment leaves no journal, the new one,
    /// or the old bytes with another first byte.
    ///
    /// `Exists` where the disk has two bytes or more and the first is an open gate, and `Disk`. `Memory` comes before the
    /// disk is asked. A refusal hands the disk back.
    pub fn create(alloc: Global, disk: D, base: &[u8]) -> Result<Wal<D>, (WalError, D)>
        requires { length base.now < 2 ^ 32 }
        ensures ok { IfOk result (IsOpened base.now []) }
        ensures version { IfOk result (λ wal. (wal.version ≡ 2) × (wal.seals ≡ [])) }
        ensures why { IfErr result (λ refusal. RefusesNew refusal.0 (D.told disk) (Rose (D.faults disk) (D.faults refusal.1))) }
        ensures fresh { IfOk result (λ wal. IfSome (D.told disk) (λ file. ¬ IsThere file)) }
        ensures made { IfOk result (λ wal. IfSome (D.told wal.disk) (λ now. now ≡ 0xA5 ∷ rest_of base.now)) }
        ensures refused { IfErr result (λ refusal. IsOfBytes refusal.0 → (D.told refusal.1 ≡ D.told disk)
            × ((file : List ℕ) → Only file (D.may_leave disk)
            → AtAnyMoment D.clock D.left_since disk refusal.1 (λ image. image ≡ file))) }
        ensures moments { (file : List ℕ) → D.told disk ≡ Some file → Only file (D.may_leave disk)
            → AtAnyMoment D.clock D.left_since disk (disk_of result) (LeavesNew file base.now) }
        ensures left { (file : List ℕ) → D.told disk ≡ Some file → Only file (D.may_leave disk)
            → IfSome (D.told (disk_of result)) (LeavesNew file base.now) }
        ensures calm { IsCalm (D.told disk) (D.may_leave disk)
            → IfOk result (λ wal. IsCalm (D.told wal.disk) (D.may_leave wal.disk)) }
        ensures faults { D.faults disk ≤ D.faults (disk_of result) }
    {
        let mut disk = disk;
        let (kept, rest, staged) = match prepared(alloc, base) {
            Ok(ready) => ready,
            Err(_) => return Err((WalError::Memory, disk)),
        };
        let place = 6 + kept.len() as u64;
        match begin(&mut disk, &rest) {
            Ok(()) => Ok(Wal {
                disk,
                version: 2,
                base: kept,
                events: Vec::new(alloc),
                count: 0,
                seals: Vec::new(alloc),
                sealed: 0,
                staged,
                place,
                spent: false,
            }),
            Err(error) => Err((error, disk)),
        }
    }

    /// Makes a journal of that base text, on a disk that holds none, with these events and behind them this state, if there is one, as its
    /// first batch. A crash at any moment leaves no journal, the new one with all of these, or the old bytes with another first byte.
    ///
    /// `Exists` where the disk has two bytes or more and the first is an open gate, and `Disk`. `Memory` comes before the
    /// disk is asked. A refusal hands the disk back.
    pub fn create_with(
        alloc: Global,
        disk: D,
        base: &[u8],
        events: &[Event],
        seal: Option<&[u8]>,
    ) -> Result<Wal<D>, (WalError, D)>
        requires base { length base.now < 2 ^ 32 }
        requires each { All Fits events.now }
        requires some { 0 < length events.now + length (seals_behind (length events.now) (option_map (λ text. text.now) seal)) }
        requires short { length (body events.now)
            + seal_bytes (seals_behind (length events.now) (option_map (λ text. text.now) seal)) < 2 ^ 32 }
        ensures ok { IfOk result (IsOpened base.now events.now) }
        ensures version { IfOk result (λ wal. (wal.version ≡ 2)
            × (wal.seals ≡ seals_behind (length events.now) (option_map (λ text. text.now) seal.entry))) }
        ensures why { IfErr result (λ refusal. RefusesNew refusal.0 (D.told disk) (Rose (D.faults disk) (D.faults refusal.1))) }
        ensures fresh { IfOk result (λ wal. IfSome (D.told disk) (λ file. ¬ IsThere file)) }
        ensures made { IfOk result (λ wal. IfSome (D.told wal.disk) (λ now. CountsAll now base.now 2 events.now
            (seals_behind (length events.now) (option_map (λ text. text.now) seal.entry)))) }
        ensures refused { IfErr result (λ refusal. IsOfBytes refusal.0 → (D.told refusal.1 ≡ D.told disk)
            × ((file : List ℕ) → Only file (D.may_leave disk)
            → AtAnyMoment D.clock D.left_since disk refusal.1 (λ image. image ≡ file))) }
        ensures moments { (file : List ℕ) → D.told disk ≡ Some file → Only file (D.may_leave disk)
            → AtAnyMoment D.clock D.left_since disk (disk_of result)
            (LeavesFull file base.now events.now (seals_behind (length events.now) (option_map (λ text. text.now) seal.entry))) }
        ensures left { (file : List ℕ) → D.told disk ≡ Some file → Only file (D.may_leave disk)
            → IfSome (D.told (disk_of result))
            (LeavesFull file base.now events.now (seals_behind (length events.now) (option_map (λ text. text.now) seal.entry))) }
        ensures calm { IsCalm (D.told disk) (D.may_leave disk)
            → IfOk result (λ wal. IsCalm (D.told wal.disk) (D.may_leave wal.disk)) }
        ensures faults { D.faults disk ≤ D.faults (disk_of result) }
    {
        let mut disk = disk;
        let ready = match ready_with(alloc, base, events, seal) {
            Ok(ready) => ready,
            Err(_) => return Err((WalError::Memory, disk)),
        };
        let (count, sealed) = (ready.events.len(), ready.seals.len());
        match begin(&mut disk, &ready.rest) {
            Ok(()) => Ok(Wal {
                disk,
                version: 2,
                base: ready.base,
                events: ready.events,
                count,
                seals: ready.seals,
                sealed,
                staged: ready.staged,
                place: ready.place,
                spent: false,
            }),
            Err(error) => Err((error, disk)),
        }
    }

    /// Attaches the journal that a disk holds. It cuts off what stands behind the first gate that doesn't count, and closes
    /// that gate. At any moment of the call a crash leaves a journal of the same base text and events, or, where there is no journal, the
    /// same bytes.
    ///
    /// `NotJournal`, `OtherVersion` and `Damaged`, in this order, where the bytes give cause for them; then nothing is changed.
    /// `Disk` and `Memory` may come before them. A refusal hands the disk back. The call holds the file once beside its
    /// events, and takes time with its length.
    pub fn attach(alloc: Global, disk: D) -> Result<Wal<D>, (WalError, D)>
        ensures ok { IfOk result (λ wal. (wal.tail ≡ []) × (wal.spent ≡ false) × (wal.waiting ≡ [])) }
        ensures counts { IfOk result (λ wal. IfSome (D.told disk) (λ file. Counts file wal.base wal.durable)) }
        ensures counts_all { IfOk result (λ wal. IfSome (D.told disk)
            (λ file. CountsAll file wal.base wal.version wal.durable wal.seals)) }
        ensures mended { IfOk result (λ wal. IfSome (D.told disk) (λ file. IfSome (D.told wal.disk)
            (λ now. IsMended file now wal.base wal.durable))) }
        ensures why { IfErr result (λ refusal. RefusesOld refusal.0 (D.told disk) (Rose (D.faults disk) (D.faults refusal.1))) }
        ensures moments { (file base : List ℕ) (events : List Event) → D.told disk ≡ Some file → Only file (D.may_leave disk)
            → Counts file base events
            → AtAnyMoment D.clock D.left_since disk (disk_of result) (λ image. Counts image base events) }
        ensures left { (file base : List ℕ) (events : List Event) → D.told disk ≡ Some file → Only file (D.may_leave disk)
            → Counts file base events → IfSome (D.told (disk_of result)) (λ now. Counts now base events) }
        ensures moments_all { (file base : List ℕ) (version : ℕ) (events : List Event) (seals : List TheSeal) → D.told disk ≡ Some file
            → Only file (D.may_leave disk) → CountsAll file base version events seals
            → AtAnyMoment D.clock D.left_since disk (disk_of result) (λ image. CountsAll image base version events seals) }
        ensures left_all { (file base : List ℕ) (version : ℕ) (events : List Event) (seals : List TheSeal) → D.told disk ≡ Some file
            → Only file (D.may_leave disk) → CountsAll file base version events seals
            → IfSome (D.told (disk_of result)) (λ now. CountsAll now base version events seals) }
        ensures leaves { (file : List ℕ) → D.told disk ≡ Some file → Only file (D.may_leave disk)
            → AtAnyMoment D.clock D.left_since disk (disk_of result) (LeavesOld file) }
        ensures refused { IfErr result (λ refusal. IsOfBytes refusal.0 → (D.told refusal.1 ≡ D.told disk)
            × ((file : List ℕ) → Only file (D.may_leave disk)
            → AtAnyMoment D.clock D.left_since disk refusal.1 (λ image. image ≡ file))) }
        ensures calm { IsCalm (D.told disk) (D.may_leave disk)
            → IfOk result (λ wal. IsCalm (D.told wal.disk) (D.may_leave wal.disk)) }
        ensures faults { D.faults disk ≤ D.faults (disk_of result) }
    {
        let mut disk = disk;
        match open_old(alloc, &mut disk) {
            Ok((contents, staged)) => {
                let count = contents.events.len();
                let sealed = contents.seals.len();
                let place = contents.place as u64;
                Ok(Wal {
                    disk,
                    version: contents.version,
                    base: contents.base,
                    events: contents.events,
                    count,
                    seals: contents.seals,
                    sealed,
                    staged,
                    place,
                    spent: false,
                })
            }
            Err(error) => Err((error, disk)),
        }
    }
}
