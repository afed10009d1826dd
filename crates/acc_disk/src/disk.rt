// What a disk promises.
ghost use Rattle.std.specs.Prelude.{◌≡◌, ◌≤◌, ◌<◌, ◌^◌, List, ℕ, Option, length, take, IfOk, IfSome, OnOk, OnErr};
ghost use Rattle.std.specs.Option.{option_map, ForSome};
ghost use Rattle.acc_disk.specs.Faults.{CountsFault};
ghost use Rattle.acc_disk.specs.Crashes.{overwritten, ReadsAt, Torn, PartlyCut, Becomes, Follows, LeavesNoMore, Only};
ghost use Rattle.acc_disk.specs.Moments.{Elapses};

use acc_io::Failed;

/// One file of bytes, of which a crash may leave other bytes than a read gives.
///
/// Between two syncs each written range, and all past a cut or past the old end, may hold any bytes after a crash,
/// and the length may be any that lies between those that the file had. A call that fails may have done any part of
/// its work. The count of faults rises at each call that fails, and at no other.
pub trait Disk {
    /// The clock, by which moments are told apart. It doesn't go back.
    ghost clock: { Self → ℕ };

    /// The bytes that a read gives, where they are told.
    ghost told: { Self → Option (List ℕ) };

    /// The bytes that a crash now may leave.
    ghost may_leave: { Self → List ℕ → Type 0 };

    /// The bytes that a crash at some moment from that time on may have left, in a call or between two.
    ghost left_since: { Self → ℕ → List ℕ → Type 0 };

    /// How many calls have failed.
    ghost faults: { Self → ℕ };

    /// How many bytes stand there.
    fn len(&mut self) -> Result<u64, Failed>
        ensures count { IfOk result (λ count. IfSome (told self.old) (λ file. count ≡ length file)) }
        ensures told { told self.new ≡ told self.old }
        ensures crash { LeavesNoMore (may_leave self.old) (may_leave self.new) }
        ensures time { Elapses (clock self.old) (clock self.new)
            (left_since self.old) (left_since self.new) (may_leave self.new) }
        ensures faults { CountsFault result (faults self.old) (faults self.new) };

    /// Reads the bytes from that place on into the buffer, as many as fit in it or are there, and tells how many.
    /// After `Failed` the buffer may hold anything.
    fn read(&mut self, at: u64, buf: &mut [u8]) -> Result<usize, Failed>
        ensures bound { IfOk result (λ count. count ≤ length buf.old) }
        ensures bytes { IfOk result (λ count. IfSome (told self.old) (λ file. ReadsAt file at buf.new count)) }
        ensures told { told self.new ≡ told self.old }
        ensures crash { LeavesNoMore (may_leave self.old) (may_leave self.new) }
        ensures time { Elapses (clock self.old) (clock self.new)
            (left_since self.old) (left_since self.new) (may_leave self.new) }
        ensures faults { CountsFault result (faults self.old) (faults self.new) };

    /// Writes the bytes at that place, over what stands there and past the end. After an error any part of it may
    /// be done. Until a sync, a crash may leave any bytes in the range.
    fn write_at(&mut self, at: u64, bytes: &[u8]) -> Result<(), Failed>
        requires { ForSome (told self.old) (λ file. at ≤ length file) }
        ensures written { OnOk result (told self.new ≡ option_map (overwritten at bytes.now) (told self.old)) }
        ensures part { OnErr result (Becomes (Torn at (length bytes.now)) (told self.old) (told self.new)) }
        ensures crash { Follows (Torn at (length bytes.now)) (may_leave self.old) (may_leave self.new) }
        ensures time { Elapses (clock self.old) (clock self.new)
            (left_since self.old) (left_since self.new) (may_leave self.new) }
        ensures faults { CountsFault result (faults self.old) (faults self.new) };

    /// Cuts the file to that length. After an error any part of it may be done. Until a sync, a crash may leave any
    /// length down to that one, and any bytes past it.
    fn cut(&mut self, to: u64) -> Result<(), Failed>
        requires { ForSome (told self.old) (λ file. to ≤ length file) }
        ensures cut { OnOk result (told self.new ≡ option_map (take to) (told self.old)) }
        ensures part { OnErr result (Becomes (PartlyCut to) (told self.old) (told self.new)) }
        ensures crash { Follows (PartlyCut to) (may_leave self.old) (may_leave self.new) }
        ensures time { Elapses (clock self.old) (clock self.new)
            (left_since self.old) (left_since self.new) (may_leave self.new) }
        ensures faults { CountsFault result (faults self.old) (faults self.new) };

    /// Where it answers `Ok`, a crash leaves what a read gives, until the next write or cut.
    fn sync(&mut self) -> Result<(), Failed>
        ensures durable { OnOk result (IfSome (told self.new) (λ file. Only file (may_leave self.new))) }
        ensures told { told self.new ≡ told self.old }
        ensures crash { LeavesNoMore (may_leave self.old) (may_leave self.new) }
        ensures time { Elapses (clock self.old) (clock self.new)
            (left_since self.old) (left_since self.new) (may_leave self.new) }
        ensures faults { CountsFault result (faults self.old) (faults self.new) };

    /// A crash may also lose nothing.
    ghost nothing_lost: { (disk : Self) → IfSome (told disk) (may_leave disk) };

    /// The present moment is one of those from an earlier time on.
    ghost counts_now: { (disk : Self) (time : ℕ) (image : List ℕ) → time ≤ clock disk
        → may_leave disk image → left_since disk time image };

    /// From the present time on there is no other moment than this.
    ghost only_now: { (disk : Self) (image : List ℕ) → left_since disk (clock disk) image → may_leave disk image };

    /// The moments from a time on are among those from an earlier time on.
    ghost earlier: { (disk : Self) (sooner time : ℕ) (image : List ℕ) → sooner ≤ time
        → left_since disk time image → left_since disk sooner image };

    /// A file has fewer than 2^64 bytes.
    ghost fits: { (disk : Self) → IfSome (told disk) (λ file. length file < 2 ^ 64) };
}
