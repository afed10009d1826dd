// What was done to a file in memory, from which it tells what stood at each moment.
ghost use Rattle.std.specs.Prelude.{◌≡◌, ◌≤◌, ◌<◌, ◌^◌, ◌+◌, [], length, vec_len, vec_capacity, IfOk, OnOk, OnErr};
ghost use Rattle.acc_disk.specs.Crashes.{overwritten};
ghost use Rattle.acc_disk.specs.Standings.{settled, IsInOrder};
ghost use Rattle.acc_disk.specs.Changes.{after_all};

use crate::replay::Replay;
use std::alloc::{AllocError, Global};

// A call that changed what stands there.
#[derive(Drop)]
pub(crate) enum FileChange {
    Wrote { at: usize, bytes: Vec<u8> },
    Cut { to: usize },
    Synced,
}

// The change and the number of its call, from 1 on.
#[derive(Drop)]
pub(crate) struct Recorded {
    pub(crate) number: u64,
    pub(crate) change: FileChange,
}

// The bytes at the start, which count as synced, the bytes that stand there now, and all that changed them.
#[derive(Drop)]
pub(crate) struct History {
    pub(crate) start: Vec<u8>,
    pub(crate) bytes: Vec<u8>,
    pub(crate) past: Vec<Recorded>,
    ghost short: { length bytes.items < 2 ^ 64 },
    ghost kept: { (after_all past.items (settled start.items)).bytes ≡ bytes.items },
    ghost in_order: { IsInOrder (after_all past.items (settled start.items)) },
}

// Writes the piece over what stands at that place, and past the end, where there is room for it.
pub(crate) fn put(file: &mut Vec<u8>, at: usize, piece: &[u8])
    requires at { at ≤ vec_len file.old }
    requires room { at + length piece.now ≤ vec_capacity file.old }
    ensures whole { file.new.items ≡ overwritten at piece.now file.old.items }
    ensures short { length file.new.items < 2 ^ 64 }
{
    let (inside, outside) = piece.split_at(piece.len().min(file.len() - at));
    file[at..at + inside.len()].copy_from_slice(inside);
    if file.extend_from_slice(outside).is_err() {
        unreachable!();
    }
    let _length = file.len();
}

impl History {
    ghost use Rattle.acc_disk.specs.Standings.{after_write, after_cut, after_sync};
    ghost use Rattle.acc_disk.specs.Histories.{present, standing_by, IsUnchanged, Advances};

    pub(crate) fn new(alloc: Global, bytes: &[u8]) -> Result<History, AllocError>
        ensures stands { IfOk result (λ history. present history ≡ settled bytes.now) }
        ensures empty { IfOk result (λ history. history.past.items ≡ []) }
    {
        Ok(History {
            start: bytes.to_vec(alloc)?,
            bytes: bytes.to_vec(alloc)?,
            past: Vec::new(alloc),
        })
    }

    // Writes the piece at that place, as the call of that number. All memory is taken first.
    pub(crate) fn write(
        &mut self,
        alloc: Global,
        number: u64,
        at: usize,
        piece: &[u8],
    ) -> Result<(), AllocError>
        requires { at ≤ vec_len self.old.bytes }
        ensures ok { OnOk result (Advances number (after_write at piece.now) self.old self.new) }
        ensures err { OnErr result (IsUnchanged self.old self.new) }
    {
        let bytes = piece.to_vec(alloc)?;
        let inside = piece.len().min(self.bytes.len() - at);
        self.bytes.reserve(piece.len() - inside)?;
        self.past.push(Recorded {
            number,
            change: FileChange::Wrote { at, bytes },
        })?;
        put(&mut self.bytes, at, piece);
        Ok(())
    }

    // Cuts the bytes to that length, as the call of that number.
    pub(crate) fn cut(&mut self, number: u64, to: usize) -> Result<(), AllocError>
        requires { to ≤ vec_len self.old.bytes }
        ensures ok { OnOk result (Advances number (after_cut to) self.old self.new) }
        ensures err { OnErr result (IsUnchanged self.old self.new) }
    {
        self.past.push(Recorded {
            number,
            change: FileChange::Cut { to },
        })?;
        self.bytes.truncate(to);
        Ok(())
    }

    // Makes the bytes the synced ones, as the call of that number.
    pub(crate) fn sync(&mut self, number: u64) -> Result<(), AllocError>
        ensures ok { OnOk result (Advances number after_sync self.old self.new) }
        ensures err { OnErr result (IsUnchanged self.old self.new) }
    {
        self.past.push(Recorded {
            number,
            change: FileChange::Synced,
        })?;
        Ok(())
    }

    // What stood when so many calls were done. It costs all bytes that were written before.
    pub(crate) fn replay(&self, alloc: Global, calls: u64) -> Result<Replay, AllocError>
        ensures { IfOk result (λ replay. replay ≡ standing_by self.now calls) }
    {
        let mut replay = Replay::new(alloc, &self.start)?;
        for recorded in &self.past {
            if recorded.number > calls {
                return Ok(replay);
            }
            replay.apply(alloc, &recorded.change)?;
        }
        Ok(replay)
    }
}
