//! The transactions of a run.
ghost use Rattle.std.specs.Prelude.{◌≡◌, ◌<◌, ◌≤◌, ◌+◌, ◌-◌, [], ◌∷◌, ◌++◌, length, Some, OnOk, OnErr, IsSome, IsSomeAnd, option_and_then};
ghost use Rattle.std.specs.Prelude.{option_copied, option_map, slice_set, vec_len};
ghost use Rattle.std.specs.List.{filter_map};
ghost use Rattle.acc_base.specs.declared.machines.Transaction.{Transaction as TheTransaction};
ghost use Rattle.acc_base.specs.declared.machines.Transaction.TheVariants.{Forward};
ghost use Rattle.acc_base.specs.Machine.{frame_in, reply_in, transaction_at};
ghost use Rattle.acc_plain.specs.declared.transactions.Progress.TheVariants.{Forward as IsForward};
ghost use Rattle.acc_plain.specs.Change.{left_by};
ghost use Rattle.acc_plain.specs.Kept.{transaction_of};

use crate::changes::Becomes;
use crate::frames::Frames;
use acc_base::machines::{Cause, Frame, Reply};
use std::alloc::{AllocError, Global};
use std::marker::Model;

/// How far a transaction has come.
#[derive(Drop)]
pub enum Progress {
    Forward,
    Undoing(Cause),
    Ended(Reply),
}

/// A transaction, by reference.
#[derive(Clone, Copy)]
pub enum TransactionRef<'a> {
    Forward(&'a Frame),
    Undoing(&'a Frame, Cause),
    Ended(&'a Reply),
}

/// The transactions of a run by number, the first of which is 1. Contracts see them as a list.
///
/// An unfinished one is found in time that grows with the logarithm of how many are unfinished, another in constant time.
#[derive(Drop)]
pub struct Transactions {
    progresses: Vec<Progress>,
    frames: Frames,
}

impl Model for Transactions {
    ghost use Rattle.std.specs.Prelude.{List};
    ghost use Rattle.acc_base.specs.declared.machines.Transaction.{Transaction as TheTransaction};
    ghost use Rattle.acc_plain.specs.Kept.{joined, AreKept};

    ghost Value = { List TheTransaction };

    ghost view = { λ m. joined m.progresses.items m.frames };

    ghost invariant = { λ m. AreKept m.progresses.items m.frames };
}

/// Notes that one more transaction goes forward.
fn note_begun(progresses: &mut Vec<Progress>) -> Result<(), AllocError>
    ensures ok { OnOk result (progresses.new.items ≡ progresses.old.items ++ IsForward ∷ []) }
    ensures err { OnErr result (progresses.new.items ≡ progresses.old.items) }
{
    progresses.push(Progress::Forward)?;
    Ok(())
}

/// Notes how far the transaction with this number has come.
fn note(progresses: &mut Vec<Progress>, t: u64, progress: Progress)
    requires begun { 0 < t }
    requires within { t ≤ vec_len progresses.old }
    ensures { progresses.new.items ≡ slice_set progresses.old.items (t - 1) progress }
{
    progresses[(t - 1) as usize] = progress;
}

impl Transactions {
    /// No transactions.
    pub fn new(alloc: Global) -> Self
        ensures { result ≡ [] }
    {
        Transactions {
            progresses: Vec::new(alloc),
            frames: Frames::new(alloc),
        }
    }

    /// The number of the next that begins.
    pub fn next_number(&self) -> u64
        ensures { result ≡ length self.now + 1 }
    {
        self.progresses.len() as u64 + 1
    }

    /// The frames of the unfinished ones, in order of number.
    pub fn unfinished(&self) -> &[Frame]
        ensures { result.now ≡ filter_map frame_in self.now }
    {
        self.frames.as_slice()
    }

    /// The transaction with this number, if it has begun.
    pub fn get(&self, t: u64) -> Option<TransactionRef<'_>>
        ensures { option_map transaction_of result ≡ transaction_at t self.now }
    {
        let place = t.checked_sub(1)?;
        match self.progresses.get(place as usize)? {
            Progress::Forward => Some(TransactionRef::Forward(self.frame(t))),
            Progress::Undoing(cause) => Some(TransactionRef::Undoing(self.frame(t), *cause)),
            Progress::Ended(reply) => Some(TransactionRef::Ended(reply)),
        }
    }

    /// The frame of an unfinished transaction.
    fn frame(&self, t: u64) -> &Frame
        requires { IsSomeAnd (transaction_at t self.now) (λ x. IsSome (frame_in x)) }
        ensures { option_and_then frame_in (transaction_at t self.now) ≡ Some result.now }
    {
        &self.frames.as_slice()[self.frames.place(t)]
    }

    /// Makes room for the frames of so many more unfinished ones.
    pub fn reserve(&mut self, more: usize) -> Result<(), AllocError>
        ensures { self.new ≡ self.old }
    {
        self.frames.reserve(more)
    }

    /// Puts a transaction that begins at the end.
    pub fn push(&mut self, frame: Frame) -> Result<(), AllocError>
        requires number { frame.t ≡ length self.old + 1 }
        ensures ok { OnOk result (self.new ≡ self.old ++ Forward frame ∷ []) }
        ensures err { OnErr result (self.new ≡ self.old) }
    {
        self.frames.push(frame)?;
        if let Err(error) = note_begun(&mut self.progresses) {
            self.frames.pop();
            return Err(error);
        }
        Ok(())
    }

    /// Makes of an unfinished transaction what becomes of it.
    pub fn change(&mut self, t: u64, becomes: Becomes)
        requires { IsSomeAnd (transaction_at t self.old) (λ x. IsSome (frame_in x)) }
        ensures { (x : TheTransaction) → transaction_at t self.old ≡ Some x → self.new ≡ slice_set self.old (t - 1) (left_by becomes x) }
    {
        let at = self.frames.place(t);
        match becomes {
            Becomes::Turns(cause) => {
                self.frames.turn_back(at);
                note(&mut self.progresses, t, Progress::Undoing(cause));
            }
            Becomes::Stands(standing) => self.frames.go_on(at, standing),
            Becomes::Ends(reply) => {
                self.frames.remove(at);
                note(&mut self.progresses, t, Progress::Ended(reply));
            }
        }
    }
}
