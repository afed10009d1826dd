//! The frames of unfinished transactions, in order of number.
ghost use Rattle.std.specs.Prelude.{◌≡◌, ◌<◌, ◌-◌, [], ◌∷◌, ◌++◌, length, take, Some, OnOk, OnErr, remove, slice_get, slice_set};
ghost use Rattle.acc_base.specs.declared.machines.Frame.{Frame as TheFrame};
ghost use Rattle.acc_plain.specs.Change.{turned_back, standing_at};
ghost use Rattle.acc_plain.specs.Kept.{IsRising, IsAt, Holds};

use crate::changes::Standing;
use acc_base::designs::Side;
use acc_base::machines::Frame;
use std::alloc::{AllocError, Global};
use std::marker::Model;

/// Frames in order of number. Contracts see them as a list.
///
/// A frame is found by its number in time that grows with the logarithm of how many there are. To take out the first costs
/// constant time, over many calls; to take out another costs a move of those behind it.
#[derive(Drop)]
pub struct Frames {
    slots: Vec<Frame>,
    /// How many slots, from the first on, hold frames that have been taken out.
    gone: usize,
}

impl Model for Frames {
    ghost use Rattle.std.specs.Prelude.{◌≤◌, List, length, drop};
    ghost use Rattle.acc_base.specs.declared.machines.Frame.{Frame as TheFrame};

    ghost Value = { List TheFrame };

    ghost view = { λ m. drop m.gone m.slots.items };

    ghost invariant = { λ m. m.gone ≤ length m.slots.items };
}

impl Frames {
    /// No frames.
    pub fn new(alloc: Global) -> Self
        ensures { result ≡ [] }
    {
        Frames {
            slots: Vec::new(alloc),
            gone: 0,
        }
    }

    /// The frames.
    pub fn as_slice(&self) -> &[Frame]
        ensures { result.now ≡ self.now }
    {
        &self.slots.as_slice()[self.gone..]
    }

    /// The place, from 0, of the frame with this number.
    pub fn place(&self, t: u64) -> usize
        requires rising { IsRising self.now }
        requires held { Holds self.now t }
        ensures { IsAt self.now t result }
    {
        self.as_slice().partition_point(|frame| frame.t < t)
    }

    /// Makes room for so many more frames.
    pub fn reserve(&mut self, more: usize) -> Result<(), AllocError>
        ensures { self.new ≡ self.old }
    {
        self.slots.reserve(more)
    }

    /// Puts a frame at the end.
    pub fn push(&mut self, frame: Frame) -> Result<(), AllocError>
        ensures ok { OnOk result (self.new ≡ self.old ++ frame ∷ []) }
        ensures err { OnErr result (self.new ≡ self.old) }
    {
        self.slots.push(frame)?;
        Ok(())
    }

    /// Takes out the last frame.
    pub fn pop(&mut self)
        requires held { 0 < length self.old }
        ensures { self.new ≡ take (length self.old - 1) self.old }
    {
        self.slots.pop();
    }

    /// Turns the frame at this place to its undo side.
    pub fn turn_back(&mut self, at: usize)
        requires within { at < length self.old }
        ensures { (f : TheFrame) → slice_get self.old at ≡ Some f → self.new ≡ slice_set self.old at (turned_back f) }
    {
        self.slots[self.gone + at].side = Side::Undo;
    }

    /// Lets the frame at this place go on from a point.
    pub fn go_on(&mut self, at: usize, standing: Standing)
        requires within { at < length self.old }
        ensures { (f : TheFrame) → slice_get self.old at ≡ Some f → self.new ≡ slice_set self.old at (standing_at standing f) }
    {
        let frame = &mut self.slots[self.gone + at];
        frame.locals = standing.locals;
        frame.pos = standing.pos;
        frame.point = standing.point;
        frame.steps = standing.steps;
    }

    /// Takes out the frame at this place.
    pub fn remove(&mut self, at: usize)
        requires within { at < length self.old }
        ensures { self.new ≡ remove self.old at }
    {
        if at > 0 {
            self.slots.remove(self.gone + at);
            return;
        }
        self.gone += 1;
        if self.gone > self.slots.len() - self.gone {
            self.compact();
        }
    }

    /// Lets go of the frames that have been taken out.
    fn compact(&mut self)
        ensures { self.new ≡ self.old }
    {
        let left = self.slots.len() - self.gone;
        self.slots.rotate_left(self.gone);
        self.slots.truncate(left);
        self.gone = 0;
    }
}
