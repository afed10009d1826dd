//! The variables of a transaction.
ghost use Rattle.std.specs.Prelude.{◌≡◌, ◌≤◌, ◌^◌, All, slice_set};
ghost use Rattle.acc_base.specs.declared.bounds.TheConstants.{LARGEST_NUMBER};
ghost use Rattle.acc_base.specs.Numbers.{IsSmall};
ghost use Rattle.acc_base.specs.Linear.{var};
ghost use Rattle.acc_base.specs.Runnable.{IsSmallFrame};

use acc_base::bounds::MOST_LOCALS;
use acc_base::machines::Frame;
use acc_store::Inline;

/// The locals of a transaction and its number, which `self` stands for, all in range.
#[derive(Drop)]
pub struct Variables {
    pub locals: Inline<i64, MOST_LOCALS>,
    pub number: u64,
    ghost small: { All IsSmall locals },
    ghost small_number: { number ≤ LARGEST_NUMBER },
}

impl Variables {
    ghost use Rattle.acc_step.specs.Variables.{values_of};

    /// Those of a frame.
    pub fn of(f: &Frame) -> Self
        requires { IsSmallFrame f.now }
        ensures locals { result.locals ≡ f.now.locals }
        ensures number { result.number ≡ f.now.t }
    {
        Variables {
            locals: Inline::from_slice(0, f.locals.as_slice()),
            number: f.t,
        }
    }

    /// The value of a variable: a local, or the transaction's number.
    pub fn value(&self, x: u32) -> i64
        ensures value { result ≡ var (values_of self.now) x }
        ensures small { IsSmall result }
    {
        let place = x as usize;
        let locals = self.locals.as_slice();
        if place < locals.len() {
            locals[place]
        } else if place == locals.len() {
            self.number as i64
        } else {
            0
        }
    }

    /// Assigns a local, where there is such a one.
    pub fn assign(&mut self, x: u32, value: i64)
        requires { IsSmall value }
        ensures locals { self.new.locals ≡ slice_set self.old.locals x value }
        ensures number { self.new.number ≡ self.old.number }
    {
        self.locals.set(x as usize, value);
    }
}
