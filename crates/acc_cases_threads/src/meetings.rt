//! A gate at which two transactions meet between their steps.
use acc_workers::Gate;
use std::hint;
use std::sync::atomic::{AtomicBool, Ordering};

/// Ahead of this turn each of the two waits for the other.
const TURN: u64 = 2;

/// A transaction looks so often for the other, half a second of a processor's time; then it goes on without it.
const LOOKS: u64 = 100_000_000;

/// One of the two: its number, whether it is there, and whether it found the other one there.
#[derive(Drop)]
struct Meeter {
    t: u64,
    is_there: AtomicBool,
    has_met: AtomicBool,
}

impl Meeter {
    /// It isn't there yet.
    fn new(t: u64) -> Meeter {
        Meeter {
            t,
            is_there: AtomicBool::new(false),
            has_met: AtomicBool::new(false),
        }
    }

    /// Comes, and looks for the other.
    fn meet(&self, other: &Meeter) {
        self.is_there.store(true, Ordering::SeqCst);
        for _ in 0..LOOKS {
            if other.is_there.load(Ordering::SeqCst) {
                self.has_met.store(true, Ordering::SeqCst);
                break;
            }
            hint::spin_loop();
        }
    }
}

/// Two transactions, each of which waits for the other ahead of its second turn. So they meet where each has made its first turn before the
/// other has ended, which needs two workers.
#[derive(Drop)]
pub struct Meeting {
    one: Meeter,
    other: Meeter,
}

impl Meeting {
    /// A meeting of the transactions with these numbers.
    pub fn new(one: u64, other: u64) -> Meeting {
        Meeting {
            one: Meeter::new(one),
            other: Meeter::new(other),
        }
    }

    /// Whether each of them found the other there.
    pub fn took_place(&self) -> bool {
        self.one.has_met.load(Ordering::SeqCst) && self.other.has_met.load(Ordering::SeqCst)
    }
}

impl Gate for Meeting {
    fn before(&self, _worker: u64, t: u64, turn: u64) {
        if turn != TURN {
            return;
        }
        if t == self.one.t {
            self.one.meet(&self.other);
        } else if t == self.other.t {
            self.other.meet(&self.one);
        }
    }

    fn after(&self, _worker: u64, _t: u64, _ended: bool) {}
}
