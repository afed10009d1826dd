//! How far workers are, on standard error, where that is a terminal.
use crate::streams::write_error;
use acc_diagnose::work_line;
use acc_workers::Gate;
use std::io::IsTerminal;
use std::sync::atomic::{AtomicBool, AtomicU64, Ordering};
use std::time::Instant;

/// So many milliseconds pass before the first telling, and between two of them.
const SECOND: u64 = 1_000;

/// In the place of the last telling's time while a worker tells.
const NOW: u64 = u64::MAX;

/// Tells on standard error, to a terminal only, how many transactions have ended, how many of them in the last second, and how many are
/// under way. Whichever worker finds that a second is over tells; no other waits for it. What fails changes nothing else.
#[derive(Drop)]
pub struct TerminalGate<'a> {
    rt: &'a HostRuntime,
    // when the work began, if there are a terminal and a clock
    start: Option<Instant>,
    begun: AtomicU64,
    ended: AtomicU64,
    // the milliseconds from the start to the last telling, and how many had ended then
    told: AtomicU64,
    told_ended: AtomicU64,
    has_line: AtomicBool,
}

/// When the work begins, if there are a terminal and a clock.
fn start_of(rt: &HostRuntime) -> Option<Instant> {
    if rt.stderr().is_terminal() {
        Instant::now(rt).ok()
    } else {
        None
    }
}

impl<'a> TerminalGate<'a> {
    /// Nothing is told yet.
    pub fn new(rt: &'a HostRuntime) -> Self {
        TerminalGate {
            rt,
            start: start_of(rt),
            begun: AtomicU64::new(0),
            ended: AtomicU64::new(0),
            told: AtomicU64::new(0),
            told_ended: AtomicU64::new(0),
            has_line: AtomicBool::new(false),
        }
    }

    /// The milliseconds from the start to now.
    fn since(&self, start: Instant) -> u64 {
        match start.elapsed(self.rt) {
            Ok(gone) => u64::try_from(gone.as_millis()).unwrap_or(0),
            Err(_) => 0,
        }
    }

    /// Tells, if a second is over since the last telling, and no other worker tells.
    fn tell_if_due(&self, start: Instant) {
        let gone = self.since(start);
        let told = self.told.load(Ordering::SeqCst);
        let pause = gone.saturating_sub(told);
        if pause >= SECOND
            && self
                .told
                .compare_exchange(told, NOW, Ordering::SeqCst, Ordering::SeqCst)
                .is_ok()
        {
            self.put_line(pause);
            self.told.store(gone, Ordering::SeqCst);
        }
    }

    /// Writes a line in the place of the one that stands there, behind a pause of so many milliseconds.
    fn put_line(&self, pause: u64) {
        let ended = self.ended.load(Ordering::SeqCst);
        let before = self.told_ended.swap(ended, Ordering::SeqCst);
        let under_way = self.begun.load(Ordering::SeqCst).saturating_sub(ended);
        let a_second = ended.saturating_sub(before).saturating_mul(SECOND) / pause.max(1);
        if let Ok(line) = work_line(self.rt.alloc(), ended, a_second, under_way) {
            write_error(self.rt, line.as_bytes());
            self.has_line.store(true, Ordering::SeqCst);
        }
    }

    /// Ends the line that tells how far the workers are, if one stands there.
    pub fn end_line(&self) {
        if self.has_line.load(Ordering::SeqCst) {
            write_error(self.rt, b"\n");
        }
    }
}

impl Gate for TerminalGate<'_> {
    fn before(&self, _worker: u64, _t: u64, turn: u64) {
        if turn == 1 {
            self.begun.fetch_add(1, Ordering::SeqCst);
        }
    }

    fn after(&self, _worker: u64, _t: u64, ended: bool) {
        if ended {
            self.ended.fetch_add(1, Ordering::SeqCst);
        }
        if let Some(start) = self.start {
            self.tell_if_due(start);
        }
    }
}
