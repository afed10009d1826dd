//! How far a long call is, on standard error, where that is a terminal.
use crate::streams::{tell_line, write_error};
use acc_diagnose::{found_line, memory_line, part_line, replay_line, search_line, speed_line};
use acc_progress::{BenchPart, Found, Progress};
use std::alloc::AllocError;
use std::fs;
use std::io::IsTerminal;
use std::time::Instant;

/// Where Linux tells how much memory the process has.
const MEMORY: &str = "/proc/self/status";

/// A replay of fewer events is told of only where it takes long, as an audit does.
const LONG_REPLAY: u64 = 65_536;

/// So many milliseconds pass between two tellings of a replay at least.
const PAUSE: u128 = 250;

/// So many milliseconds pass before the first telling of a search, or of a replay of few events, and between two of them.
const SECOND: u128 = 1_000;

/// Tells on standard error, to a terminal only, how far a long replay or search is, and what a recovery found. What fails changes nothing
/// else.
#[derive(Drop)]
pub struct TerminalProgress<'a> {
    rt: &'a HostRuntime,
    is_terminal: bool,
    told: Option<Instant>,
    begun: Option<Instant>,
    has_line: bool,
}

impl<'a> TerminalProgress<'a> {
    /// Nothing is told yet.
    pub fn new(rt: &'a HostRuntime) -> Self {
        TerminalProgress {
            rt,
            is_terminal: rt.stderr().is_terminal(),
            told: None,
            begun: None,
            has_line: false,
        }
    }

    /// Ends the line that tells how far the call is, if one stands there.
    pub fn end_line(&mut self) {
        if self.has_line {
            write_error(self.rt, b"\n");
            self.has_line = false;
        }
    }

    /// Tells, to whatever standard error is, how fast a benchmark was that made so many events, if one came to its end, and how much memory
    /// the program had.
    pub fn tell_speed(&self, events: usize) {
        let begun = match self.begun {
            Some(begun) if events > 0 => begun,
            Some(_) | None => return,
        };
        if let Ok(took) = begun.elapsed(self.rt) {
            let millis = u64::try_from(took.as_millis()).unwrap_or(u64::MAX);
            tell_line(self.rt, speed_line(self.rt.alloc(), events as u64, millis));
        }
        self.tell_memory();
    }

    /// Tells how much memory the program had at most, if the system tells that.
    fn tell_memory(&self) {
        if let Ok(told) = fs::read_to_string(self.rt, MEMORY) {
            if let Ok(Some(line)) = memory_line(self.rt.alloc(), &told) {
                tell_line(self.rt, Ok(line));
            }
        }
    }

    /// Whether a pause of so many milliseconds since the last telling is over; it begins again then.
    fn is_due(&mut self, pause: u128) -> bool {
        let Ok(now) = Instant::now(self.rt) else {
            return false;
        };
        let due = match self.told {
            Some(told) => now.saturating_duration_since(told).as_millis() >= pause,
            None => true,
        };
        if due {
            self.told = Some(now);
        }
        due
    }

    /// Whether a second is over since the last telling, or since this was asked first.
    fn is_long_due(&mut self) -> bool {
        let is_first = self.told.is_none();
        self.is_due(SECOND) && !is_first
    }

    /// Whether it is time to tell of a replay: of many events at once, and then now and then; of few where it takes long. At its end it is
    /// told where it was told before, and of many in any case.
    fn is_replay_due(&mut self, done: u64, events: u64) -> bool {
        if events >= LONG_REPLAY {
            done == events || self.is_due(PAUSE)
        } else if done == events {
            self.has_line
        } else {
            self.is_long_due()
        }
    }

    /// Writes a line in the place of the one that stands there.
    fn put_line(&mut self, line: Result<String, AllocError>) {
        if let Ok(line) = line {
            write_error(self.rt, line.as_bytes());
            self.has_line = true;
        }
    }
}

impl Progress for TerminalProgress<'_> {
    fn replayed(&mut self, done: u64, events: u64) {
        if self.is_terminal && self.is_replay_due(done, events) {
            self.put_line(replay_line(self.rt.alloc(), done, events));
        }
    }

    fn recovered(&mut self, found: Found) {
        if self.is_terminal {
            self.end_line();
            if let Ok(line) = found_line(self.rt.alloc(), found) {
                write_error(self.rt, line.as_bytes());
            }
        }
    }

    fn searched(&mut self, done: u64, obligations: u64, open: u64) {
        if self.is_terminal && self.is_long_due() {
            self.put_line(search_line(self.rt.alloc(), done, obligations, open));
        }
    }

    fn began(&mut self, part: BenchPart) {
        if self.begun.is_none() {
            self.begun = Instant::now(self.rt).ok();
        }
        if self.is_terminal {
            write_error(self.rt, part_line(part));
            self.has_line = true;
        }
    }
}
