//! What is told of refused command lines: cases with the status, what is printed and what is told.
//!
//! `base TEXT` gives the design of the cases behind it, and `file NAME` that of the program's folder. `design OLD -> NEW` prints that
//! design with the first OLD exchanged for NEW; `script TEXT` and `order TEXT` play it; `certificate TEXT` checks it; `run WORDS`, `unread
//! WORDS` and `fails WORDS` are command lines, the second over files that can't be read, the third over a sink that fails. `journal BYTES
//! WORDS` is one over a disk with these bytes, two digits each, and `broken BYTES WORDS` over one that fails; there `cert` is `[]`, and
//! `journal` a copy of the bytes. Behind a `+` these stand in the place of the last byte of the journal that `init` makes of the design.
//! `reason NAMES` tells why the system doesn't give a file of the program's folder. `replay DONE EVENTS` is the line of a replay, spelled,
//! `work ENDED RATE UNDER_WAY` that of workers, and `found EVENTS UNFINISHED COMPENSATED` that of a recovery; `room EVENTS` tells how
//! many events a journal of so many has left, and `cut PATH WHY` how to go on with one that is refused for that. In each a `\t` stands for
//! a tab.
#![tactic(auto)]

mod answers;
mod commands;
mod journals;
mod progress;

pub use answers::tell;
