//! Runs by worker threads over a journal on a disk in memory, and searches for proofs in threads. What is told of them is the same however
//! the machine lets the threads run.
//!
//! Behind `searches DESIGN` it is told whether `prove` answers the same bytes and the same status by searches in threads, so many at once
//! that they don't come out even, as by one search after the other; and the status.
//!
//! The other kinds have the words `WORKERS FROM DESIGN CERT FIRST SCRIPT`, for a run of the script by so many workers. The journal is the
//! one that `init` makes of the design, and behind that a run of the script FIRST without threads; a script without lines leaves it as
//! `init` made it. The calls of the disk from the number FROM on fail, counted from the begin of the workers' run; a `-` is none.
//!
//! Behind `threads` three lines are told, each with what was printed and the status: the run's, and what `recover` and then `dump` answer
//! over the bytes that the disk held afterwards. Behind `interleaves` one word is told, of the transactions 3 and 4, each of which waits
//! ahead of its second turn until the other one is there: `interleaved`, or `missed` where one has waited in vain, as it does where each
//! transaction is taken whole before the next.
//!
//! Behind `verifies` it is told how many replies the run has, which differ in their values, with its status; and what `verify` answers over
//! the bytes that the disk held afterwards.
//!
//! Behind `shares` there is no worker: who holds two passes of the shared engine draws by each, lets them meet, and then asks for the reply
//! of the transaction that began first, gives it a turn, asks for its reply again, and makes the history durable. Then the run is halted,
//! as for want of memory, between two pauses that keep nobody, and a worker draws. A line tells what each of these calls answered; behind
//! it stand the three of `threads`, where `run` has ended what was left.
#![tactic(auto)]

mod answers;
mod calls;
mod meetings;
mod runs;
mod searches;

pub use runs::tell;
