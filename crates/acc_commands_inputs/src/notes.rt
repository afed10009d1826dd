//! What the program says of itself.
ghost use Rattle.std.specs.Prelude.{◌≡◌, IfOk};
ghost use Rattle.acc_commands_inputs.specs.Notes.{help_text, version_text};

use std::alloc::{AllocError, Global};

/// Each command, and where the documents are. Each line ends with a line feed.
#[tactic(auto, unfolding(crate::specs::Notes::help_text, crate::specs::Notes::help_lines))]
pub fn help_text(alloc: Global) -> Result<Vec<u8>, AllocError>
    ensures { IfOk result (λ text. text.items ≡ help_text) }
{
    b"acc play DESIGN SCRIPT ORDER                plays the script in the order's turns, and prints the turns and the replies
acc rehearse DESIGN CERT SCRIPT ORDER       the same by rules of locks, if the certificate proves it sound; ends the rest
acc print DESIGN                            prints the design in its one spelling
acc draw DESIGN                             prints a picture of the design, as Graphviz reads it
acc check DESIGN CERT                       tells whether the certificate proves that the design is sound, and else why not
acc prove DESIGN                            makes such a certificate, or tells which obligations stay open
acc advise DESIGN HELD STEP SIDE            tells which entry lets the step go where HELD is held, and forbids least
acc audit DESIGN COPY                       tells whether a clause is false after an event of a journal, whoever wrote it
acc follow DESIGN CERT COPY SIZE            replays a journal's whole batches, read in pieces of SIZE bytes, and prints the rows
acc init DESIGN JOURNAL                     makes JOURNAL a journal of the design without events, if it isn't one already
acc sched DESIGN CERT SCRIPT ORDER JOURNAL  recovers the journal, and goes on as `rehearse`; each end is kept in it
acc run DESIGN CERT SCRIPT WORKERS JOURNAL  recovers the journal, and 1 to 64 workers run the script; each end is kept in it
acc recover DESIGN CERT JOURNAL             ends what its events left unfinished, and tells how many events there are then
acc dump DESIGN CERT JOURNAL                does the same, and prints the rows that its events lead to
acc replies DESIGN CERT JOURNAL             does the same, and prints how each transaction ended, by its number
acc verify DESIGN CERT JOURNAL              does the same, and tells which of TPC-C's conditions 1 to 9 are true of its rows
acc migrate DESIGN CERT OLD JOURNAL         makes JOURNAL a new journal of what is recovered from OLD, which stays as it is
acc tpcc design                             prints the design of TPC-C's transactions that the program brings along
acc tpcc load W ITEMS CUSTOMERS             prints a script that fills W warehouses of TPC-C, 1 to 10, as the standard says
acc tpcc mix W ITEMS CUSTOMERS COUNT START  prints a script of COUNT of TPC-C's transactions behind that, drawn from START
acc booking design                          prints the design of bookings of seats and rooms that the program brings along
acc booking verify DESIGN CERT JOURNAL      recovers a journal of that design, and tells that no seat or room is sold twice
acc bench DESIGN CERT W ITEMS CUSTOMERS COUNT START  runs both in memory, and tells whether TPC-C's conditions are true
acc --help                                  prints these lines
acc --version                               prints the version of acc, and of the toolchain that proved it
README.md tells what acc is for, and docs/DESIGN-LANGUAGE.md how a design is written and how to mend one that is refused.
"
        .to_vec(alloc)
}

/// The version of the program, and the line by which the toolchain that it was proved with names itself.
#[tactic(auto, unfolding(crate::specs::Notes::version_text))]
pub fn version_text(alloc: Global) -> Result<Vec<u8>, AllocError>
    ensures { IfOk result (λ text. text.items ≡ version_text) }
{
    b"acc 0.1.0\nrattle-kit-13f logic dac8208d650f15bf\n".to_vec(alloc)
}
