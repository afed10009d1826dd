//! What is said of a journal.
ghost use Rattle.std.specs.Prelude.{◌≡◌, ◌≢◌, [], IfOk};
ghost use Rattle.acc_base.specs.Lines.{line};
ghost use Rattle.acc_base.specs.Machine.{unfinished};
ghost use Rattle.acc_journalled.specs.declared.answers.Ending.TheVariants.{Done};
ghost use Rattle.acc_journalled.specs.Tellings.{unrun_telling, Says};
ghost use Rattle.acc_journalled.specs.Making.{IsMakingError, SaysNotMade};
ghost use Rattle.acc_journalled.specs.Recovering.{IsReadingError, IsRecoverError, SaysNotRead, SaysUnlawful, SaysDiffering};
ghost use Rattle.acc_journalled.specs.Recovering.{SaysNotRecovered};
ghost use Rattle.acc_journalled.specs.Recovering.{counts_text, text_of};

use crate::answers::{Answer, Ending, Wanted};
use crate::replies::reply_lines;
use acc_base::designs::Design;
use acc_dump::dump;
use acc_index_store::IndexStore;
use acc_recover::{RecoverError, State};
use acc_wal::WalError;
use std::alloc::{AllocError, Global};

/// An answer of one line.
pub fn one_line(alloc: Global, ending: Ending, text: &str) -> Result<Answer, AllocError>
    ensures { IfOk result (λ a. Says ending (line text.now) (unrun_telling a)) }
{
    let text = format!(in alloc; "{text}\n")?.into_bytes();
    Ok(Answer { ending, text })
}

/// What is said where a journal isn't made.
pub fn not_made(alloc: Global, error: WalError) -> Result<Answer, AllocError>
    requires { IsMakingError error }
    ensures says { IfOk result (λ a. SaysNotMade error (unrun_telling a)) }
    ensures undone { IfOk result (λ a. a.ending ≢ Done) }
{
    match error {
        WalError::Exists => one_line(alloc, Ending::JournalRefused, "refused journal exists"),
        WalError::Disk => one_line(alloc, Ending::DiskFailed, "fault disk"),
        WalError::Memory => Err(AllocError),
        WalError::NotJournal | WalError::OtherVersion(_) | WalError::Damaged(_) | WalError::Spent =>
            unreachable!(),
    }
}

/// What is said of bytes that are no journal's.
fn not_read(alloc: Global, error: WalError) -> Result<Answer, AllocError>
    requires { IsReadingError error }
    ensures says { IfOk result (λ a. SaysNotRead error (unrun_telling a)) }
    ensures undone { IfOk result (λ a. a.ending ≢ Done) }
{
    let text = match error {
        WalError::NotJournal => format!(in alloc; "refused journal none")?,
        WalError::OtherVersion(version) => format!(in alloc; "refused journal version {version}")?,
        WalError::Damaged(place) => format!(in alloc; "refused journal damaged {place}")?,
        WalError::Exists | WalError::Disk | WalError::Spent | WalError::Memory => unreachable!(),
    };
    one_line(alloc, Ending::JournalRefused, text.as_str())
}

/// What is said of a journal with an event that isn't lawful.
fn unlawful(alloc: Global, at: u64) -> Result<Answer, AllocError>
    ensures { IfOk result (λ a. SaysUnlawful at (unrun_telling a)) }
{
    let text = format!(in alloc; "refused journal unlawful {at}")?;
    one_line(alloc, Ending::JournalRefused, text.as_str())
}

/// What is said of a journal with a state that isn't the text of the rows there.
fn differing(alloc: Global, place: u64) -> Result<Answer, AllocError>
    ensures { IfOk result (λ a. SaysDiffering place (unrun_telling a)) }
{
    let text = format!(in alloc; "refused journal state {place}")?;
    one_line(alloc, Ending::JournalRefused, text.as_str())
}

/// What is said where nothing is recovered.
pub fn not_recovered(alloc: Global, error: RecoverError) -> Result<Answer, AllocError>
    requires { IsRecoverError error }
    ensures says { IfOk result (λ a. SaysNotRecovered error (unrun_telling a)) }
    ensures undone { IfOk result (λ a. a.ending ≢ Done) }
{
    match error {
        RecoverError::Journal(error) => not_read(alloc, error),
        RecoverError::OtherDesign => {
            one_line(alloc, Ending::JournalRefused, "refused journal design")
        }
        RecoverError::Unlawful(at) => unlawful(alloc, at),
        RecoverError::Differs(place) => differing(alloc, place),
        RecoverError::Disk => one_line(alloc, Ending::DiskFailed, "fault disk"),
        RecoverError::Memory => Err(AllocError),
    }
}

/// How many events a recovered state has, and how many transactions were compensated.
fn counts(alloc: Global, state: &State<IndexStore>, compensated: u64) -> Result<Vec<u8>, AllocError>
    ensures { IfOk result (λ text. text.items ≡ counts_text state.now.world compensated) }
{
    let events = state.events().len();
    Ok(format!(in alloc; "events {events} compensated {compensated}\n")?.into_bytes())
}

/// What is wanted of a recovered state, in which nothing is unfinished.
fn wanted_text(
    alloc: Global,
    d: &Design,
    wanted: Wanted,
    state: &State<IndexStore>,
    compensated: u64,
) -> Result<Vec<u8>, AllocError>
    requires ended { unfinished state.now.world ≡ [] }
    ensures { IfOk result (λ text. text.items ≡ text_of wanted d.now state.now.world compensated) }
{
    match wanted {
        Wanted::Counts => counts(alloc, state, compensated),
        Wanted::Rows => dump(alloc, d, state.store()),
        Wanted::Replies => reply_lines(alloc, state),
    }
}

/// Says what is wanted of a recovered state, in which nothing is unfinished.
pub fn tell_state(
    alloc: Global,
    d: &Design,
    wanted: Wanted,
    state: &State<IndexStore>,
    compensated: u64,
) -> Result<Answer, AllocError>
    requires ended { unfinished state.now.world ≡ [] }
    ensures { IfOk result (λ a. (a.ending ≡ Done) × (a.text.items ≡ text_of wanted d.now state.now.world compensated)) }
{
    Ok(Answer {
        ending: Ending::Done,
        text: wanted_text(alloc, d, wanted, state, compensated)?,
    })
}
