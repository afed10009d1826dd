//! How answers of a journal and of a recovery are spelled.
use acc_base::machines::Event;
use acc_recover::RecoverError;
use acc_wal::WalError;
use std::alloc::AllocError;
use std::fmt::Write;

/// Pushes why a call of a journal isn't done.
pub fn push_wal_error(out: &mut String, error: WalError) -> Result<(), AllocError> {
    match error {
        WalError::Exists => out.push_str("exists"),
        WalError::NotJournal => out.push_str("none"),
        WalError::OtherVersion(version) => write!(out, "version {version}"),
        WalError::Damaged(place) => write!(out, "damaged {place}"),
        WalError::Disk => out.push_str("disk"),
        WalError::Spent => out.push_str("spent"),
        WalError::Memory => out.push_str("memory"),
    }
}

/// Pushes why nothing is recovered.
pub fn push_recover_error(out: &mut String, error: RecoverError) -> Result<(), AllocError> {
    match error {
        RecoverError::Journal(error) => push_wal_error(out, error),
        RecoverError::OtherDesign => out.push_str("design"),
        RecoverError::Unlawful(at) => write!(out, "unlawful {at}"),
        RecoverError::Differs(place) => write!(out, "state {place}"),
        RecoverError::Disk => out.push_str("disk"),
        RecoverError::Memory => out.push_str("memory"),
    }
}

/// Pushes an event of a recovery.
fn push_event(out: &mut String, event: &Event) -> Result<(), AllocError> {
    match event {
        Event::Begin(_) => out.push_str(" begin"),
        Event::Step(t) => write!(out, " step({t})"),
        Event::Abort(t, cause) => write!(out, " abort({t},{cause:?})"),
        Event::Undo(t) => write!(out, " undo({t})"),
    }
}

/// Pushes events, each behind a blank.
pub fn push_events(out: &mut String, events: &[Event]) -> Result<(), AllocError> {
    for event in events {
        push_event(out, event)?;
    }
    Ok(())
}
