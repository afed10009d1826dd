//! How the end of a replica is spelled.
use acc_cases_words::rows::push_row_answer;
use acc_replica::{Replica, ReplicaError};
use acc_store::Store;
use std::alloc::{AllocError, Global};
use std::fmt::Write;

/// Pushes why a replica doesn't go on.
fn push_refusal(out: &mut String, error: ReplicaError) -> Result<(), AllocError> {
    match error {
        ReplicaError::NotJournal => out.push_str("none"),
        ReplicaError::OtherVersion(version) => write!(out, "version {version}"),
        ReplicaError::OtherDesign => out.push_str("design"),
        ReplicaError::Damaged(place) => write!(out, "damaged {place}"),
        ReplicaError::Past(place) => write!(out, "past {place}"),
        ReplicaError::Unlawful(at) => write!(out, "unlawful {at}"),
        ReplicaError::Differs(place) => write!(out, "state {place}"),
        ReplicaError::Memory => out.push_str("memory"),
    }
}

/// Pushes the refusal, if there was one, how many events are done, of how many, and how many transactions are unfinished.
pub fn push_end<S: Store>(
    out: &mut String,
    replica: &Replica<S>,
    refusal: Option<ReplicaError>,
) -> Result<(), AllocError> {
    if let Some(error) = refusal {
        push_refusal(out, error)?;
        out.push_str(", ")?;
    }
    write!(
        out,
        "done {} of {} unfinished {}",
        replica.done(),
        replica.settled(),
        replica.unfinished()
    )
}

/// Pushes the same, and the rows.
pub fn push_end_with_rows<S: Store>(
    alloc: Global,
    out: &mut String,
    replica: &Replica<S>,
    refusal: Option<ReplicaError>,
) -> Result<(), AllocError> {
    push_end(out, replica, refusal)?;
    out.push_str(", ")?;
    push_row_answer(alloc, out, replica.store(), &["rows"])
}
