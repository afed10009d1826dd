//! Causes by name.
use acc_base::machines::Cause;

/// The cause that a word names, if it names one, with the number of a refusal.
pub fn cause(word: &str, number: u32) -> Option<Cause> {
    match word {
        "refused" => Some(Cause::Refused(number)),
        "range" => Some(Cause::Range),
        "limit" => Some(Cause::Limit),
        "asked" => Some(Cause::Asked),
        "victim" => Some(Cause::Victim),
        "crash" => Some(Cause::Crash),
        _ => None,
    }
}
