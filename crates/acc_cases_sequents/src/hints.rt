//! Hints as they are spelled.
use acc_base::forms::Lin;
use acc_base::sequences::Seq;
use acc_cert_read::parts::Part;
use serde_json::Value;
use std::alloc::Global;

/// The linear values of a text, if it is a list of such.
pub fn read(alloc: Global, text: &str) -> Option<Seq<Lin>> {
    let value = Value::from_str(alloc, text).ok()?;
    Part::read(alloc, &value).ok()
}
