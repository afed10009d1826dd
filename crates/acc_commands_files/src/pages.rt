//! Answers by texts that are written part by part.
ghost use Rattle.std.specs.Prelude.{◌≡◌, false, IfOk, OnOk};

use acc_journalled::{Answer, Ending};
use acc_page::Page;
use std::alloc::AllocError;

/// An answer by a text, unless memory lacked for it.
pub fn finished(text: Page, ending: Ending) -> Result<Answer, AllocError>
    ensures whole { OnOk result (text.cut ≡ false) }
    ensures ending { IfOk result (λ a. a.ending ≡ ending) }
    ensures text { IfOk result (λ a. a.text.items ≡ text.text) }
{
    match text.finish() {
        Some(text) => Ok(Answer { ending, text }),
        None => Err(AllocError),
    }
}
