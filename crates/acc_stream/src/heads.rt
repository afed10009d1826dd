// What stands before the batches.
ghost use Rattle.std.specs.Prelude.{◌≡◌};
ghost use Rattle.acc_stream.specs.Reading.{BeginsAs, TellsHead};

use crate::faults::Fault;
use crate::numbers::number_of;

/// What the first bytes of a stream are.
#[derive(Clone, Copy)]
pub enum Head {
    /// The base text isn't whole yet.
    Cut,
    /// They are a journal's of that version and of the base text that is wanted; so many bytes stand before the batches.
    Whole(u32, usize),
    /// They are none.
    Ended(Fault),
}

// Behind the first two bytes: whether the base text is whole, and the one that is wanted.
fn text_of(base: &[u8], bytes: &[u8], version: u32) -> Head
    requires { BeginsAs bytes.now version }
    ensures { TellsHead base.now bytes.now result }
{
    if bytes.len() < 6 {
        return Head::Cut;
    }
    let long = number_of(&bytes[2..]) as usize;
    if bytes.len() - 6 < long {
        return Head::Cut;
    }
    if &bytes[6..6 + long] == base {
        Head::Whole(version, 6 + long)
    } else {
        Head::Ended(Fault::OtherBase)
    }
}

/// What the first bytes of a stream are, where the journal is to have that base text.
pub fn head_of(base: &[u8], bytes: &[u8]) -> Head
    ensures { TellsHead base.now bytes.now result }
{
    if bytes.is_empty() {
        return Head::Cut;
    }
    if bytes[0] != 0xA5 {
        return Head::Ended(Fault::NotJournal);
    }
    if bytes.len() < 2 {
        return Head::Cut;
    }
    let version = bytes[1] as u32;
    if version != 1 && version != 2 {
        return Head::Ended(Fault::OtherVersion(version));
    }
    text_of(base, bytes, version)
}
