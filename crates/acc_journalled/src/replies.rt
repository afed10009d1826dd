//! The replies of a state in which nothing is unfinished.
ghost use Rattle.std.specs.Prelude.{◌≡◌, [], IfOk};
ghost use Rattle.acc_base.specs.Machine.{unfinished};
ghost use Rattle.acc_journalled.specs.Recovering.{replies_of};

use acc_index_store::IndexStore;
use acc_recover::State;
use acc_script::push_reply;
use std::alloc::{AllocError, Global};

/// The reply line of each transaction, by number. There are no more transactions than events.
pub fn reply_lines(alloc: Global, state: &State<IndexStore>) -> Result<Vec<u8>, AllocError>
    requires ended { unfinished state.now.world ≡ [] }
    ensures { IfOk result (λ text. text.items ≡ replies_of state.now.world) }
{
    let mut text = Vec::new(alloc);
    for at in 0..state.events().len() as u64 {
        let Some(reply) = state.reply(at + 1) else {
            break;
        };
        push_reply(&mut text, at + 1, reply)?;
    }
    Ok(text)
}
