//! Replies that are durable.
ghost use Rattle.std.specs.Prelude.{◌≡◌, IfOk, IfErr};
ghost use Rattle.acc_engine.specs.Acks.{durable_reply};

use acc_base::machines::{Outcome, Reply};
use acc_base::sequences::copied;
use acc_disk::Disk;
use acc_engine::{Engine, EngineError};
use acc_store::Store;
use std::alloc::AllocError;

// The same reply again.
fn again(reply: &Reply) -> Result<Reply, AllocError>
    ensures { IfOk result (λ copy. copy ≡ reply.now) }
{
    let outcome = match &reply.outcome {
        Outcome::Committed(values) => Outcome::Committed(copied(values)?),
        Outcome::Compensated(cause) => Outcome::Compensated(*cause),
    };
    Ok(Reply {
        t: reply.t,
        outcome,
    })
}

/// A copy of the reply of t, if it is durable.
pub fn reply_of<S: Store, D: Disk>(
    engine: &Engine<S, D>,
    t: u64,
) -> Result<Option<Reply>, EngineError>
    ensures ok { IfOk result (λ reply. reply ≡ durable_reply engine.now t) }
    ensures err { IfErr result (λ error. error ≡ EngineError.Memory) }
{
    match engine.ack(t) {
        None => Ok(None),
        Some(reply) => match again(reply) {
            Ok(reply) => Ok(Some(reply)),
            Err(_) => Err(EngineError::Memory),
        },
    }
}
