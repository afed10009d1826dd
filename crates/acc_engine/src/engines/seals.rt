// States that are put behind the history.
use super::Engine;
use crate::errors::EngineError;
use crate::sealing::{due_text, push_text};
use acc_disk::Disk;
use acc_store::Store;
use std::alloc::Global;

impl<'a, S: Store, D: Disk> Engine<'a, S, D> {
    ghost use Rattle.std.specs.Prelude.{◌≡◌, [], true, IfOk, IfErr, OnOk, OnErr, Err};
    ghost use Rattle.acc_base.specs.Machine.{unfinished};
    ghost use Rattle.acc_io.specs.Causes.{Rose};
    ghost use Rattle.acc_engine.specs.Calls.{StaysBut, RefusesTurn, StopsSealing};
    ghost use Rattle.acc_engine.specs.Sealing.{SealsSo, EndsSealed};
    ghost use Rattle.acc_engine.specs.Standing.{IsSound};
    ghost use Rattle.acc_engine.specs.Surviving.{Survives};
    ghost use Rattle.acc_engine.specs.declared.errors.EngineError.TheVariants.{Failed};

    /// Puts the text of all rows behind the events, where the journal's version has states, the text has at most `LONGEST_SEAL` bytes, and
    /// no state stands at this place yet; it tells whether it did. The text waits for the next settling. It takes its memory first, makes
    /// no call of the disk, and costs a pass over the states, the rows and their bytes.
    pub fn seal(&mut self, alloc: Global) -> Result<bool, EngineError>
        requires idle { unfinished self.old.state ≡ [] }
        requires quiet { self.old.waiting ≡ [] }
        ensures ok { IfOk result (λ sealed. SealsSo sealed self.old self.new) }
        ensures kept { (self.new.state ≡ self.old.state) × (self.new.begun ≡ self.old.begun) }
        ensures err { OnErr result (self.new.waiting ≡ []) }
        ensures why { IfErr result (λ error. RefusesTurn error self.old.failed) }
        ensures failed { self.old.failed ≡ true → (result ≡ Err Failed) × (self.new ≡ self.old) }
        ensures stays { StaysBut self.old self.new }
        ensures sound { IsSound D.told self.new }
    {
        self.standing();
        if self.failed {
            return Err(EngineError::Failed);
        }
        let Ok(due) = due_text(alloc, &self.state, &self.wal) else {
            return Err(EngineError::Memory);
        };
        let Some(text) = due else {
            return Ok(false);
        };
        match push_text(&mut self.wal, text.as_slice()) {
            Ok(()) => Ok(true),
            Err(_) => Err(EngineError::Memory),
        }
    }

    /// Makes the history durable with the text of all rows behind it, as `seal` and then `settle` do: where there is no state to put, it is
    /// made durable without. After `Memory` nothing is changed.
    ///
    /// From a calm disk a crash at any moment of the call leaves a journal of the events that were durable before, or of all events.
    pub fn seal_and_settle(&mut self, alloc: Global) -> Result<(), EngineError>
        requires idle { unfinished self.old.state ≡ [] }
        requires quiet { self.old.waiting ≡ [] }
        ensures ok { OnOk result (EndsSealed self.new) }
        ensures kept { (self.new.state ≡ self.old.state) × (self.new.begun ≡ self.old.begun) }
        ensures err { OnErr result (self.new.settled ≡ self.old.settled) }
        ensures why { IfErr result (λ error. StopsSealing error self.old.failed self.new.failed
            (Rose (D.faults self.old.disk) (D.faults self.new.disk))) }
        ensures failed { self.old.failed ≡ true → (result ≡ Err Failed) × (self.new ≡ self.old) }
        ensures survives { Survives D.clock D.left_since D.told D.may_leave D.faults self.old self.new }
        ensures sound { IsSound D.told self.new }
    {
        self.seal(alloc)?;
        self.settle()?;
        Ok(())
    }
}
