// A new journal that begins with events and a state.
ghost use Rattle.std.specs.Prelude.{◌≡◌, ◌<◌, ◌+◌, ◌^◌, ◌++◌, [], ◌∷◌, length, All, IfOk, OnOk, vec_len, vec_capacity};
ghost use Rattle.std.specs.Int.{w32, to_be_bytes};
ghost use Rattle.std.specs.Option.{option_map};
ghost use Rattle.acc_wal.specs.Spellings.{body, event_bytes, Fits};
ghost use Rattle.acc_wal.specs.Items.{seal_bytes};
ghost use Rattle.acc_wal.specs.Wals.{IsRecord};
ghost use Rattle.acc_wal.specs.Creating.{seals_behind, IsReady};

use crate::items::Seal;
use crate::sealing::put_seal;
use crate::staging::{close, four, make_room};
use crate::writing::{event_len, put_event};
use acc_base::machines::Event;
use std::alloc::{AllocError, Global};

// The event again.
fn again(event: &Event) -> Result<Event, AllocError>
    ensures { IfOk result (λ copy. copy ≡ event.now) }
{
    Ok(match event {
        Event::Begin(call) => Event::Begin(call.clone()?),
        Event::Step(t) => Event::Step(*t),
        Event::Abort(t, cause) => Event::Abort(*t, *cause),
        Event::Undo(t) => Event::Undo(*t),
    })
}

// Puts the event again behind the events, and its spelling behind the others', with room for one byte more.
fn put_again(staged: &mut Vec<u8>, events: &mut Vec<Event>, event: &Event) -> Result<(), AllocError>
    requires fits { Fits event.now }
    requires short { length (event_bytes event.now) < 2 ^ 32 }
    ensures staged { OnOk result ((staged.new.items ≡ staged.old.items ++ event_bytes event.now)
        × (vec_len staged.new < vec_capacity staged.new)) }
    ensures events { OnOk result (events.new.items ≡ events.old.items ++ event.now ∷ []) }
{
    let copy = again(event)?;
    make_room(staged, event_len(event) + 1, events, 1)?;
    put_event(staged, event);
    events.push(copy)?;
    Ok(())
}

// The events again, and their record.
fn recorded(alloc: Global, events: &[Event]) -> Result<(Vec<u8>, Vec<Event>), AllocError>
    requires each { All Fits events.now }
    requires short { length (body events.now) < 2 ^ 32 }
    ensures record { IfOk result (λ made. IsRecord made.0.items 0 2 made.1.items []) }
    ensures events { IfOk result (λ made. made.1.items ≡ events.now) }
    ensures room { IfOk result (λ made. vec_len made.0 < vec_capacity made.0) }
{
    let mut staged = four(alloc)?;
    let mut made = Vec::new(alloc);
    for event in events {
        put_again(&mut staged, &mut made, event)?;
    }
    Ok((staged, made))
}

// The events again, the state behind them, and the record of both.
fn recorded_all(
    alloc: Global,
    events: &[Event],
    seal: Option<&[u8]>,
) -> Result<(Vec<u8>, Vec<Event>, Vec<Seal>), AllocError>
    requires each { All Fits events.now }
    requires short { length (body events.now)
        + seal_bytes (seals_behind (length events.now) (option_map (λ text. text.now) seal)) < 2 ^ 32 }
    ensures record { IfOk result (λ made. IsRecord made.0.items 0 2 made.1.items made.2.items) }
    ensures events { IfOk result (λ made. made.1.items ≡ events.now) }
    ensures seals { IfOk result (λ made. made.2.items ≡ seals_behind (length events.now) (option_map (λ text. text.now) seal.entry)) }
    ensures room { IfOk result (λ made. vec_len made.0 < vec_capacity made.0) }
{
    let (mut staged, made) = recorded(alloc, events)?;
    let mut seals = Vec::new(alloc);
    if let Some(text) = seal {
        put_seal(&mut staged, &mut seals, made.len() as u64, text)?;
    }
    Ok((staged, made, seals))
}

// All behind the first byte: the version, the base text, and a batch's closed record behind its open gate.
fn rest_from(alloc: Global, base: &[u8], closed: &[u8]) -> Result<Vec<u8>, AllocError>
    requires { length base.now < 2 ^ 32 }
    ensures { IfOk result (λ rest. rest.items ≡ 2 ∷ to_be_bytes w32 (length base.now) ++ base.now ++ 0xA5 ∷ closed.now) }
{
    let mut rest = Vec::new(alloc);
    rest.push(2)?;
    rest.extend_from_slice(&(base.len() as u32).to_be_bytes())?;
    rest.extend_from_slice(base)?;
    rest.push(0xA5)?;
    rest.extend_from_slice(closed)?;
    Ok(rest)
}

/// A new journal that begins with events and a state: what is kept of it, and all its bytes behind the first.
#[derive(Drop)]
pub struct Ready {
    pub base: Vec<u8>,
    pub events: Vec<Event>,
    pub seals: Vec<Seal>,
    pub rest: Vec<u8>,
    /// Four bytes for the length of the next record.
    pub staged: Vec<u8>,
    /// Where the last gate stands.
    pub place: u64,
}

/// A new journal that begins with these events and this state.
pub fn ready_with(
    alloc: Global,
    base: &[u8],
    events: &[Event],
    seal: Option<&[u8]>,
) -> Result<Ready, AllocError>
    requires base { length base.now < 2 ^ 32 }
    requires each { All Fits events.now }
    requires some { 0 < length events.now + length (seals_behind (length events.now) (option_map (λ text. text.now) seal)) }
    requires short { length (body events.now)
        + seal_bytes (seals_behind (length events.now) (option_map (λ text. text.now) seal)) < 2 ^ 32 }
    ensures kept { IfOk result (λ ready. (ready.base.items ≡ base.now) × (ready.events.items ≡ events.now)
        × (ready.seals.items ≡ seals_behind (length events.now) (option_map (λ text. text.now) seal.entry))) }
    ensures is { IfOk result (λ ready. IsReady ready.base.items ready.events.items ready.seals.items ready.rest.items ready.place) }
    ensures staged { IfOk result (λ ready. (length ready.staged.items ≡ 4) × (vec_len ready.staged < vec_capacity ready.staged)) }
{
    let (mut staged, events, seals) = recorded_all(alloc, events, seal)?;
    close(&mut staged);
    let rest = rest_from(alloc, base, &staged)?;
    let place = 6 + base.len() as u64 + staged.len() as u64;
    staged.truncate(4);
    Ok(Ready {
        base: base.to_vec(alloc)?,
        events,
        seals,
        rest,
        staged,
        place,
    })
}
