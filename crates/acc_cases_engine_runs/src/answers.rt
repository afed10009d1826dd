//! How answers of an engine are spelled.
use acc_base::machines::Turn;
use acc_engine::{Drawn, EngineError};
use std::alloc::AllocError;
use std::fmt::Write;

/// Pushes why a call of an engine isn't done.
pub fn push_engine_error(out: &mut String, error: EngineError) -> Result<(), AllocError> {
    match error {
        EngineError::Disk => out.push_str("disk"),
        EngineError::Failed => out.push_str("failed"),
        EngineError::Memory => out.push_str("memory"),
    }
}

/// Pushes what came of beginning a place.
pub fn push_drawn(out: &mut String, drawn: Result<Drawn, EngineError>) -> Result<(), AllocError> {
    match drawn {
        Ok(Drawn::Begun(t)) => write!(out, "begun {t}"),
        Ok(Drawn::Empty) => out.push_str("empty"),
        Ok(Drawn::Full) => out.push_str("full"),
        Ok(Drawn::Crowd) => out.push_str("crowd"),
        Err(error) => push_engine_error(out, error),
    }
}

/// Pushes what a turn answered.
pub fn push_turn(out: &mut String, turn: Turn) -> Result<(), AllocError> {
    match turn {
        Turn::Stepped(at) => write!(out, "stepped {} {}", at.ty, at.point),
        Turn::Back(at) => write!(out, "back {} {}", at.ty, at.point),
        Turn::Blocked(holder, entry) => write!(out, "blocked {holder} {entry}"),
        Turn::Turned(cause) => write!(out, "turned {cause:?}"),
        Turn::Ended => out.push_str("ended"),
    }
}

/// Pushes how many events are durable after settling.
pub fn push_settled(out: &mut String, settled: Result<u64, EngineError>) -> Result<(), AllocError> {
    match settled {
        Ok(count) => write!(out, "settled {count}"),
        Err(error) => push_engine_error(out, error),
    }
}
