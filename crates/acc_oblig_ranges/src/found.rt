//! What stands at a place among numbers.

/// What stands at a place among numbers.
#[derive(Drop)]
pub enum Found<T> {
    /// The number there.
    Number(T),
    /// The place is so far behind them: 0 where it is the first behind the last.
    Behind(usize),
}
