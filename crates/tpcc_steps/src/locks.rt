//! The text of the shipped design: entries and hints.

/// Which steps wait for which transactions.
pub const ENTRIES: &[u8] = b"# While an order is being filled, no delivery takes it.
entry neworder.fill by delivery.pick next : w = w, d = d, o = o
entry ldorder.fill by delivery.pick next : w = w, d = d, o = o

";

/// What the search for proofs is told.
pub const HINTS: &[u8] =
    b"# The least order number of those that wait, and the one before it, where the oldest is taken: no other number is between them.
hint delivery.pick next o - 1
hint delivery.pick next o
";
