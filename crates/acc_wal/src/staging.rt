// The bytes that the next settling writes, and the room for them.
ghost use Rattle.std.specs.Prelude.{◌≡◌, ◌⊎◌, ◌≤◌, ◌<◌, ◌+◌, ◌*◌, ◌^◌, ◌++◌, [], ◌∷◌, length, drop, IfOk, OnOk, OnErr, vec_len};
ghost use Rattle.std.specs.Prelude.{vec_capacity};
ghost use Rattle.std.specs.Int.{w32, to_be_bytes};

use crate::writing::SHORTEST_EVENT;
use std::alloc::{AllocError, Global};

// Four bytes for a length, with room for one more.
pub fn four(alloc: Global) -> Result<Vec<u8>, AllocError>
    ensures { IfOk result (λ staged. (length staged.items ≡ 4) × (vec_len staged < vec_capacity staged)) }
{
    let mut staged = Vec::with_capacity(alloc, 5)?;
    staged.extend_from_slice(&[0, 0, 0, 0])?;
    Ok(staged)
}

// How many events find room in so many bytes, where each is of the shortest.
pub fn places_of(bytes: usize) -> usize
    ensures enough { bytes ≤ SHORTEST_EVENT * result }
    ensures least { SHORTEST_EVENT * result < bytes + SHORTEST_EVENT }
{
    if bytes % SHORTEST_EVENT == 0 {
        bytes / SHORTEST_EVENT
    } else {
        bytes / SHORTEST_EVENT + 1
    }
}

// Makes room for so many bytes more and so many events or states more.
pub fn make_room<T>(
    staged: &mut Vec<u8>,
    bytes: usize,
    list: &mut Vec<T>,
    places: usize,
) -> Result<(), AllocError>
    ensures staged { (staged.new.items ≡ staged.old.items) × (vec_len staged.new ≡ vec_len staged.old)
        × (vec_capacity staged.old ≤ vec_capacity staged.new) }
    ensures list { (list.new.items ≡ list.old.items) × (vec_len list.new ≡ vec_len list.old)
        × (vec_capacity list.old ≤ vec_capacity list.new) }
    ensures ok { OnOk result ((vec_len staged.new + bytes ≤ vec_capacity staged.new)
        × (vec_len list.new + places ≤ vec_capacity list.new)) }
    ensures err { OnErr result ((vec_capacity staged.old < vec_len staged.old + bytes)
        ⊎ (vec_capacity list.old < vec_len list.old + places)) }
{
    staged.reserve(bytes)?;
    list.reserve(places)
}

// Puts the bytes in the place of as many at the front.
fn put_front(staged: &mut Vec<u8>, front: &[u8])
    requires { length front.now ≤ vec_len staged.old }
    ensures items { staged.new.items ≡ front.now ++ drop (length front.now) staged.old.items }
    ensures len { vec_len staged.new ≡ vec_len staged.old }
    ensures capacity { vec_capacity staged.new ≡ vec_capacity staged.old }
{
    let at = 0;
    staged[at..at + front.len()].copy_from_slice(front);
}

// Puts the length of what stands behind the first four bytes into them, and a closed gate at the end.
pub fn close(staged: &mut Vec<u8>)
    requires long { 4 ≤ vec_len staged.old }
    requires short { vec_len staged.old < 2 ^ 32 + 4 }
    requires room { vec_len staged.old < vec_capacity staged.old }
    ensures items { staged.new.items ≡ to_be_bytes w32 (length (drop 4 staged.old.items)) ++ drop 4 staged.old.items ++ 0 ∷ [] }
    ensures len { vec_len staged.new ≡ vec_len staged.old + 1 }
    ensures capacity { vec_capacity staged.old ≤ vec_capacity staged.new }
{
    let count = (staged.len() - 4) as u32;
    put_front(staged, &count.to_be_bytes());
    if staged.push(0).is_err() {
        unreachable!();
    }
}
