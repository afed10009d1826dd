// States that wait.
ghost use Rattle.std.specs.Prelude.{◌≡◌, ◌≤◌, ◌<◌, ◌+◌, ◌^◌, ◌++◌, [], ◌∷◌, length, OnOk, OnErr, vec_len, vec_capacity};
ghost use Rattle.std.specs.Int.{w32, to_be_bytes};

use crate::items::Seal;
use crate::staging::make_room;
use crate::writing::put_state;
use acc_base::sequences::Seq;
use std::alloc::AllocError;

// Puts a state with this text and place behind the states, and its spelling behind the others', with room for one byte more.
pub fn put_seal(
    staged: &mut Vec<u8>,
    seals: &mut Vec<Seal>,
    place: u64,
    text: &[u8],
) -> Result<(), AllocError>
    requires { length text.now < 2 ^ 32 }
    ensures staged { OnOk result ((staged.new.items ≡ staged.old.items ++ (5 ∷ to_be_bytes w32 (length text.now) ++ text.now))
        × (vec_len staged.new ≡ vec_len staged.old + (5 + length text.now)) × (vec_len staged.new < vec_capacity staged.new)) }
    ensures seals { OnOk result ((seals.new.items ≡ seals.old.items ++ record { place = place; text = text.now } ∷ [])
        × (vec_len seals.new ≡ vec_len seals.old + 1)) }
    ensures err { OnErr result ((staged.new.items ≡ staged.old.items) × (vec_len staged.new ≡ vec_len staged.old)
        × (seals.new.items ≡ seals.old.items) × (vec_len seals.new ≡ vec_len seals.old)) }
    ensures capacity { vec_capacity staged.old ≤ vec_capacity staged.new }
{
    let copy = text.to_vec(*staged.allocator())?;
    make_room(staged, text.len() + 6, seals, 1)?;
    put_state(staged, text);
    let text = Seq::from_vec(copy);
    if seals.push(Seal { place, text }).is_err() {
        unreachable!();
    }
    Ok(())
}
