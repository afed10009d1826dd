// How the bytes that a crash leaves free are drawn from a number.
ghost use Rattle.std.specs.Prelude.{◌≡◌, ◌≤◌};

// What stands at the places that a crash leaves free.
#[derive(Clone, Copy)]
enum Kind {
    // what was written, up to a place, and what was synced behind it
    Front,
    // what was synced, up to a place, and what was written behind it
    Back,
    // the digits of the number in base 256, the lowest first, each taken from 255
    Digits,
    // at each place by chance what was written, what was synced or any byte
    Mixed,
}

// A length between two bounds, and a way to draw the bytes. Each length with any bytes is drawn by some number, as far
// as 64 bits reach, and small numbers draw the longest files and the plainest bytes.
#[derive(Drop)]
pub(crate) struct Draw {
    kind: Kind,
    pub(crate) length: usize,
    rest: u64,
}

impl Draw {
    pub(crate) fn new(pick: u64, lowest: usize, highest: usize) -> Draw
        requires { lowest ≤ highest }
        ensures least { lowest ≤ result.length }
        ensures most { result.length ≤ highest }
    {
        let kind = match pick % 4 {
            0 => Kind::Front,
            1 => Kind::Back,
            2 => Kind::Digits,
            _ => Kind::Mixed,
        };
        let lengths = ((highest - lowest) as u64).saturating_add(1);
        let rest = pick / 4;
        Draw {
            kind,
            length: highest - (rest % lengths) as usize,
            rest: rest / lengths,
        }
    }

    // The byte at a place where those bytes were written and synced.
    pub(crate) fn byte(&mut self, place: usize, written: u8, synced: u8) -> u8
        ensures { self.new.length ≡ self.old.length }
    {
        let split = self.rest % (self.length as u64).saturating_add(1);
        let is_before = (place as u64) < split;
        match self.kind {
            Kind::Front => if is_before { written } else { synced },
            Kind::Back => if is_before { synced } else { written },
            Kind::Digits => {
                let digit = (self.rest % 256) as u8;
                self.rest /= 256;
                255 - digit
            }
            Kind::Mixed => mixed(chance(self.rest, place as u64), written, synced),
        }
    }
}

fn mixed(chance: u64, written: u8, synced: u8) -> u8 {
    match chance % 3 {
        0 => written,
        1 => synced,
        _ => (chance / 3 % 256) as u8,
    }
}

// A number that looks like chance: the place-th one behind a seed (Steele, Lea and Flood, SplitMix64, 2014).
fn chance(seed: u64, place: u64) -> u64 {
    let step = place.wrapping_add(1).wrapping_mul(0x9e37_79b9_7f4a_7c15);
    let state = seed.wrapping_add(step);
    let once = (state ^ (state >> 30)).wrapping_mul(0xbf58_476d_1ce4_e5b9);
    let twice = (once ^ (once >> 27)).wrapping_mul(0x94d0_49bb_1331_11eb);
    twice ^ (twice >> 31)
}
