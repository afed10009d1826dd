//! Numbers drawn from the words of a generator.
ghost use Rattle.std.specs.Prelude.{◌≡◌, ◌≤◌, ◌<◌, ◌^◌};
ghost use Rattle.tpcc_gen.specs.Draws.{words_from, random, uneven};

use rand_core::utils::NextWord;
use rand_pcg::Pcg32;
use std::marker::Model;

/// The constant C of NURand.
const RUN_TIME_CONSTANT: u64 = 77;

/// The words of PCG32 from a number on, and what is drawn from them.
#[derive(Drop)]
pub struct Words {
    generator: Pcg32,
}

impl Model for Words {
    ghost use Rattle.rand_pcg.specs.Lcg.{Lcg};

    ghost Value = { Lcg };

    ghost view = { λ words. words.generator };
}

impl Words {
    /// The words from this number on, of the stream 1.
    pub fn new(start: u64) -> Self
        ensures { result ≡ words_from start }
    {
        Words {
            generator: Pcg32::new(start, 1),
        }
    }

    /// A number from `low` to `high`, by the next word.
    #[tactic(auto, unfolding(crate::specs::Draws::random))]
    pub fn random(&mut self, low: u64, high: u64) -> u64
        requires some { low ≤ high }
        requires small { high < 2 ^ 32 }
        ensures value { result ≡ (random low high self.old).0 }
        ensures moved { self.new ≡ (random low high self.old).1 }
        ensures from { low ≤ result }
        ensures to { result ≤ high }
    {
        let word = u64::from(self.generator.next_word());
        low + word % (high - low + 1)
    }

    /// A number from `low` to `high` that isn't drawn evenly: NURand with the constant 77, by two words.
    #[tactic(auto, unfolding(crate::specs::Draws::uneven))]
    pub fn uneven(&mut self, most: u64, low: u64, high: u64) -> u64
        requires some { low ≤ high }
        requires small { high < 2 ^ 32 }
        requires most { most < 2 ^ 32 }
        ensures value { result ≡ (uneven most low high self.old).0 }
        ensures moved { self.new ≡ (uneven most low high self.old).1 }
        ensures from { low ≤ result }
        ensures to { result ≤ high }
    {
        let left = self.random(0, most);
        let right = self.random(low, high);
        ((left | right) + RUN_TIME_CONSTANT) % (high - low + 1) + low
    }
}
