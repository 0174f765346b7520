//! What is drawn by chance.

use rand_core::utils::NextWord;
use rand_pcg::Pcg32;

/// Numbers by chance: each stream of a seed has its own, from its start the same.
#[derive(Drop)]
pub struct Chance {
    random: Pcg32,
}

impl Chance {
    pub fn new(seed: u64, stream: u64) -> Chance {
        Chance {
            random: Pcg32::new(seed, stream),
        }
    }

    pub fn word(&mut self) -> u32 {
        self.random.next_word()
    }

    pub fn byte(&mut self) -> u8 {
        (self.word() & 0xff) as u8
    }

    /// A number below another; 0 where that is 0.
    pub fn below(&mut self, bound: usize) -> usize {
        self.word() as usize % bound.max(1)
    }

    /// Whether one of so many cases comes.
    pub fn is_one_in(&mut self, cases: usize) -> bool {
        self.below(cases) == 0
    }

    /// One of some, or what stands for it where there is none.
    pub fn one_of<T: Copy>(&mut self, all: &[T], other: T) -> T {
        let place = self.below(all.len());
        all.get(place).copied().unwrap_or(other)
    }
}
