//! Numbers by chance.

ghost use Rattle.std.specs.Prelude.{◌≤◌};

/// Numbers by chance. From one seed they are always the same.
#[derive(Clone, Copy, Debug)]
pub struct Chance {
    state: u64,
}

impl Chance {
    pub fn new(seed: u64) -> Chance {
        Chance { state: seed }
    }

    /// A number of at most so much. Knuth's linear congruential generator, by its upper bits.
    pub fn up_to(&mut self, most: usize) -> usize
        ensures { result ≤ most }
    {
        self.state = self
            .state
            .wrapping_mul(6_364_136_223_846_793_005)
            .wrapping_add(1_442_695_040_888_963_407);
        let number = (self.state >> 33) as usize;
        match most.checked_add(1) {
            Some(count) => number % count,
            None => number,
        }
    }
}
