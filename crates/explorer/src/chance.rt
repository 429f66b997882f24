//! Numbers by chance.

/// A linear congruential generator of 64 bits, with the constants of Knuth's MMIX. Of each of its states the upper half
/// is used.
#[derive(Drop)]
pub struct Chance {
    state: u64,
}

impl Chance {
    /// The numbers that follow from this one.
    pub fn new(seed: u64) -> Chance {
        Chance { state: seed }
    }

    /// The next number below a limit; 0 where the limit is 0.
    pub fn below(&mut self, limit: usize) -> usize {
        self.state = self
            .state
            .wrapping_mul(6_364_136_223_846_793_005)
            .wrapping_add(1_442_695_040_888_963_407);
        if limit == 0 {
            return 0;
        }
        (self.state >> 33) as usize % limit
    }

    /// One of these items; none where there is none.
    pub fn among<T: Copy>(&mut self, items: &[T]) -> Option<T> {
        items.get(self.below(items.len())).copied()
    }
}
