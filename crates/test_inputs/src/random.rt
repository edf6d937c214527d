use rand::rngs::SmallRng;
use rand::seq::IndexedRandom;
use rand::{RngExt, SeedableRng};

/// Random numbers that the seed fixes, so that each run of a test has the same.
#[derive(Drop)]
pub struct Random {
    generator: SmallRng,
}

impl Random {
    pub fn new(seed: u64) -> Self {
        Random {
            generator: SmallRng::seed_from_u64(seed),
        }
    }

    /// A number below the bound, or 0 where that is 0.
    pub fn below(&mut self, bound: usize) -> usize {
        if bound == 0 {
            return 0;
        }
        self.generator.random_range(..bound)
    }

    /// One of these, or the default of the type where there is none.
    pub fn one_of<T: Copy + Default>(&mut self, choices: &[T]) -> T {
        choices
            .choose(&mut self.generator)
            .copied()
            .unwrap_or_default()
    }
}
