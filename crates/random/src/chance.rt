//! Random numbers that follow from a seed.
ghost use Rattle.std.specs.Prelude.{◌≤◌};

use rand::RngExt;
use rand_core::SeedableRng;
use rand_xoshiro::Xoshiro256PlusPlus;

#[derive(Drop)]
pub struct Chance {
    numbers: Xoshiro256PlusPlus,
}

impl Chance {
    pub fn new(seed: u64) -> Chance {
        Chance {
            numbers: Xoshiro256PlusPlus::seed_from_u64(seed),
        }
    }

    /// A number from 0 to `highest`, each as often as another.
    pub fn up_to(&mut self, highest: u64) -> u64
        ensures { result ≤ highest }
    {
        self.numbers.random_range(0..=highest)
    }

    /// A number below `count`, or 0.
    pub fn below(&mut self, count: usize) -> u64 {
        self.up_to((count as u64).saturating_sub(1))
    }

    /// True once in so many times.
    pub fn one_in(&mut self, times: u64) -> bool {
        self.up_to(times.saturating_sub(1)) == 0
    }
}
