//! Drawn numbers for tests: the same in each run.
#![tactic(auto)]

#[cfg(test)]
mod tests;

ghost use Rattle.std.specs.Prelude.{◌≡◌, ◌/◌, ◌%◌, ◌^◌, ◌<◌};
ghost use Rattle.test_draws.specs.Sequence.{next_of};

use std::marker::Model;

/// What a number of the sequence is multiplied by to get the next one.
const MULTIPLIER: u64 = 6_364_136_223_846_793_005;

/// What is added then.
const INCREMENT: u64 = 1_442_695_040_888_963_407;

/// Draws numbers from a fixed sequence. Contracts see it as the number of the sequence that the
/// last draw came from, which is 1 before the first.
///
/// It is a linear congruential generator. A draw takes the upper bits, which repeat last.
#[derive(Drop)]
pub struct Draws {
    last: u64,
}

impl Model for Draws {
    ghost use Rattle.std.specs.Prelude.{ℕ};

    ghost Value = { ℕ };

    ghost view = { λ d. d.last };
}

impl Draws {
    /// Draws from the beginning of the sequence.
    pub fn new() -> Draws
        ensures { result ≡ 1 }
    {
        Draws { last: 1 }
    }

    /// The next number drawn, below a bound.
    pub fn below(&mut self, bound: u64) -> u64
        requires { 0 < bound }
        ensures next { self.new ≡ next_of self.old }
        ensures drawn { result ≡ self.new / 2 ^ 33 % bound }
        ensures below { result < bound }
    {
        self.last = self.last.wrapping_mul(MULTIPLIER).wrapping_add(INCREMENT);
        (self.last >> 33) % bound
    }
}
