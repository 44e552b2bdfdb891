//! The generator of numbers.
ghost use Rattle.std.specs.Prelude.{◌≡◌, ℕ, ◌<◌};
ghost use Rattle.trace_reader.specs.Generator.{generator_step, drawn_at, generator_after};
ghost use Rattle.trace_reader.specs.Drawing.{IsDraw};

/// The factor of a step, as in Knuth's MMIX.
const FACTOR: u64 = 6_364_136_223_846_793_005;

/// The increment of a step.
const INCREMENT: u64 = 1_442_695_040_888_963_407;

/// How many low bits of a state are not used: their periods are short.
const UNUSED_BITS: u32 = 33;

/// A linear congruential generator modulo 2^64.
#[derive(Drop)]
pub struct Generator {
    pub state: u64,
}

impl Generator {
    /// Makes a step, and answers the number below the bound that the new state gives.
    pub fn draw(&mut self, bound: u32) -> u32
        requires { 0 < bound }
        ensures below { result < bound }
        ensures draws { (number k : ℕ) → self.old.state ≡ generator_after number k
            → IsDraw number k bound self.new.state result }
    {
        self.step();
        ((self.state >> UNUSED_BITS) % u64::from(bound)) as u32
    }

    /// The next state.
    fn step(&mut self)
        ensures { self.new.state ≡ generator_step self.old.state }
    {
        self.state = self.state.wrapping_mul(FACTOR).wrapping_add(INCREMENT);
    }
}
