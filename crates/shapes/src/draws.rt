//! Random numbers, and lists of them.

ghost use Rattle.std.specs.Prelude.{◌≡◌, length};
ghost use Rattle.shapes.specs.Generators.{state_after};

/// The next state of a linear congruential generator. Its high bits are the random ones.
pub fn next_state(state: u64) -> u64
    ensures { result ≡ state_after state }
{
    state
        .wrapping_mul(6_364_136_223_846_793_005)
        .wrapping_add(1_442_695_040_888_963_407)
}

/// Random numbers of so many bits, each for a random number of places. Each is added to a base.
#[derive(Clone, Copy, Debug)]
pub struct Random {
    /// The generator's state before the first number.
    pub seed: u64,
    /// From 1 to 64.
    pub bits: u32,
    /// For how many places a number stands at most, at least 1.
    pub longest: u64,
    pub base: u64,
    /// Whether each sum is the base of the next value.
    pub rises: bool,
}

impl Random {
    /// Writes the values from the first on.
    pub(crate) fn write(self, into: &mut [u64])
        ensures { length into.new ≡ length into.old }
    {
        let unused = 64 - self.bits.max(1).min(64);
        let mut state = self.seed;
        let mut left = 0;
        let mut drawn = 0;
        let mut base = self.base;
        for value in into.iter_mut() {
            if left == 0 {
                state = next_state(state);
                drawn = state >> unused;
                state = next_state(state);
                left = (state >> 33) % self.longest.max(1) + 1;
            }
            left -= 1;
            *value = base.wrapping_add(drawn);
            if self.rises {
                base = *value;
            }
        }
    }
}
