//! `L` numbers side by side, over the vectors of `std::simd`.

ghost use Rattle.std.specs.Prelude.{◌≡◌, ℕ, ◌+◌, ◌-◌, ◌*◌, ◌/◌, ◌%◌, ◌^◌, ◌<◌, ◌≤◌, ◌↔◌, ◌++◌, length, map, take, drop, replicate, sum, slice_index, bit_and, bit_or};
ghost use Rattle.std.specs.Int.{IsBitSet};
ghost use Rattle.std.specs.Simd.Lanes.{zip2};

use std::marker::Model;
use std::simd::Simd;

/// A vector of `L` unsigned 64-bit lanes, at the widths 1, 2, 4, 8 and 16.
#[derive(Clone, Copy, Drop)]
pub struct Lanes<const L: usize> {
    lanes: [u64; L],
}

impl<const L: usize> Model for Lanes<L> {
    ghost use Rattle.std.specs.Prelude.{◌≡◌, ℕ, List, length};

    ghost Value = { List ℕ };

    ghost view = { λ v. v.lanes };

    ghost invariant = { λ v. length v.lanes ≡ L };

    ghost inverse = { λ l. record { lanes = l } };
}

impl<const L: usize> Lanes<L> {
    /// The first `L` words.
    pub fn load(words: &[u64]) -> Lanes<L>
        requires { L ≤ length words.now }
        ensures { result ≡ take L words.now }
    {
        Lanes {
            lanes: Simd::from_slice(words).to_array(),
        }
    }

    /// Writes the lanes over the first `L` words.
    pub fn store(self, into: &mut [u64])
        requires { L ≤ length into.old }
        ensures stored { into.new ≡ self.entry ++ drop L into.old }
        ensures lanes { length self.entry ≡ L }
    {
        Simd::from_array(self.lanes).copy_to_slice(into);
    }

    /// The value in each lane.
    pub fn splat(value: u64) -> Lanes<L>
        ensures { result ≡ replicate L value }
    {
        Lanes {
            lanes: Simd::splat(value).to_array(),
        }
    }

    /// The sums, mod 2^64.
    pub fn add(self, other: Lanes<L>) -> Lanes<L>
        ensures { result ≡ zip2 (λ a b. (a + b) % 2 ^ 64) self.entry other.entry }
    {
        Lanes {
            lanes: (Simd::from_array(self.lanes) + Simd::from_array(other.lanes)).to_array(),
        }
    }

    /// The differences, mod 2^64.
    pub fn sub(self, other: Lanes<L>) -> Lanes<L>
        ensures { result ≡ zip2 (λ a b. (a + 2 ^ 64 - b) % 2 ^ 64) self.entry other.entry }
    {
        words_fit(&other.lanes);
        Lanes {
            lanes: (Simd::from_array(self.lanes) - Simd::from_array(other.lanes)).to_array(),
        }
    }

    /// Each lane shifted towards the high bits; what leaves at the top is lost.
    pub fn shift_up(self, bits: u32) -> Lanes<L>
        requires { bits < 64 }
        ensures { result ≡ map (λ a. a * 2 ^ bits % 2 ^ 64) self.entry }
    {
        Lanes {
            lanes: (Simd::from_array(self.lanes) << Simd::splat(u64::from(bits))).to_array(),
        }
    }

    /// Each lane shifted towards the low bits.
    pub fn shift_down(self, bits: u32) -> Lanes<L>
        requires { bits < 64 }
        ensures { result ≡ map (λ a. a / 2 ^ bits) self.entry }
    {
        Lanes {
            lanes: (Simd::from_array(self.lanes) >> Simd::splat(u64::from(bits))).to_array(),
        }
    }

    /// Bit by bit.
    pub fn and(self, other: Lanes<L>) -> Lanes<L>
        ensures { result ≡ zip2 bit_and self.entry other.entry }
    {
        Lanes {
            lanes: (Simd::from_array(self.lanes) & Simd::from_array(other.lanes)).to_array(),
        }
    }

    /// Bit by bit.
    pub fn or(self, other: Lanes<L>) -> Lanes<L>
        ensures { result ≡ zip2 bit_or self.entry other.entry }
    {
        Lanes {
            lanes: (Simd::from_array(self.lanes) | Simd::from_array(other.lanes)).to_array(),
        }
    }

    /// A mask whose bit `i` says whether lane `i` is from `low` to `high`; the first lane is the lowest bit.
    pub fn in_range(self, low: u64, high: u64) -> u16
        ensures lanes { L ≤ 16 → (lane : ℕ) → lane < L → IsBitSet result lane ↔ ((low ≤ slice_index self.entry lane) × (slice_index self.entry lane ≤ high)) }
        ensures no_more { result < 2 ^ L }
    {
        // A mask of 16 bits has no room for a seventeenth lane.
        if L > 16 || low > high {
            return 0;
        }

        // One comparison tests both ends: a lane below `low` wraps to a difference above `high - low`.
        words_fit(&self.lanes);
        let differences = Simd::from_array(self.lanes) - Simd::splat(low);
        differences.simd_le(Simd::splat(high - low)).to_bitmask() as u16
    }

    /// The sum of the lanes, which fits 128 bits.
    pub fn sum_u128(self) -> u128
        ensures { result ≡ sum self.entry }
    {
        let mut total = 0;
        for lane in self.lanes {
            total += u128::from(lane);
        }
        total
    }
}

// That a word is below 2^64 follows from the type of a slice. A call tells it to the proof, and costs nothing.
#[inline(always)]
fn words_fit(words: &[u64])
    ensures { (k : ℕ) → slice_index words.now k < 2 ^ 64 }
{}
