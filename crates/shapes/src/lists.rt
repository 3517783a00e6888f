//! The shapes of lists.

ghost use Rattle.std.specs.Prelude.{◌≡◌, ◌+◌, ◌*◌, ◌/◌, ◌%◌, ◌^◌, ◌<◌, length, slice_index, EachIndex, IfOk};
ghost use Rattle.definitions_blocks.specs.Blocks.{IsFull};
ghost use Rattle.shapes.specs.Lists.{turn_at, AreOf};

use crate::Random;
use block_core::{Block, words_fit};
use std::alloc::{AllocError, Global};

/// What the values of a list look like. `{shape:?}` names it in a message.
#[derive(Clone, Copy, Debug)]
pub enum Shape {
    /// One value throughout.
    Constant(u64),
    /// Each the one before it and a step, mod 2^64.
    Stepping { first: u64, step: u64 },
    /// 0, 1, 2 and so on below a number and then from 0 on, each so many times in a row.
    Counting { times: u64, below: u64 },
    /// Two values in turn, each so many times in a row.
    Turning { first: u64, second: u64, times: u64 },
    /// Random numbers of so many bits.
    Scattered { bits: u32 },
    Random(Random),
}

impl Shape {
    /// 1023, 1022 and so on, to 0 in a block.
    pub const FALLING: Shape = Shape::Stepping {
        first: 1023,
        step: u64::MAX,
    };

    /// Neighbours as far apart as they can be.
    pub const ALTERNATING: Shape = Shape::Turning {
        first: 0,
        second: u64::MAX,
        times: 1,
    };

    /// 2^64 - 1, 2^64 - 2 and so on.
    pub const FALLING_FROM_MOST: Shape = Shape::Stepping {
        first: u64::MAX,
        step: u64::MAX,
    };

    /// 0 to 4, again and again.
    pub const CYCLING: Shape = Shape::Counting { times: 1, below: 5 };

    /// Shapes of every kind, the ends of 64 bits among them.
    pub const ALL: [Shape; 14] = [
        Shape::Constant(0),
        Shape::Constant(7),
        Shape::Constant(u64::MAX),
        Shape::Stepping { first: 0, step: 1 },
        Shape::Stepping {
            first: u64::MAX - 500,
            step: 1,
        },
        Shape::FALLING,
        Shape::FALLING_FROM_MOST,
        Shape::CYCLING,
        Shape::Counting {
            times: 7,
            below: 1 << 20,
        },
        Shape::ALTERNATING,
        Shape::Turning {
            first: u64::MAX,
            second: 0,
            times: 100,
        },
        Shape::Scattered { bits: 13 },
        Shape::Scattered { bits: 64 },
        Shape::Random(Random {
            seed: 1,
            bits: 12,
            longest: 40,
            base: 0,
            rises: true,
        }),
    ];

    /// So many values.
    pub fn values(self, alloc: Global, count: usize) -> Result<Vec<u64>, AllocError>
        ensures count { IfOk result (λ values. length values.items ≡ count) }
        ensures values { IfOk result (λ values. AreOf self values.items) }
    {
        let mut values = vec![in alloc; 0; count]?;
        self.write(values.as_mut_slice());
        Ok(values)
    }

    /// A full block.
    pub fn block(self) -> Block
        ensures full { IsFull result }
        ensures values { AreOf self result }
    {
        let mut block = Block::new();
        block.fill();
        self.write(block.as_mut_slice());
        words_fit(block.as_slice());
        block
    }

    fn write(self, into: &mut [u64])
        ensures count { length into.new ≡ length into.old }
        ensures values { AreOf self into.new }
    {
        match self {
            Shape::Constant(value) => into.fill(value),
            Shape::Stepping { first, step } => write_steps(into, first, step),
            Shape::Counting { times, below } => write_counts(into, times.max(1), below.max(1)),
            Shape::Turning {
                first,
                second,
                times,
            } => write_turns(into, first, second, times.max(1)),
            Shape::Scattered { bits } => scattered(bits).write(into),
            Shape::Random(random) => random.write(into),
        }
    }
}

fn write_steps(into: &mut [u64], first: u64, step: u64)
    ensures count { length into.new ≡ length into.old }
    ensures values { EachIndex into.new (λ place. slice_index into.new place ≡ (first + step * place) % 2 ^ 64) }
{
    for (place, value) in into.iter_mut().enumerate() {
        *value = first.wrapping_add(step.wrapping_mul(place as u64));
    }
}

fn write_counts(into: &mut [u64], times: u64, below: u64)
    requires some { 0 < times }
    requires wide { 0 < below }
    ensures count { length into.new ≡ length into.old }
    ensures values { EachIndex into.new (λ place. slice_index into.new place ≡ place / times % below) }
{
    for (place, value) in into.iter_mut().enumerate() {
        *value = place as u64 / times % below;
    }
}

fn write_turns(into: &mut [u64], first: u64, second: u64, times: u64)
    requires { 0 < times }
    ensures count { length into.new ≡ length into.old }
    ensures values { EachIndex into.new (λ place. slice_index into.new place ≡ turn_at first second times place) }
{
    for (place, value) in into.iter_mut().enumerate() {
        *value = if place as u64 / times % 2 == 0 {
            first
        } else {
            second
        };
    }
}

fn scattered(bits: u32) -> Random {
    Random {
        seed: 1,
        bits,
        longest: 1,
        base: 0,
        rises: false,
    }
}
