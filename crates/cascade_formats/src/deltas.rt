//! Differences to an earlier value of the block.

ghost use Rattle.std.specs.Prelude.{◌≡◌, length};
ghost use Rattle.definitions_blocks.specs.Blocks.{block_values};
ghost use Rattle.definitions_blocks.specs.Differences.{first_of, delta1_of, delta16_of, AreDelta1Differences, AreDelta16Differences};
ghost use Rattle.definitions_blocks.proofs.DeltaLaws.{delta1_laws, delta16_laws};

use crate::differences::{begin_at_zero, subtract_earlier, sum_strands, sum_up};
use block_core::{Block, Transform, words_fit};

/// Each value's difference to the one before it, mod 2^64. The base is the first value, whose difference is 0.
pub struct Delta1<const L: usize>;

impl<const L: usize> Transform for Delta1<L> {
    type Base = u64;

    ghost base_of = { first_of };

    ghost differences_of = { delta1_of };

    fn split(full: &Block, into: &mut Block) -> u64
        requires { length full.now ≡ block_values }
        ensures base { result ≡ first_of full.now }
        ensures differences { into.new ≡ delta1_of full.now }
        ensures each { AreDelta1Differences result full.now into.new }
    {
        into.fill();
        subtract_earlier::<1>(full.as_slice(), into.as_mut_slice())
    }

    fn join(base: u64, block: &mut Block) {
        sum_up(base, block.as_mut_slice());
    }

    fn allowed(_base: u64, differences: &Block) -> bool {
        let values = differences.as_slice();
        words_fit(values);
        begin_at_zero(values)
    }

    ghost laws = { delta1_laws };
}

/// Each value's difference to the one 16 places before it, mod 2^64, and of the first 16 to the first value, which is the
/// base. The sums that undo them are sums of vectors, since neighbours stand in different strands.
pub struct Delta16<const L: usize>;

impl<const L: usize> Transform for Delta16<L> {
    type Base = u64;

    ghost base_of = { first_of };

    ghost differences_of = { delta16_of };

    fn split(full: &Block, into: &mut Block) -> u64
        requires { length full.now ≡ block_values }
        ensures base { result ≡ first_of full.now }
        ensures differences { into.new ≡ delta16_of full.now }
        ensures each { AreDelta16Differences result full.now into.new }
    {
        into.fill();
        subtract_earlier::<16>(full.as_slice(), into.as_mut_slice())
    }

    fn join(base: u64, block: &mut Block) {
        sum_strands::<L>(base, block.as_mut_slice());
    }

    fn allowed(_base: u64, differences: &Block) -> bool {
        let values = differences.as_slice();
        words_fit(values);
        begin_at_zero(values)
    }

    ghost laws = { delta16_laws };
}
