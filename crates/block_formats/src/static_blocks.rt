//! The format `static`: packed at one width for the whole column.

ghost use Rattle.definitions_blocks.specs.Packed.{IsPacked};
ghost use Rattle.definitions_blocks.proofs.PackedLaws.{packed_one_encoding, packed_prefix, IsPacked-full, IsPacked-sized};

use block_core::{Block, Packing};
use strand_pack::{MAX_WIDTH, packed_len};

/// A block packed at the column's width, in `128 * width` bytes. The param is the width; a block with a value of 2^width or
/// more has no encoding under it, and no block has one under a width above 64.
pub struct Static<const L: usize>;

impl<const L: usize> Packing for Static<L> {
    type Param = u8;

    type Head = ();

    ghost encodes = { λ width values bytes. IsPacked width values bytes };

    ghost block_head = { λ _ _. tt };

    fn head_of(_width: u8, _full: &Block) {}

    fn byte_len(width: u8, _head: ()) -> usize {
        packed_len(width)
    }

    fn head_in(_width: u8, _bytes: &[u8]) {}

    fn encode(width: u8, _head: (), full: &Block, into: &mut [u8]) {
        strand_pack::pack::<L>(full, width, into);
    }

    fn check(width: u8, bytes: &[u8]) -> Option<((), usize)> {
        if width > MAX_WIDTH || bytes.len() < packed_len(width) {
            return None;
        }
        Some(((), packed_len(width)))
    }

    fn decode(width: u8, _head: (), bytes: &[u8], into: &mut Block) {
        strand_pack::unpack::<L>(bytes, width, into);
    }

    ghost laws = { record {
      full = IsPacked-full;
      octets = λ width values bytes p. p.octets;
      one = packed_one_encoding;
      front = packed_prefix;
      sized = λ width values others a b p q _. IsPacked-sized width values others a b p q;
    } };
}
