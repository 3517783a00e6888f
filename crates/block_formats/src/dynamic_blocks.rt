//! The format `dynamic`: packed at the block's own width, which stands before it.

ghost use Rattle.std.specs.Prelude.{◌≡◌, ◌<◌, length, slice_index};
ghost use Rattle.definitions_blocks.specs.Encodings.{IsDynamicBlock, width_of};
ghost use Rattle.definitions_blocks.proofs.DynamicLaws.{IsDynamicBlock-octets, IsDynamicBlock-one, IsDynamicBlock-front, IsDynamicBlock-sized};

use block_core::{Block, Packing};
use strand_pack::{MAX_WIDTH, is_least_width, packed_len};

/// A byte for the least width that holds the values, and the block packed at it: `1 + 128 * width` bytes. The head is the
/// width byte. A byte above the least width is no block.
pub struct Dynamic<const L: usize>;

impl<const L: usize> Packing for Dynamic<L> {
    type Param = ();

    type Head = u8;

    ghost encodes = { λ _ values bytes. IsDynamicBlock values bytes };

    ghost block_head = { λ _ values. width_of values };

    fn head_of(_param: (), full: &Block) -> u8 {
        strand_pack::width_of(full)
    }

    fn byte_len(_param: (), width: u8) -> usize {
        1 + packed_len(width)
    }

    fn head_in(_param: (), bytes: &[u8]) -> u8 {
        width_in(bytes)
    }

    fn encode(_param: (), width: u8, full: &Block, into: &mut [u8]) {
        into[0] = width;
        strand_pack::pack::<L>(full, width, &mut into[1..]);
    }

    fn check(_param: (), bytes: &[u8]) -> Option<(u8, usize)> {
        if bytes.is_empty() {
            return None;
        }
        let width = width_in(bytes);
        if width > MAX_WIDTH || bytes.len() - 1 < packed_len(width) {
            return None;
        }
        let end = 1 + packed_len(width);
        if !is_least_width(&bytes[1..end], width) {
            return None;
        }
        Some((width, end))
    }

    fn decode(_param: (), width: u8, bytes: &[u8], into: &mut Block) {
        strand_pack::unpack::<L>(&bytes[1..], width, into);
    }

    ghost laws = { record {
      full = λ _ values bytes p. p.full;
      octets = λ _ values bytes p. IsDynamicBlock-octets values bytes p;
      one = λ _ values a b p q. IsDynamicBlock-one values a b p q;
      front = λ _ values others a b x y p q e. IsDynamicBlock-front values others a b x y p q e;
      sized = λ _ values others a b p q same. IsDynamicBlock-sized values others a b p q same;
    } };
}

/// The width byte.
fn width_in(bytes: &[u8]) -> u8
    requires { 0 < length bytes.now }
    ensures { result ≡ slice_index bytes.now 0 }
{
    bytes[0]
}
