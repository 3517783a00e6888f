//! The format `plain`: 1,024 words of 8 bytes, the little end first.

ghost use Rattle.definitions_blocks.specs.Encodings.{IsPlainBlock};
ghost use Rattle.definitions_blocks.proofs.PlainLaws.{IsPlainBlock-octets, IsPlainBlock-one, IsPlainBlock-front, IsPlainBlock-sized};

use crate::words::{read_words, write_words};
use block_core::{Block, Packing};

/// How many bytes a block has.
const BLOCK_BYTES: usize = 8192;

/// A block as its values' words: 8,192 bytes, with nothing to know of them.
pub struct Words;

impl Packing for Words {
    type Param = ();

    type Head = ();

    ghost encodes = { λ _ values bytes. IsPlainBlock values bytes };

    ghost block_head = { λ _ _. tt };

    fn head_of(_param: (), _full: &Block) {}

    fn byte_len(_param: (), _head: ()) -> usize {
        BLOCK_BYTES
    }

    fn head_in(_param: (), _bytes: &[u8]) {}

    fn encode(_param: (), _head: (), full: &Block, into: &mut [u8]) {
        write_words(full.as_slice(), into);
    }

    fn check(_param: (), bytes: &[u8]) -> Option<((), usize)> {
        if bytes.len() < BLOCK_BYTES {
            return None;
        }
        Some(((), BLOCK_BYTES))
    }

    fn decode(_param: (), _head: (), bytes: &[u8], into: &mut Block) {
        into.fill();
        read_words(bytes, into.as_mut_slice());
    }

    ghost laws = { record {
      full = λ _ values bytes p. p.full;
      octets = λ _ values bytes p. IsPlainBlock-octets values bytes p;
      one = λ _ values a b p q. IsPlainBlock-one values a b p q;
      front = λ _ values others a b x y p q e. IsPlainBlock-front values others a b x y p q e;
      sized = λ _ values others a b p q _. IsPlainBlock-sized values others a b p q;
    } };
}
