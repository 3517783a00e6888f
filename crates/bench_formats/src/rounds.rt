//! Rounds over eight blocks in a format.

ghost use Rattle.std.specs.Prelude.{◌≡◌, ℕ, ◌^◌, ◌<◌, List, length, All, IfOk};
ghost use Rattle.definitions_blocks.specs.Blocks.{IsFull};
ghost use Rattle.definitions_blocks.specs.Packings.{IsBlock};

use crate::blocks::block_of;
use block_core::{Block, Packing};
use std::alloc::{AllocError, Global};

/// How many blocks a round goes over.
const BLOCKS: u64 = 8;

/// What is to be done.
#[derive(Drop)]
pub struct Work {
    /// Whether blocks are decoded, and not checked.
    pub decodes: bool,
    /// The number of the blocks' shape.
    pub shape: u64,
    pub rounds: u64,
}

/// The bytes of a block, and its head.
#[derive(Drop)]
struct Encoded<P: Packing> {
    head: P::Head,
    bytes: Vec<u8>,
}

/// Makes the blocks, goes over them in each round, and gives a checksum.
pub fn rounds_of<P: Packing>(alloc: Global, param: P::Param, work: &Work) -> Result<u64, AllocError>
    requires { (values : List ℕ) → IsFull values → (bytes : List ℕ) × (length bytes < 2 ^ 64) × P.encodes param values bytes }
{
    let mut blocks = Vec::new(alloc);
    for number in 0..BLOCKS {
        let full = block_of(work.shape, number + 1);
        blocks.push(encoding_of::<P>(alloc, param, &full)?)?;
    }
    if work.decodes {
        Ok(decode_rounds(param, blocks.as_slice(), work.rounds))
    } else {
        Ok(check_rounds(param, blocks.as_slice(), work.rounds))
    }
}

/// The encoding of a block.
fn encoding_of<P: Packing>(
    alloc: Global,
    param: P::Param,
    full: &Block,
) -> Result<Encoded<P>, AllocError>
    requires full { IsFull full.now }
    requires some { (bytes : List ℕ) × (length bytes < 2 ^ 64) × P.encodes param full.now bytes }
    ensures { IfOk result (λ block. IsBlock P.encodes P.block_head param block.head block.bytes.items) }
{
    let head = P::head_of(param, full);
    let mut bytes = vec![in alloc; 0; P::byte_len(param, head)]?;
    P::encode(param, head, full, bytes.as_mut_slice());
    Ok(Encoded { head, bytes })
}

/// Decodes the blocks in each round, and adds up a value of each.
fn decode_rounds<P: Packing>(param: P::Param, blocks: &[Encoded<P>], rounds: u64) -> u64
    requires { All (λ block. IsBlock P.encodes P.block_head param block.head block.bytes.items) blocks.now }
{
    let mut block = Block::new();
    let mut sum = 0u64;
    for round in 0..rounds {
        for encoded in blocks {
            P::decode(param, encoded.head, encoded.bytes.as_slice(), &mut block);
            let values = block.as_slice();
            sum = sum.wrapping_add(values[(round & 1023) as usize]);
        }
    }
    sum
}

/// Checks the blocks in each round, and adds up their lengths.
fn check_rounds<P: Packing>(param: P::Param, blocks: &[Encoded<P>], rounds: u64) -> u64 {
    let mut sum = 0u64;
    for round in 0..rounds {
        for encoded in blocks {
            if let Some((_, len)) = P::check(param, encoded.bytes.as_slice()) {
                sum = sum.wrapping_add(len as u64 ^ round);
            }
        }
    }
    sum
}
