//! Blocks that are checked once, and decoded through references to their bytes.

ghost use Rattle.std.specs.Prelude.{◌≡◌, IfSome};
ghost use Rattle.definitions_blocks.specs.Packings.{IsBlock};

use crate::encodings::{column_width, encoded};
use block_core::{Block, BlockRef, Format, Packing};
use block_formats::{Dynamic, Static, Words};
use cascade_formats::{Cascade, Delta1, Delta16, Reference};
use run_formats::Runs;
use shapes::Shape;
use std::alloc::Global;
use std::process::Abort;
use std::test::Fail;

/// The block that the bytes begin with, where they begin with one.
fn reference_to<'a, P: Packing>(param: P::Param, bytes: &'a [u8]) -> Option<BlockRef<'a, P>>
    ensures { IfSome result (λ block. IsBlock P.encodes P.block_head block.param block.head block.bytes.now) }
{
    let (head, len) = P::check(param, bytes)?;
    Some(BlockRef {
        param,
        head,
        bytes: &bytes[..len],
    })
}

/// Leaves the block in `into`.
fn open<P: Packing>(block: BlockRef<P>, into: &mut Block)
    requires { IsBlock P.encodes P.block_head block.param block.head block.bytes.now }
    ensures { P.encodes block.entry.param into.new block.entry.bytes.now }
{
    let BlockRef { param, head, bytes } = block;
    P::decode(param, head, bytes, into);
}

/// Whether the bytes are a block, and a reference to it gives these values.
fn gives<P: Packing>(param: P::Param, bytes: &[u8], values: &[u64]) -> bool {
    let mut block = Block::new();
    match reference_to::<P>(param, bytes) {
        Some(reference) => {
            let len = reference.bytes.len();
            open(reference, &mut block);
            len == bytes.len() && block.as_slice() == values
        }
        None => false,
    }
}

// Random values of 13 bits, encoded in the format, are given back.
fn expect_given(rt: &impl Abort, alloc: Global, format: Format) -> Result<(), Fail> {
    let block = Shape::Scattered { bits: 13 }.block();
    let width = column_width(format, &block);
    let bytes = encoded::<8>(alloc, format, width, &block)?;
    let (bytes, values) = (bytes.as_slice(), block.as_slice());
    let given = match format {
        Format::Plain => gives::<Words>((), bytes, values),
        Format::Static => gives::<Static<8>>(width, bytes, values),
        Format::Dynamic => gives::<Dynamic<8>>((), bytes, values),
        Format::Runs => gives::<Runs>((), bytes, values),
        Format::Delta1Dynamic => gives::<Cascade<Delta1<8>, Dynamic<8>>>((), bytes, values),
        Format::Delta16Dynamic => gives::<Cascade<Delta16<8>, Dynamic<8>>>((), bytes, values),
        Format::ReferenceDynamic => gives::<Cascade<Reference<8>, Dynamic<8>>>((), bytes, values),
        Format::Delta1Runs => gives::<Cascade<Delta1<8>, Runs>>((), bytes, values),
    };
    assert!(rt; given, "{format:?}");
    Ok(())
}

#[test]
fn a_block_that_was_checked_is_decoded_by_its_reference(rt: HostRuntime) -> Result<(), Fail> {
    for format in Format::ALL {
        expect_given(&rt, rt.alloc(), format)?;
    }
    Ok(())
}
