//! Blocks of many shapes, to bytes and back.

ghost use Rattle.std.specs.Prelude.{◌≤◌};
ghost use Rattle.definitions_blocks.specs.Blocks.{IsFull};
ghost use Rattle.definitions_blocks.specs.Formats.{IsColumnWidth, FitsFormat};
ghost use Rattle.block_core.specs.Formats.{format_of};

use crate::encodings::{column_width, encoded, encoding_len, gives_back};
use block_core::{Block, Format};
use column_core::check_block;
use shapes::Shape;
use std::alloc::Global;
use std::process::Abort;
use std::test::Fail;
use strand_pack::width_of;

// At this lane width too the block's encoding is the one that is expected, and gives the block back.
fn expect_at<const L: usize>(
    rt: &impl Abort,
    alloc: Global,
    format: Format,
    width: u8,
    full: &Block,
    expected: &[u8],
    shape: Shape,
) -> Result<(), Fail>
    requires lawful { IsColumnWidth (format_of format) width }
    requires full { IsFull full.now }
    requires fits { FitsFormat (format_of format) width full.now }
{
    let bytes = encoded::<L>(alloc, format, width, full)?;
    assert!(rt;
        bytes.as_slice() == expected,
        "{shape:?} in {format:?} at {L} lanes"
    );
    assert!(rt;
        gives_back::<L>(format, width, expected, full.as_slice()),
        "{shape:?} back from {format:?} at {L} lanes"
    );
    Ok(())
}

// A block is found with its length, alone and with each of these bytes after it.
fn expect_found(
    rt: &impl Abort,
    alloc: Global,
    format: Format,
    width: u8,
    bytes: &[u8],
    shape: Shape,
) -> Result<(), Fail>
    requires { IsColumnWidth (format_of format) width }
{
    let len = Some(bytes.len());
    assert!(rt;
        check_block(format, width, bytes) == len,
        "{shape:?} in {format:?}"
    );
    for after in [0, 1, 0xff] {
        let mut longer = Vec::from_slice(alloc, bytes)?;
        longer.push(after)?;
        assert!(rt;
            check_block(format, width, longer.as_slice()) == len,
            "{shape:?} in {format:?}, and a byte {after}"
        );
    }
    Ok(())
}

// A block of the shape, to bytes and back at each lane width.
fn goes_round(
    rt: &impl Abort,
    alloc: Global,
    format: Format,
    width: u8,
    full: &Block,
    shape: Shape,
) -> Result<(), Fail>
    requires lawful { IsColumnWidth (format_of format) width }
    requires full { IsFull full.now }
    requires fits { FitsFormat (format_of format) width full.now }
{
    let bytes = encoded::<1>(alloc, format, width, full)?;
    let bytes = bytes.as_slice();
    assert_eq!(rt;
        encoding_len(format, width, full),
        bytes.len(),
        "{shape:?} in {format:?}"
    );
    expect_found(rt, alloc, format, width, bytes, shape)?;
    expect_at::<1>(rt, alloc, format, width, full, bytes, shape)?;
    expect_at::<2>(rt, alloc, format, width, full, bytes, shape)?;
    expect_at::<3>(rt, alloc, format, width, full, bytes, shape)?;
    expect_at::<4>(rt, alloc, format, width, full, bytes, shape)?;
    expect_at::<8>(rt, alloc, format, width, full, bytes, shape)?;
    expect_at::<16>(rt, alloc, format, width, full, bytes, shape)
}

// The same for a block that is packed at a greater width than its own.
fn goes_round_within(
    rt: &impl Abort,
    alloc: Global,
    width: u8,
    full: &Block,
    shape: Shape,
) -> Result<(), Fail>
    requires narrow { width ≤ 64 }
    requires full { IsFull full.now }
{
    let least = width_of(full);
    assert!(rt; least < width, "{shape:?} is not narrower than {width}");
    goes_round(rt, alloc, Format::Static, width, full, shape)
}

// A block of the shape, to bytes and back in each format.
fn goes_round_in_every_format(rt: &impl Abort, alloc: Global, shape: Shape) -> Result<(), Fail> {
    let block = shape.block();
    for format in Format::ALL {
        let width = column_width(format, &block);
        goes_round(rt, alloc, format, width, &block, shape)?;
    }
    Ok(())
}

#[test]
fn every_block_comes_back_in_every_format_at_every_lane_width(rt: HostRuntime) -> Result<(), Fail> {
    for shape in Shape::ALL {
        goes_round_in_every_format(&rt, rt.alloc(), shape)?;
    }
    for bits in [1, 5, 33, 63] {
        goes_round_in_every_format(&rt, rt.alloc(), Shape::Scattered { bits })?;
    }
    Ok(())
}

#[test]
fn a_block_that_is_narrower_than_its_column_comes_back(rt: HostRuntime) -> Result<(), Fail> {
    let shape = Shape::Scattered { bits: 5 };
    let block = shape.block();
    for width in 6..=64u8 {
        goes_round_within(&rt, rt.alloc(), width, &block, shape)?;
    }
    Ok(())
}
