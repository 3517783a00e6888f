//! Blocks whose sizes and bytes were worked out by hand.

use crate::encodings::{column_width, encoded, encoding_len, gives_back, padded};
use block_core::Format;
use shapes::Shape;
use std::alloc::Global;
use std::process::Abort;
use std::test::Fail;

/// 1,023 times 1 and then 2^64 - 1.
pub const LAST_APART: Shape = Shape::Turning {
    first: 1,
    second: u64::MAX,
    times: 1023,
};

// A file of one block has its 16 head bytes and these. A width w takes 128 * w bytes, a run 10 after a count of 2, a base 8.
// A constant block is one run, and all its differences are 0: a base and a width byte, or a base and one run.
//
// The differences of falling values to the value before, or 16 places before, are as good as negative, so they need all 64
// bits: 8 for the base, 1 for the width and 128 * 64. Their least is 0, so their differences to it are themselves, of width 10.
// As runs they are 1,024, and their differences two: one 0, and 2^64 - 1 for the other 1,023.
#[test]
fn each_format_takes_the_bytes_that_were_worked_out(rt: HostRuntime) -> Result<(), Fail> {
    for (shape, sizes) in [
        (Shape::Constant(0), [8192, 0, 1, 12, 9, 9, 9, 20]),
        (Shape::Constant(1), [8192, 128, 129, 12, 9, 9, 9, 20]),
        (
            Shape::FALLING,
            [8192, 1280, 1281, 10242, 8201, 8201, 1289, 30],
        ),
    ] {
        let block = shape.block();
        for (format, size) in Format::ALL.iter().zip(sizes.iter()) {
            let width = column_width(*format, &block);
            let len = encoding_len(*format, width, &block);
            assert_eq!(rt; len, *size, "{shape:?} in {format:?}");
        }
    }
    Ok(())
}

// A block of the shape has these bytes, and they give it back.
fn expect_bytes(
    rt: &impl Abort,
    alloc: Global,
    format: Format,
    shape: Shape,
    expected: &[u8],
) -> Result<(), Fail> {
    let block = shape.block();
    let width = column_width(format, &block);
    let bytes = encoded::<8>(alloc, format, width, &block)?;
    assert!(rt; bytes.as_slice() == expected, "{shape:?} in {format:?}");
    assert!(rt;
        gives_back::<8>(format, width, expected, block.as_slice()),
        "{shape:?} back from {format:?}"
    );
    Ok(())
}

// A word's least byte comes first. 1,024 times 2^63 - 1 has width 63 and only bits that are 1, 63 * 128 bytes of them. 1023, 1022
// and so on have the base 1023 and two runs of differences. The differences of equal values, to the value 16 places before or to
// the least, are 0, of width 0.
#[test]
fn each_block_has_the_bytes_that_were_worked_out(rt: HostRuntime) -> Result<(), Fail> {
    let ones = padded(rt.alloc(), &[0x3f], &[0xff], 8064)?;
    let words = padded(rt.alloc(), &[], &[1, 2, 3, 4, 5, 6, 7, 8], 1024)?;
    for (format, shape, expected) in [
        (
            Format::Plain,
            Shape::Constant(0x0807_0605_0403_0201),
            words.as_slice(),
        ),
        (
            Format::Dynamic,
            Shape::Constant(u64::MAX >> 1),
            ones.as_slice(),
        ),
        (
            Format::Runs,
            Shape::Constant(0),
            b"\x01\0\0\0\0\0\0\0\0\0\0\x04",
        ),
        (
            Format::Runs,
            LAST_APART,
            b"\x02\0\x01\0\0\0\0\0\0\0\xff\x03\xff\xff\xff\xff\xff\xff\xff\xff\x01\0",
        ),
        (
            Format::Delta16Dynamic,
            Shape::Constant(9),
            b"\x09\0\0\0\0\0\0\0\0",
        ),
        (
            Format::Delta1Runs,
            Shape::FALLING,
            b"\xff\x03\0\0\0\0\0\0\x02\0\0\0\0\0\0\0\0\0\x01\0\xff\xff\xff\xff\xff\xff\xff\xff\xff\x03",
        ),
        (
            Format::ReferenceDynamic,
            Shape::Constant(u64::MAX),
            b"\xff\xff\xff\xff\xff\xff\xff\xff\0",
        ),
    ] {
        expect_bytes(&rt, rt.alloc(), format, shape, expected)?;
    }
    Ok(())
}
