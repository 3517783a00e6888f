//! The lengths of files, and what their heads say, worked out by hand.

use crate::files::{RISEN, column_of};
use block_core::Format;
use column_core::Column;
use shapes::Shape;
use std::alloc::{AllocError, Global};
use std::process::Abort;
use std::test::Fail;

#[test]
fn a_column_of_no_values_is_its_head_in_every_format(rt: HostRuntime) -> Result<(), Fail> {
    for (format, expected) in [
        (Format::Plain, b"MCOL\x02\x00\0\x40\0\0\0\0\0\0\0\0"),
        (Format::Static, b"MCOL\x02\x01\0\0\0\0\0\0\0\0\0\0"),
        (Format::Dynamic, b"MCOL\x02\x02\0\0\0\0\0\0\0\0\0\0"),
        (Format::Runs, b"MCOL\x02\x03\0\0\0\0\0\0\0\0\0\0"),
        (Format::Delta1Dynamic, b"MCOL\x02\x04\0\0\0\0\0\0\0\0\0\0"),
        (Format::Delta16Dynamic, b"MCOL\x02\x05\0\0\0\0\0\0\0\0\0\0"),
        (
            Format::ReferenceDynamic,
            b"MCOL\x02\x06\0\0\0\0\0\0\0\0\0\0",
        ),
        (Format::Delta1Runs, b"MCOL\x02\x07\0\0\0\0\0\0\0\0\0\0"),
    ] {
        let column = column_of(rt.alloc(), RISEN, 0, format)?;
        assert!(rt; column.encoded() == expected.as_slice(), "{format:?}");
        expect_column(&rt, &column, format, 0, 0, 16);
    }
    Ok(())
}

// What a column says of itself. Its static width is 0 but in `static`, where at least one block is whole.
fn expect_column(
    rt: &impl Abort,
    column: &Column,
    format: Format,
    count: u16,
    width: u8,
    len: usize,
) {
    let width = if format == Format::Static && count >= 1024 {
        width
    } else {
        0
    };
    let found = (
        column.format(),
        column.count(),
        column.static_width(),
        column.encoded().len(),
    );
    assert_eq!(rt;
        found,
        (format, u64::from(count), width, len),
        "{count} values in {format:?}"
    );
}

// At i mod 5 a difference is 1 or 4 less than 0, also to the value 16 places before, so it has all 64 bits. The runs of
// neighbours' differences are one 0, then four times 1 and one -4 in turn: with the 0 they are 410 from the value 0 on, and 411
// from the value 4 on, which begins the second block. The value 0 has width 0, the first 1,023 have 3 and take 384 bytes, 4 has 3
// and takes 1 byte, and so does 3, which has 2.
#[test]
fn every_count_of_cycling_values_takes_the_bytes_that_were_worked_out(
    rt: HostRuntime,
) -> Result<(), Fail> {
    for (format, lengths) in [
        (Format::Plain, [16, 24, 8200, 8208, 8216, 16_408]),
        (Format::Static, [16, 16, 400, 400, 401, 785]),
        (Format::Dynamic, [16, 16, 400, 409, 410, 803]),
        (Format::Runs, [16, 16, 400, 10_266, 10_267, 20_517]),
        (Format::Delta1Dynamic, [16, 16, 400, 8225, 8226, 16_435]),
        (Format::Delta16Dynamic, [16, 16, 400, 8225, 8226, 16_435]),
        (Format::ReferenceDynamic, [16, 16, 400, 417, 418, 819]),
        (Format::Delta1Runs, [16, 16, 400, 4134, 4135, 8263]),
    ] {
        expect_lengths(&rt, rt.alloc(), Shape::CYCLING, 3, format, lengths)?;
    }
    Ok(())
}

// A falling block has 64 bits, its differences to the least value are 1023 to 0, and its neighbours' differences one 0 and then
// -1. Each other value is a word.
#[test]
fn every_count_of_falling_values_takes_the_bytes_that_were_worked_out(
    rt: HostRuntime,
) -> Result<(), Fail> {
    for (format, lengths) in [
        (Format::Plain, [16, 24, 8200, 8208, 8216, 16_408]),
        (Format::Static, [16, 24, 8200, 8208, 8216, 16_408]),
        (Format::Dynamic, [16, 24, 8200, 8217, 8225, 16_426]),
        (Format::Runs, [16, 24, 8200, 10_266, 10_274, 20_524]),
        (Format::Delta1Dynamic, [16, 24, 8200, 8225, 8233, 16_442]),
        (Format::Delta16Dynamic, [16, 24, 8200, 8225, 8233, 16_442]),
        (Format::ReferenceDynamic, [16, 24, 8200, 1313, 1321, 2618]),
        (Format::Delta1Runs, [16, 24, 8200, 54, 62, 100]),
    ] {
        let shape = Shape::FALLING_FROM_MOST;
        expect_lengths(&rt, rt.alloc(), shape, 64, format, lengths)?;
    }
    Ok(())
}

// The lengths of the files of 0, 1, 1,023, 1,024, 1,025 and 2,049 values.
fn expect_lengths(
    rt: &impl Abort,
    alloc: Global,
    shape: Shape,
    width: u8,
    format: Format,
    lengths: [usize; 6],
) -> Result<(), AllocError> {
    let counts = [0, 1, 1023, 1024, 1025, 2049];
    for (count, len) in counts.iter().zip(lengths.iter()) {
        let column = column_of(alloc, shape, *count, format)?;
        expect_column(rt, &column, format, *count, width, *len);
    }
    Ok(())
}

// The file of these values has so many bytes.
fn expect_len(
    rt: &impl Abort,
    alloc: Global,
    shape: Shape,
    count: u16,
    format: Format,
    len: usize,
) -> Result<(), AllocError> {
    let column = column_of(alloc, shape, count, format)?;
    assert_eq!(rt; column.encoded().len(), len, "{shape:?} in {format:?}");
    Ok(())
}

#[test]
fn each_format_takes_the_bytes_that_were_worked_out(rt: HostRuntime) -> Result<(), Fail> {
    for (shape, count, sizes) in [
        (Shape::Constant(0), 1024, [8208, 16, 25, 36, 33, 33, 33, 44]),
        (RISEN, 1025, [8216, 152, 161, 44, 41, 41, 41, 52]),
        (
            Shape::FALLING,
            1024,
            [8208, 1296, 1305, 10_266, 8225, 8225, 1313, 54],
        ),
    ] {
        for (format, size) in Format::ALL.iter().zip(sizes.iter()) {
            expect_len(&rt, rt.alloc(), shape, count, *format, *size)?;
        }
    }
    Ok(())
}

// The last value is in no whole block, so it does not count for the static width. The values of the blocks do not count for the
// tail's width, which is in the byte behind it.
#[test]
fn the_widths_are_those_of_the_whole_blocks_and_of_the_tail(rt: HostRuntime) -> Result<(), Fail> {
    for (place, count, widths) in [
        (1024, 1024, [1, 0]),
        (1024, 1025, [1, 64]),
        (1023, 1024, [64, 0]),
        (2047, 2047, [1, 1]),
        (2047, 2048, [64, 0]),
    ] {
        let shape = Shape::Turning {
            first: 1,
            second: u64::MAX,
            times: place,
        };
        let column = column_of(rt.alloc(), shape, count, Format::Static)?;
        assert!(rt;
            column.static_width() == widths[0]
                && column.encoded().get(6..8) == Some(widths.as_slice()),
            "{count} values, {place} ones"
        );
    }
    Ok(())
}
