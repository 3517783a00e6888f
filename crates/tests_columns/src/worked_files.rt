//! Whole files whose bytes were worked out by hand. docs/FORMATS.md shows most of them.

use crate::expected::expect_fault;
use block_core::Format;
use column_core::encode_list;
use column_file::ColumnError;
use shapes::Shape;
use std::alloc::{AllocError, Global};
use std::process::Abort;
use std::test::Fail;

// The first values of a shape, each so much more.
type First = (Shape, u16, u64);

// A front, a piece so many times, and a back.
type Parts<'a> = (&'a [u8], (&'a [u8], u16), &'a [u8]);

fn values_of(
    alloc: Global,
    (shape, count, more): First,
    last: &[u64],
) -> Result<Vec<u64>, AllocError> {
    let mut values = shape.values(alloc, count as usize)?;
    for value in values.iter_mut() {
        *value = value.wrapping_add(more);
    }
    values.extend_from_slice(last)?;
    Ok(values)
}

fn bytes_of(alloc: Global, (front, (piece, times), back): Parts) -> Result<Vec<u8>, AllocError> {
    let mut bytes = Vec::from_slice(alloc, front)?;
    for _ in 0..times {
        bytes.extend_from_slice(piece)?;
    }
    bytes.extend_from_slice(back)?;
    Ok(bytes)
}

// The list of the first values and the last ones has the file of these parts, and it is accepted.
fn expect_file(
    rt: &impl Abort,
    alloc: Global,
    format: Format,
    first: First,
    last: &[u64],
    parts: Parts,
) -> Result<(), ColumnError> {
    let values = values_of(alloc, first, last)?;
    let file = bytes_of(alloc, parts)?;
    assert!(rt; values.len() <= 4096, "few values in {format:?}");
    let column = encode_list(alloc, values.as_slice(), format)?;
    assert!(rt;
        column.encoded() == file.as_slice(),
        "{} values in {format:?}: {} bytes, of which {} are wanted",
        values.len(),
        column.encoded().len(),
        file.len()
    );
    expect_fault(rt, alloc, file.as_slice(), None)
}

// One file in each format. The list is the values of a shape, each so much more, and the last values.
#[test]
fn the_file_of_each_format_has_the_bytes_that_are_shown(rt: HostRuntime) -> Result<(), Fail> {
    for (format, first, last, front, piece, back) in [
        (
            Format::Plain,
            (Shape::Constant(0), 0, 0),
            [10, 20, 30, 40, 50].as_slice(),
            b"MCOL\x02\0\0\x40\x05\0\0\0\0\0\0\0\x0a\0\0\0\0\0\0\0\x14\0\0\0\0\0\0\0\x1e\0\0\0\0\0\0\0\x28\0\0\0\0\0\0\0\x32".as_slice(),
            (b"\0".as_slice(), 7),
            b"".as_slice(),
        ),
        (
            Format::Static,
            (Shape::Constant(1), 1024, 0),
            &[1, 2, 3],
            b"MCOL\x02\x01\x01\x02\x03\x04\0\0\0\0\0\0",
            (b"\xff", 128),
            b"\x39",
        ),
        (
            Format::Dynamic,
            (
                Shape::Turning {
                    first: 0,
                    second: 1,
                    times: 1024,
                },
                2048,
                0,
            ),
            &[5, 0, 7],
            b"MCOL\x02\x02\0\x03\x03\x08\0\0\0\0\0\0\x20\0\0\0\0\0\0\0\x21\0\0\0\0\0\0\0\0\x01",
            (b"\xff", 128),
            b"\xc5\x01",
        ),
        (
            Format::Runs,
            (
                Shape::Turning {
                    first: 7,
                    second: 9,
                    times: 512,
                },
                1024,
                0,
            ),
            &[1993, 1994],
            b"MCOL\x02\x03\0\x0b\x02\x04\0\0\0\0\0\0\x18\0\0\0\0\0\0\0\x02\0\x07\0\0\0\0\0\0\0\0\x02\x09\0\0\0\0\0\0\0\0\x02",
            (b"", 0),
            b"\xc9\x57\x3e",
        ),
        (
            Format::Delta1Dynamic,
            (Shape::Stepping { first: 5, step: 1 }, 1024, 0),
            &[1029, 1030],
            b"MCOL\x02\x04\0\x0b\x02\x04\0\0\0\0\0\0\x18\0\0\0\0\0\0\0\x05\0\0\0\0\0\0\0\x01\xfe",
            (b"\xff", 127),
            b"\x05\x34\x20",
        ),
        (
            Format::Delta16Dynamic,
            (
                Shape::Counting {
                    times: 16,
                    below: 64,
                },
                1024,
                5,
            ),
            &[],
            b"MCOL\x02\x05\0\0\0\x04\0\0\0\0\0\0\x18\0\0\0\0\0\0\0\x05\0\0\0\0\0\0\0\x01",
            (b"\xfe\xff\xff\xff\xff\xff\xff\xff", 16),
            b"",
        ),
        (
            Format::ReferenceDynamic,
            (
                Shape::Turning {
                    first: 100,
                    second: 101,
                    times: 1023,
                },
                1024,
                0,
            ),
            &[0, 0],
            b"MCOL\x02\x06\0\0\x02\x04\0\0\0\0\0\0\x18\0\0\0\0\0\0\0\x64\0\0\0\0\0\0\0\x01",
            (b"\0", 127),
            b"\x80",
        ),
        (
            Format::Delta1Runs,
            (Shape::FALLING, 1024, 0),
            &[],
            b"MCOL\x02\x07\0\0\0\x04\0\0\0\0\0\0\x18\0\0\0\0\0\0\0\xff\x03\0\0\0\0\0\0\x02\0\0\0\0\0\0\0\0\0\x01\0",
            (b"\xff", 8),
            b"\xff\x03",
        ),
    ] {
        expect_file(&rt, rt.alloc(), format, first, last, (front, piece, back))?;
    }
    Ok(())
}

// Blocks of one value, and lists without a whole block. A directory stands in front of a block only.
#[test]
fn each_short_file_has_the_bytes_that_were_worked_out(rt: HostRuntime) -> Result<(), Fail> {
    for (format, first, last, front, piece, back) in [
        (
            Format::Dynamic,
            (Shape::Constant(0), 1024, 0),
            [].as_slice(),
            b"MCOL\x02\x02\0\0\0\x04\0\0\0\0\0\0\x18\0\0\0\0\0\0\0\0".as_slice(),
            (b"".as_slice(), 0),
            b"".as_slice(),
        ),
        (
            Format::Dynamic,
            (Shape::Constant(u64::MAX >> 1), 1024, 0),
            &[],
            b"MCOL\x02\x02\0\0\0\x04\0\0\0\0\0\0\x18\0\0\0\0\0\0\0\x3f",
            (b"\xff", 8064),
            b"",
        ),
        (
            Format::ReferenceDynamic,
            (Shape::Constant(u64::MAX), 1024, 0),
            &[],
            b"MCOL\x02\x06\0\0\0\x04\0\0\0\0\0\0\x18\0\0\0\0\0\0\0",
            (b"\xff", 8),
            b"\0",
        ),
        (
            Format::Runs,
            (Shape::Constant(0), 0, 0),
            &[1993, 1994],
            b"MCOL\x02\x03\0\x0b\x02\0\0\0\0\0\0\0",
            (b"", 0),
            b"\xc9\x57\x3e",
        ),
        (
            Format::Runs,
            (Shape::Constant(0), 0, 0),
            &[35, 80, 10],
            b"MCOL\x02\x03\0\x07\x03\0\0\0\0\0\0\0",
            (b"", 0),
            b"\x23\xa8\x02",
        ),
    ] {
        expect_file(&rt, rt.alloc(), format, first, last, (front, piece, back))?;
    }
    Ok(())
}
