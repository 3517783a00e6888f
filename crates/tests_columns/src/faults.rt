//! Blocks and static widths that are none, with the first fault of the file. Each stands in files of both versions.

use crate::expected::{
    ByFormat, ENTRY, FIRST, HEADER, SECOND, Said, TAIL, THIRD, WIDTH, expect_file_fault,
    expect_in_both, fault_in,
};
use crate::files::{column_of, first_file_of, first_head, head, packed};
use block_core::Format;
use column_file::ColumnError;
use shapes::Shape;
use std::alloc::Global;
use std::process::Abort;
use std::test::Fail;

// Two runs of 512 times 5, which would be one.
const EQUAL_RUNS: [u8; 22] = *b"\x02\0\x05\0\0\0\0\0\0\0\0\x02\x05\0\0\0\0\0\0\0\0\x02";

// The base 0, and the base 5, before differences at width 1.
const ZERO_AT_ONE: [u8; 9] = *b"\0\0\0\0\0\0\0\0\x01";

const FIVE_AT_ONE: [u8; 9] = *b"\x05\0\0\0\0\0\0\0\x01";

// What the head of a file of so many values in a format without a static width says.
fn said(tag: u8, count: u64) -> Said {
    Said {
        tag,
        width: 0,
        count,
    }
}

// At width 1 all bits are 1, so a first difference is 1 in a delta, and no difference is 0 in a `reference`. One bit alone is
// the difference at place 0, so with the base 2^64 - 1 that value is 2^64. Then equal neighbours, no run, 1,023 values and 1,025,
// and differences that begin with 7.
#[test]
fn a_first_block_that_is_none_is_refused(rt: HostRuntime) -> Result<(), Fail> {
    let wide = vec![in rt.alloc(); 0xff; 8320]?;
    let zeros = [0; 128];
    let ones = [0xff; 128];
    let mut first = [0; 128];
    first[0] = 1;
    for (tag, front, rest) in [
        (2, b"\x41".as_slice(), wide.as_slice()),
        (2, b"\x01", &zeros),
        (4, &ZERO_AT_ONE, &ones),
        (5, &ZERO_AT_ONE, &ones),
        (6, &FIVE_AT_ONE, &ones),
        (6, b"\xff\xff\xff\xff\xff\xff\xff\xff\x01", &first),
        (3, &EQUAL_RUNS, b""),
        (3, b"\0\0", b""),
        (3, b"\x01\0\x07\0\0\0\0\0\0\0\xff\x03", b""),
        (3, b"\x01\0\x07\0\0\0\0\0\0\0\x01\x04", b""),
        (7, b"\0\0\0\0\0\0\0\0\0\0", b""),
        (7, b"\0\0\0\0\0\0\0\0\x01\0\x07\0\0\0\0\0\0\0\0\x04", b""),
    ] {
        expect_in_both(&rt, rt.alloc(), said(tag, 1024), b"", (front, rest), FIRST)?;
    }
    Ok(())
}

// 2047 has 11 bits, so at width 12 each value is one bit wider than it has to be.
#[test]
fn a_second_block_wider_than_its_values_is_refused(rt: HostRuntime) -> Result<(), Fail> {
    for (width, expected) in [(11, None), (12, SECOND)] {
        let packed = packed(rt.alloc(), width, 2047)?;
        let front = [width];
        let parts = (front.as_slice(), packed.as_slice());
        expect_in_both(&rt, rt.alloc(), said(2, 2048), b"\0", parts, expected)?;
    }
    Ok(())
}

// A block and then these bytes are no two blocks.
fn expect_second_fault(
    rt: &impl Abort,
    alloc: Global,
    format: Format,
    front: &[u8],
    rest: &[u8],
) -> Result<(), ColumnError> {
    let column = column_of(alloc, Shape::CYCLING, 1024, format)?;
    let head = Said {
        tag: format.tag(),
        width: column.static_width(),
        count: 2048,
    };
    expect_in_both(
        rt,
        alloc,
        head,
        column.block_bytes(0),
        (front, rest),
        SECOND,
    )
}

#[test]
fn a_second_block_that_is_none_is_refused_in_every_format(rt: HostRuntime) -> Result<(), Fail> {
    let sevens = packed(rt.alloc(), 4, 7)?;
    let short = vec![in rt.alloc(); 0xff; 8191]?;
    let shorter = vec![in rt.alloc(); 0xff; 383]?;
    let ones = vec![in rt.alloc(); 0xff; 128]?;
    for (format, front, rest) in [
        (Format::Plain, b"".as_slice(), short.as_slice()),
        (Format::Static, b"", shorter.as_slice()),
        (Format::Dynamic, b"\x04", sevens.as_slice()),
        (Format::Runs, &EQUAL_RUNS, b""),
        (Format::Delta1Dynamic, &ZERO_AT_ONE, ones.as_slice()),
        (Format::Delta16Dynamic, &ZERO_AT_ONE, ones.as_slice()),
        (Format::ReferenceDynamic, &FIVE_AT_ONE, ones.as_slice()),
        (Format::Delta1Runs, b"\0\0\0\0\0\0\0\0", &EQUAL_RUNS),
    ] {
        expect_second_fault(&rt, rt.alloc(), format, front, rest)?;
    }
    Ok(())
}

// A block that is missing is named before the width, and the width before a tail that is missing, or too long by a byte.
#[test]
fn a_static_width_above_the_least_is_refused(rt: HostRuntime) -> Result<(), Fail> {
    let threes = packed(rt.alloc(), 3, 3)?;
    let sevens = packed(rt.alloc(), 4, 7)?;
    let zeros = vec![in rt.alloc(); 0; 8192]?;
    let few_zeros = vec![in rt.alloc(); 0; 128]?;
    for (width, count, body, more, expected) in [
        (64, 0, b"".as_slice(), b"".as_slice(), WIDTH),
        (3, 5, b"", b"", WIDTH),
        (3, 1024, threes.as_slice(), b"", WIDTH),
        (4, 1024, sevens.as_slice(), b"", WIDTH),
        (1, 1024, few_zeros.as_slice(), b"", WIDTH),
        (64, 1024, zeros.as_slice(), b"", WIDTH),
        (4, 1025, sevens.as_slice(), b"", WIDTH),
        (4, 1024, sevens.as_slice(), b"\0", WIDTH),
        (4, 2048, sevens.as_slice(), b"", SECOND),
    ] {
        let head = Said {
            tag: 1,
            width,
            count,
        };
        expect_in_both(&rt, rt.alloc(), head, b"", (body, more), expected)?;
    }
    Ok(())
}

// The bytes of 1,024 values at width 3 are too few for width 4. At width 2 they are a block whose values have two bits, and
// 128 bytes more.
#[test]
fn another_static_width_over_the_same_bytes_is_refused(rt: HostRuntime) -> Result<(), Fail> {
    let column = column_of(rt.alloc(), Shape::CYCLING, 1024, Format::Static)?;
    for (width, expected) in [(2, TAIL), (3, None), (4, FIRST)] {
        let head = Said {
            tag: 1,
            width,
            count: 1024,
        };
        let parts = (column.block_bytes(0), b"".as_slice());
        expect_in_both(&rt, rt.alloc(), head, b"", parts, expected)?;
    }
    Ok(())
}

// A file of two blocks and a value, with another count in its head.
fn expect_count_faults(
    rt: &impl Abort,
    alloc: Global,
    format: Format,
    count: u64,
    faults: ByFormat,
    first_faults: ByFormat,
) -> Result<(), ColumnError> {
    let column = column_of(alloc, Shape::CYCLING, 2049, format)?;
    let tail_width = if format == Format::Plain { 64 } else { 2 };
    let new = head(format.tag(), column.static_width(), tail_width, count);
    let body = column.encoded().get(16..).unwrap_or(b"");
    expect_file_fault(rt, alloc, new, body, b"", fault_in(format, faults))?;
    let first_file = first_file_of(alloc, &column)?;
    let old = first_head(format.tag(), column.static_width(), count);
    let body = first_file.as_slice().get(16..).unwrap_or(b"");
    expect_file_fault(rt, alloc, old, body, b"", fault_in(format, first_faults))
}

const TAILS: ByFormat = (TAIL, TAIL, TAIL);

const NO_BLOCK: ByFormat = (TAIL, WIDTH, TAIL);

const THIRDS: ByFormat = (THIRD, THIRD, THIRD);

// The file has two blocks and the value 3, which is the byte 3 at width 2. That byte is also 3 and one to three zeros. Another
// number of blocks has another directory. In version 1 a greater count takes the value's bytes for a part of a third block,
// which they are not: neither as a width byte 3 nor as three runs nor as a base.
#[test]
fn a_count_that_lies_is_refused_in_every_format(rt: HostRuntime) -> Result<(), Fail> {
    let headers = (HEADER, HEADER, HEADER);
    for (count, faults, first_faults) in [
        (0, NO_BLOCK, NO_BLOCK),
        (5, NO_BLOCK, NO_BLOCK),
        (1023, NO_BLOCK, NO_BLOCK),
        (1024, (TAIL, TAIL, ENTRY), TAILS),
        (1025, (TAIL, TAIL, ENTRY), TAILS),
        (2047, (TAIL, TAIL, ENTRY), TAILS),
        (2048, TAILS, TAILS),
        (2049, (None, None, None), (None, None, None)),
        (2050, (TAIL, None, None), TAILS),
        (2052, (TAIL, None, None), TAILS),
        (2053, TAILS, TAILS),
        (3071, TAILS, TAILS),
        (3072, (THIRD, THIRD, ENTRY), THIRDS),
        (268_435_456, (THIRD, THIRD, ENTRY), THIRDS),
        (268_435_457, headers, headers),
    ] {
        for format in Format::ALL {
            expect_count_faults(&rt, rt.alloc(), format, count, faults, first_faults)?;
        }
    }
    Ok(())
}
