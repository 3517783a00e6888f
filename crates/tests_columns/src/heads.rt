//! Heads of both versions, byte by byte.

use crate::expected::{ByFormat, ENTRY, FIRST, Fault, HEADER, TAIL, WIDTH, expect_fault, fault_in};
use crate::files::{first_head, head};
use block_core::Format;
use column_file::ColumnError;
use std::alloc::Global;
use std::process::Abort;
use std::test::Fail;

// The head of no values.
fn empty_head(format: Format) -> [u8; 16] {
    let tail_width = if format == Format::Plain { 64 } else { 0 };
    head(format.tag(), 0, tail_width, 0)
}

// A whole head is the file of no values.
fn expect_no_head(rt: &impl Abort, alloc: Global, head: [u8; 16]) -> Result<(), ColumnError> {
    for len in 0..16 {
        expect_fault(rt, alloc, &head[..len], HEADER)?;
    }
    expect_fault(rt, alloc, &head, None)
}

#[test]
fn fewer_than_sixteen_bytes_are_no_head(rt: HostRuntime) -> Result<(), Fail> {
    for format in Format::ALL {
        expect_no_head(&rt, rt.alloc(), empty_head(format))?;
        expect_no_head(&rt, rt.alloc(), first_head(format.tag(), 0, 0))?;
    }
    Ok(())
}

// The head with another byte has this fault.
fn expect_changed(
    rt: &impl Abort,
    alloc: Global,
    head: [u8; 16],
    place: usize,
    byte: u8,
    expected: Fault,
) -> Result<(), ColumnError> {
    let mut bytes = head;
    for (at, value) in bytes.iter_mut().enumerate() {
        if at == place {
            *value = byte;
        }
    }
    expect_fault(rt, alloc, &bytes, expected)
}

const ALL_HEADERS: ByFormat = (HEADER, HEADER, HEADER);

// The head says that there is a block: its bytes are missing, or it is of zeros that take no byte, or its entry is missing.
const SOME_BLOCKS: ByFormat = (FIRST, None, ENTRY);

// A head of version 1 has the last width 0, so that a head of version 2 with that width is one when its version is changed, and
// so is one without that width when its tag is. Less than 1,024 values are zeros that take no byte, but in `plain`.
#[test]
fn each_byte_of_a_head_counts(rt: HostRuntime) -> Result<(), Fail> {
    for (place, byte, faults) in [
        (0, b'N', ALL_HEADERS),
        (0, b'm', ALL_HEADERS),
        (1, b'c', ALL_HEADERS),
        (2, b'0', ALL_HEADERS),
        (3, b'M', ALL_HEADERS),
        (4, 0, ALL_HEADERS),
        (4, 1, (HEADER, None, None)),
        (4, 3, ALL_HEADERS),
        (4, 0xff, ALL_HEADERS),
        (5, 8, ALL_HEADERS),
        (5, 0xff, ALL_HEADERS),
        (5, 6, (TAIL, None, None)),
        (6, 1, (HEADER, WIDTH, HEADER)),
        (6, 64, (HEADER, WIDTH, HEADER)),
        (6, 65, ALL_HEADERS),
        (6, 0xff, ALL_HEADERS),
        (7, 0, (HEADER, None, None)),
        (7, 1, (HEADER, TAIL, TAIL)),
        (7, 63, (HEADER, TAIL, TAIL)),
        (7, 64, (None, TAIL, TAIL)),
        (7, 65, ALL_HEADERS),
        (7, 0xff, ALL_HEADERS),
        (8, 1, (TAIL, None, None)),
        (8, 0xff, (TAIL, None, None)),
        (9, 3, (TAIL, None, None)),
        (9, 4, SOME_BLOCKS),
        (10, 1, SOME_BLOCKS),
        (11, 0x10, SOME_BLOCKS),
        (11, 0x11, ALL_HEADERS),
        (12, 1, ALL_HEADERS),
        (13, 1, ALL_HEADERS),
        (14, 1, ALL_HEADERS),
        (15, 0x80, ALL_HEADERS),
    ] {
        for format in Format::ALL {
            let expected = fault_in(format, faults);
            expect_changed(&rt, rt.alloc(), empty_head(format), place, byte, expected)?;
        }
    }
    Ok(())
}

// The values of version 1 are words, so a tail that the head tells of is missing in each format.
#[test]
fn each_byte_of_a_head_of_version_1_counts(rt: HostRuntime) -> Result<(), Fail> {
    for (place, byte, faults) in [
        (0, b'N', ALL_HEADERS),
        (1, b'c', ALL_HEADERS),
        (2, b'0', ALL_HEADERS),
        (3, b'M', ALL_HEADERS),
        (4, 0, ALL_HEADERS),
        (4, 2, (HEADER, None, None)),
        (4, 3, ALL_HEADERS),
        (5, 6, (None, None, None)),
        (5, 8, ALL_HEADERS),
        (6, 1, (HEADER, WIDTH, HEADER)),
        (6, 65, ALL_HEADERS),
        (7, 1, ALL_HEADERS),
        (7, 64, ALL_HEADERS),
        (7, 0xff, ALL_HEADERS),
        (8, 1, (TAIL, TAIL, TAIL)),
        (9, 4, (FIRST, None, FIRST)),
        (10, 1, (FIRST, None, FIRST)),
        (11, 0x10, (FIRST, None, FIRST)),
        (11, 0x11, ALL_HEADERS),
        (12, 1, ALL_HEADERS),
        (13, 1, ALL_HEADERS),
        (14, 1, ALL_HEADERS),
        (15, 0x80, ALL_HEADERS),
    ] {
        for format in Format::ALL {
            let bytes = first_head(format.tag(), 0, 0);
            let expected = fault_in(format, faults);
            expect_changed(&rt, rt.alloc(), bytes, place, byte, expected)?;
        }
    }
    Ok(())
}

// A count that no column has is refused before anything else. The longest column of zeros has one block for each 1,024, which
// take no bytes in `static`.
#[test]
fn a_count_above_268435456_is_refused(rt: HostRuntime) -> Result<(), Fail> {
    for (count, faults, first_faults) in [
        (268_435_456, SOME_BLOCKS, (FIRST, None, FIRST)),
        (268_435_457, ALL_HEADERS, ALL_HEADERS),
        (1 << 32, ALL_HEADERS, ALL_HEADERS),
        (1 << 61, ALL_HEADERS, ALL_HEADERS),
        (u64::MAX, ALL_HEADERS, ALL_HEADERS),
    ] {
        for format in Format::ALL {
            let tail_width = if format == Format::Plain { 64 } else { 0 };
            let bytes = head(format.tag(), 0, tail_width, count);
            expect_fault(&rt, rt.alloc(), &bytes, fault_in(format, faults))?;
            let bytes = first_head(format.tag(), 0, count);
            expect_fault(&rt, rt.alloc(), &bytes, fault_in(format, first_faults))?;
        }
    }
    Ok(())
}
