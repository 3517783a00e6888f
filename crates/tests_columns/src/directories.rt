//! Directories, each with its first wrong entry.

use crate::expected::{ENTRY, FIRST, Fault, HEADER, TAIL, WIDTH, expect_fault, expect_file_fault};
use crate::files::{column_of, directory, file_of, head};
use block_core::Format;
use column_file::ColumnError;
use shapes::Shape;
use std::alloc::Global;
use std::process::Abort;
use std::test::Fail;

// The second entry is wrong.
const NEXT: Fault = Some(ColumnError::BadDirectory { block: 1 });

// The third entry is wrong.
const LAST: Fault = Some(ColumnError::BadDirectory { block: 2 });

// The file of 1,024 zeros in `dynamic`: its head, an entry, and its block.
const ZEROS: [u8; 25] = *b"MCOL\x02\x02\0\0\0\x04\0\0\0\0\0\0\x18\0\0\0\0\0\0\0\0";

// An entry has to be right and in the file even if the file ends before its block.
#[test]
fn a_file_of_zeros_that_is_cut_or_changed_has_its_first_fault(rt: HostRuntime) -> Result<(), Fail> {
    for (place, byte, len, expected) in [
        (24, 0, 25, None),
        (24, 0, 24, FIRST),
        (24, 0, 23, ENTRY),
        (24, 0, 20, ENTRY),
        (24, 0, 16, ENTRY),
        (24, 0, 15, HEADER),
        (4, 3, 25, HEADER),
        (6, 1, 25, HEADER),
        (7, 0x41, 25, HEADER),
        (7, 1, 25, TAIL),
        (9, 8, 25, ENTRY),
        (16, 0x19, 25, ENTRY),
        (16, 0x19, 24, ENTRY),
        (16, 0x17, 25, ENTRY),
        (17, 1, 25, ENTRY),
        (23, 0x80, 25, ENTRY),
        (24, 0x41, 25, FIRST),
    ] {
        let mut bytes = ZEROS;
        for (at, value) in bytes.iter_mut().enumerate() {
            if at == place {
                *value = byte;
            }
        }
        expect_fault(&rt, rt.alloc(), bytes.get(..len).unwrap_or(b""), expected)?;
    }
    Ok(())
}

// A block of zeros at width 1, a byte more, and a tail of one value: a bit behind it, a zero at width 1, and a 1.
#[test]
fn bytes_behind_a_file_of_zeros_have_their_fault(rt: HostRuntime) -> Result<(), Fail> {
    let zeros = [0; 128];
    for (tail_width, count, block, more, expected) in [
        (0, 1024, b"\x01", zeros.as_slice(), FIRST),
        (0, 1024, b"\x00", b"\x00", TAIL),
        (1, 1025, b"\x00", b"\x02", TAIL),
        (1, 1025, b"\x00", b"\x00", TAIL),
        (1, 1025, b"\x00", b"\x01", None),
    ] {
        let mut first = directory(rt.alloc(), &[24])?;
        first.extend_from_slice(block)?;
        let head = head(2, 0, tail_width, count);
        expect_file_fault(&rt, rt.alloc(), head, first.as_slice(), more, expected)?;
    }
    let zeros = [0; 384];
    expect_file_fault(&rt, rt.alloc(), head(1, 3, 0, 1024), &zeros, b"", WIDTH)?;
    Ok(())
}

// The file of three blocks of one length and a value, with another directory: entries swapped, equal, one off, counted from
// other places, and beyond the file. The first wrong entry is named.
fn expect_entries(
    rt: &impl Abort,
    alloc: Global,
    format: Format,
    len: u16,
) -> Result<(), ColumnError> {
    let len = u64::from(len);
    let column = column_of(alloc, Shape::FALLING_FROM_MOST, 3073, format)?;
    let head = head(format.tag(), 0, 64, 3073);
    let body = column.encoded().get(40..).unwrap_or(b"");
    let (first, second, third, end) = (40, 40 + len, 40 + 2 * len, 40 + 3 * len);
    for (starts, expected) in [
        ([first, second, third], None),
        ([second, first, third], ENTRY),
        ([first, third, second], NEXT),
        ([first, first, third], NEXT),
        ([first, second, second], LAST),
        ([second, second, third], ENTRY),
        ([first + 1, second, third], ENTRY),
        ([first - 1, second - 1, third - 1], ENTRY),
        ([first, second - 1, third], NEXT),
        ([first, second, third + 1], LAST),
        ([first - 16, second - 16, third - 16], ENTRY),
        ([0, len, 2 * len], ENTRY),
        ([first, second, end], LAST),
        ([first, end + 8, third], NEXT),
        ([u64::MAX, second, third], ENTRY),
        ([first, 1 << 32 | second, third], NEXT),
        ([first, second, 1 << 63 | third], LAST),
        ([0, 0, 0], ENTRY),
    ] {
        let entries = directory(alloc, &starts)?;
        expect_file_fault(rt, alloc, head, entries.as_slice(), body, expected)?;
    }
    Ok(())
}

// Falling values have the width 64, also as differences to the value before. To the least they are 0 to 1,023, which have 10 bits,
// and the differences to the value before are two runs.
#[test]
fn the_first_wrong_entry_of_a_directory_is_named(rt: HostRuntime) -> Result<(), Fail> {
    for (format, len) in [
        (Format::Dynamic, 8193),
        (Format::Runs, 10_242),
        (Format::Delta1Dynamic, 8201),
        (Format::Delta16Dynamic, 8201),
        (Format::ReferenceDynamic, 1289),
        (Format::Delta1Runs, 30),
    ] {
        expect_entries(&rt, rt.alloc(), format, len)?;
    }
    Ok(())
}

// The file of as many blocks as there are entries, with what follows them, and no tail.
fn expect_blocks(
    rt: &impl Abort,
    alloc: Global,
    starts: &[u64],
    blocks: &[u8],
    expected: Fault,
) -> Result<(), ColumnError> {
    let entries = directory(alloc, starts)?;
    let count = (starts.len() as u64).wrapping_mul(1024);
    let head = head(2, 0, 0, count);
    expect_file_fault(rt, alloc, head, entries.as_slice(), blocks, expected)
}

// Blocks of zeros take one byte. They stand one behind the other, then with a byte between them or in front of them, in another
// order, and one for two. The directory tells where they stand.
#[test]
fn blocks_that_are_not_one_behind_the_other_are_refused(rt: HostRuntime) -> Result<(), Fail> {
    for (starts, blocks, expected) in [
        ([32, 33].as_slice(), b"\0\0".as_slice(), None),
        (&[32, 34], b"\0\0\0", NEXT),
        (&[33, 32], b"\0\0", ENTRY),
        (&[33, 34], b"\0\0\0", ENTRY),
        (&[32, 32], b"\0", NEXT),
        (&[40, 41, 42], b"\0\0\0", None),
        (&[40, 41, 43], b"\0\0\0\0", LAST),
        (&[40, 41, 41], b"\0\0", LAST),
    ] {
        expect_blocks(&rt, rt.alloc(), starts, blocks, expected)?;
    }
    Ok(())
}
