//! Files of version 1, which are read as columns and written anew.

ghost use Rattle.std.specs.Prelude.{◌≡◌, IfOk};
ghost use Rattle.column_core.specs.Columns.{shape};
ghost use Rattle.tests_columns.specs.Tens.{tens};

use crate::expected::{ByFormat, ENTRY, FIRST, HEADER, TAIL, expect_file_fault, fault_in};
use crate::files::{column_of, file_of, first_file_of, first_head, head, packed, read};
use block_core::Format;
use column_core::Column;
use column_file::ColumnError;
use shapes::Shape;
use std::alloc::{AllocError, Global};
use std::process::Abort;
use std::test::Fail;
use stream_core::List;

// 10, 20 and so on to 50 as words.
const TENS: [u8; 40] =
    *b"\x0a\0\0\0\0\0\0\0\x14\0\0\0\0\0\0\0\x1e\0\0\0\0\0\0\0\x28\0\0\0\0\0\0\0\x32\0\0\0\0\0\0\0";

// 10, 20, 30, 40 and 50 in `plain` and in `runs`; 1,024 zeros, 1,024 ones and 5, 0 and 7; 1,024 times 3 at width 2; two blocks
// whose widths differ; a block of zeros with a value behind it. Each file has a head, blocks and words, and in version 2 another
// head, a directory and another tail.
#[test]
fn files_of_version_1_that_were_encoded_by_hand_are_read(rt: HostRuntime) -> Result<(), Fail> {
    let threes = packed(rt.alloc(), 2, 3)?;
    let most = packed(rt.alloc(), 11, 2047)?;
    let ones = [0xff; 128];
    for (old, new, (first, directory), rest, words, tail) in [
        (
            first_head(0, 0, 5),
            head(0, 0, 64, 5),
            (b"".as_slice(), b"".as_slice()),
            b"".as_slice(),
            TENS.as_slice(),
            TENS.as_slice(),
        ),
        (
            first_head(3, 0, 5),
            head(3, 0, 6, 5),
            (b"", b""),
            b"",
            &TENS,
            b"\x0a\xe5\xa1\x32",
        ),
        (
            first_head(2, 0, 2051),
            head(2, 0, 3, 2051),
            (b"\0\x01", b"\x20\0\0\0\0\0\0\0\x21\0\0\0\0\0\0\0"),
            ones.as_slice(),
            b"\x05\0\0\0\0\0\0\0\0\0\0\0\0\0\0\0\x07\0\0\0\0\0\0\0",
            b"\xc5\x01",
        ),
        (
            first_head(1, 2, 1024),
            head(1, 2, 0, 1024),
            (b"", b""),
            threes.as_slice(),
            b"",
            b"",
        ),
        (
            first_head(2, 0, 2048),
            head(2, 0, 0, 2048),
            (b"\0\x0b", b"\x20\0\0\0\0\0\0\0\x21\0\0\0\0\0\0\0"),
            most.as_slice(),
            b"",
            b"",
        ),
        (
            first_head(7, 0, 1025),
            head(7, 0, 3, 1025),
            (
                b"\0\0\0\0\0\0\0\0\x01\0\0\0\0\0\0\0\0\0\0\x04",
                b"\x18\0\0\0\0\0\0\0",
            ),
            b"",
            b"\x07\0\0\0\0\0\0\0",
            b"\x07",
        ),
    ] {
        let old_file = (old, (first, rest), words);
        expect_anew(&rt, rt.alloc(), old_file, (new, directory, tail))?;
    }
    Ok(())
}

// The file of version 1, of a head, blocks and words, is read as the column whose file has another head, a directory, the same
// blocks and a tail.
fn expect_anew(
    rt: &impl Abort,
    alloc: Global,
    (old_head, blocks, words): ([u8; 16], (&[u8], &[u8]), &[u8]),
    (head, directory, tail): ([u8; 16], &[u8], &[u8]),
) -> Result<(), ColumnError> {
    let old = file_of(alloc, old_head, blocks.0, blocks.1, words)?;
    let mut front = Vec::from_slice(alloc, directory)?;
    front.extend_from_slice(blocks.0)?;
    let new = file_of(alloc, head, front.as_slice(), blocks.1, tail)?;
    let column = read(alloc, old.as_slice())?;
    assert!(rt; column.encoded() == new.as_slice(), "{old_head:?}");
    Ok(())
}

// The head of one version before the body of the other, and a head whose version alone is changed.
fn expect_mixed(
    rt: &impl Abort,
    alloc: Global,
    format: Format,
    faults: [ByFormat; 4],
) -> Result<(), ColumnError> {
    let column = column_of(alloc, Shape::CYCLING, 2049, format)?;
    let tail_width = if format == Format::Plain { 64 } else { 2 };
    let first_file = first_file_of(alloc, &column)?;
    let old = first_head(format.tag(), column.static_width(), 2049);
    let new = head(format.tag(), column.static_width(), tail_width, 2049);
    let old_body = first_file.as_slice().get(16..).unwrap_or(b"");
    let new_body = column.encoded().get(16..).unwrap_or(b"");
    let mut old_as_new = old;
    old_as_new[4] = 2;
    let mut new_as_old = new;
    new_as_old[4] = 1;
    for (head, body, by_format) in [
        (new, old_body, faults[0]),
        (old, new_body, faults[1]),
        (old_as_new, old_body, faults[2]),
        (new_as_old, new_body, faults[3]),
    ] {
        expect_file_fault(rt, alloc, head, body, b"", fault_in(format, by_format))?;
    }
    Ok(())
}

// In `plain` only the heads differ. In `static` the tail has 1 byte or 8. In the other formats a block's first bytes are no entry,
// and the first entry's bytes are no block: not with 32 as a width byte, a number of runs, or the byte in front of a base.
#[test]
fn a_body_of_one_version_under_a_head_of_the_other_is_refused(rt: HostRuntime) -> Result<(), Fail> {
    for format in Format::ALL {
        let faults = [
            (None, TAIL, ENTRY),
            (None, TAIL, FIRST),
            (HEADER, TAIL, ENTRY),
            (HEADER, HEADER, HEADER),
        ];
        expect_mixed(&rt, rt.alloc(), format, faults)?;
    }
    Ok(())
}

// The longest column of zeros: 16 bytes in both versions.
#[test]
fn the_longest_column_of_zeros_is_read_in_version_1(rt: HostRuntime) -> Result<(), Fail> {
    let column = read(rt.alloc(), &first_head(1, 0, 268_435_456))?;
    assert!(rt;
        column.encoded() == head(1, 0, 0, 268_435_456).as_slice(),
        "the file in version 2"
    );
    Ok(())
}

// The column of 10, 20 and so on to 50 in `plain`, from its file of version 1. Its caller knows that the bytes are one.
fn upgraded(alloc: Global) -> Result<Column, AllocError>
    ensures { IfOk result (λ column. column ≡ shape Format.Plain tens) }
{
    let bytes =
        b"MCOL\x01\0\0\0\x05\0\0\0\0\0\0\0\x0a\0\0\0\0\0\0\0\x14\0\0\0\0\0\0\0\x1e\0\0\0\0\0\0\0\x28\0\0\0\0\0\0\0\x32\0\0\0\0\0\0\0";
    Column::upgrade(alloc, List::from_vec(Vec::from_slice(alloc, bytes)?))
}

#[test]
fn a_file_of_version_1_that_is_known_to_be_one_is_written_anew(
    rt: HostRuntime,
) -> Result<(), Fail> {
    let column = upgraded(rt.alloc())?;
    let expected = file_of(rt.alloc(), head(0, 0, 64, 5), &TENS, b"", b"")?;
    assert!(rt; column.encoded() == expected.as_slice(), "five values");
    Ok(())
}
