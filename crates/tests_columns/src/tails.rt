//! Tails out of form.

use crate::expected::{Fault, HEADER, TAIL, expect_file_fault};
use crate::files::{first_head, head};
use column_file::ColumnError;
use std::alloc::Global;
use std::process::Abort;
use std::test::Fail;

// The bytes behind a head with this tail width and count, in each format whose tails have a width.
fn expect_tail(
    rt: &impl Abort,
    alloc: Global,
    tail_width: u8,
    count: u64,
    bytes: &[u8],
    expected: Fault,
) -> Result<(), ColumnError> {
    for tag in 1..8 {
        let head = head(tag, 0, tail_width, count);
        expect_file_fault(rt, alloc, head, bytes, b"", expected)?;
    }
    Ok(())
}

// 35, 80 and 10 in 7 bits each: cut, with a byte more, with each bit that no value has, and at other widths. At width 6 the same
// bytes are 35, 32 and 42. Then 1993 and 1994 in 11 bits, zeros, a number of 64 bits and one of 63, and no value.
#[test]
fn a_tail_has_one_width_and_one_encoding(rt: HostRuntime) -> Result<(), Fail> {
    for (tail_width, count, bytes, expected) in [
        (7, 3, b"\x23\xa8\x02".as_slice(), None),
        (7, 3, b"\x23\xa8", TAIL),
        (7, 3, b"\x23\xa8\x02\0", TAIL),
        (7, 3, b"\x23\xa8\x22", TAIL),
        (7, 3, b"\x23\xa8\x42", TAIL),
        (7, 3, b"\x23\xa8\x82", TAIL),
        (8, 3, b"\x23\x50\x0a", TAIL),
        (6, 3, b"\x23\xa8\x02", None),
        (6, 3, b"\x23\xa8\x06", TAIL),
        (11, 2, b"\xc9\x57\x3e", None),
        (11, 2, b"\xc9\x57\x7e", TAIL),
        (11, 2, b"\xc9\x57\xbe", TAIL),
        (11, 2, b"\xc9\x03\0", TAIL),
        (0, 3, b"", None),
        (0, 3, b"\0", TAIL),
        (1, 3, b"\0", TAIL),
        (1, 3, b"\x04", None),
        (1, 3, b"\x08", TAIL),
        (64, 1, b"\0\0\0\0\0\0\0\x80", None),
        (64, 1, b"\xff\xff\xff\xff\xff\xff\xff\x7f", TAIL),
        (63, 1, b"\xff\xff\xff\xff\xff\xff\xff\x7f", None),
        (63, 1, b"\xff\xff\xff\xff\xff\xff\xff\xff", TAIL),
        (64, 1, b"\0\0\0\0\0\0\x80", TAIL),
        (64, 1, b"\0\0\0\0\0\0\0\x80\0", TAIL),
        (65, 1, b"\0\0\0\0\0\0\0\0\x01", HEADER),
        (0, 0, b"", None),
        (0, 0, b"\0", TAIL),
        (1, 0, b"", TAIL),
        (64, 0, b"", TAIL),
    ] {
        expect_tail(&rt, rt.alloc(), tail_width, count, bytes, expected)?;
    }
    Ok(())
}

// The last byte has 7 bits of values, at width 1 and at width 3.
#[test]
fn the_longest_tail_has_a_bit_that_no_value_has(rt: HostRuntime) -> Result<(), Fail> {
    for (tail_width, len, last, expected) in [
        (1, 127, b"\x7f".as_slice(), None),
        (1, 127, b"\xff", TAIL),
        (1, 127, b"", TAIL),
        (1, 127, b"\x7f\0", TAIL),
        (3, 383, b"\x1f", None),
        (3, 383, b"\x3f", TAIL),
        (3, 383, b"", TAIL),
        (64, 8184, b"", None),
        (64, 8184, b"\0", TAIL),
    ] {
        let mut bytes = vec![in rt.alloc(); 0xff; len]?;
        bytes.extend_from_slice(last)?;
        expect_tail(
            &rt,
            rt.alloc(),
            tail_width,
            1023,
            bytes.as_slice(),
            expected,
        )?;
    }
    Ok(())
}

// In version 1 and in `plain` each value is a word, however small all are.
#[test]
fn a_tail_of_words_of_another_length_is_refused(rt: HostRuntime) -> Result<(), Fail> {
    for (count, len, expected) in [
        (0, 1, TAIL),
        (0, 8, TAIL),
        (1, 0, TAIL),
        (1, 7, TAIL),
        (1, 8, None),
        (1, 9, TAIL),
        (1, 16, TAIL),
        (1023, 8183, TAIL),
        (1023, 8184, None),
        (1023, 8185, TAIL),
    ] {
        let tail = vec![in rt.alloc(); 0; len]?;
        let plain = head(0, 0, 64, count);
        expect_file_fault(&rt, rt.alloc(), plain, tail.as_slice(), b"", expected)?;
        for tag in 0..8 {
            let head = first_head(tag, 0, count);
            expect_file_fault(&rt, rt.alloc(), head, tail.as_slice(), b"", expected)?;
        }
    }
    Ok(())
}
