//! Bytes that are no block, each kind beside bytes that are one.

ghost use Rattle.definitions_blocks.specs.Formats.{IsColumnWidth};
ghost use Rattle.block_core.specs.Formats.{format_of};

use crate::encodings::{column_width, encoded, found, padded};
use block_core::{Format, Packing};
use block_formats::Static;
use column_core::check_block;
use shapes::Shape;
use std::alloc::{AllocError, Global};
use std::process::Abort;
use std::test::Fail;
use strand_pack::packed_len;

// The base 5 of a cascade.
const FIVE: &[u8] = b"\x05\0\0\0\0\0\0\0";

// All the bytes are a block, or they begin with none.
fn expect_block(rt: &impl Abort, format: Format, bytes: &[u8], lawful: bool, case: &str) {
    let expected = if lawful { Some(bytes.len()) } else { None };
    assert!(rt; found(format, bytes) == expected, "{case} in {format:?}");
}

// A base, if any, a width, and as many bytes as it takes, of which all are 0 but one.
fn packed_after(
    alloc: Global,
    base: &[u8],
    width: u8,
    place: usize,
    byte: u8,
) -> Result<Vec<u8>, AllocError> {
    let mut bytes = Vec::from_slice(alloc, base)?;
    bytes.push(width)?;
    for here in 0..packed_len(width) {
        bytes.push(if here == place { byte } else { 0 })?;
    }
    Ok(bytes)
}

// A base, if any, a count of runs, and runs.
fn runs_after(
    alloc: Global,
    base: &[u8],
    count: u16,
    runs: &[(u64, u16)],
) -> Result<Vec<u8>, AllocError> {
    let mut bytes = Vec::from_slice(alloc, base)?;
    bytes.extend_from_slice(&count.to_le_bytes())?;
    for (value, times) in runs {
        bytes.extend_from_slice(&value.to_le_bytes())?;
        bytes.extend_from_slice(&times.to_le_bytes())?;
    }
    Ok(bytes)
}

// The runs are a block, or none, alone and as the differences of a cascade.
fn expect_runs(
    rt: &impl Abort,
    alloc: Global,
    count: u16,
    runs: &[(u64, u16)],
    lawful: bool,
    case: &str,
) -> Result<(), Fail> {
    for (format, base) in [(Format::Runs, b"".as_slice()), (Format::Delta1Runs, FIVE)] {
        let bytes = runs_after(alloc, base, count, runs)?;
        expect_block(rt, format, bytes.as_slice(), lawful, case);
    }
    Ok(())
}

// Bytes of which all are 0 but one, at a width, are a block or none, alone and as the differences of each cascade.
fn expect_packed(
    rt: &impl Abort,
    alloc: Global,
    width: u8,
    place: usize,
    byte: u8,
    lawful: bool,
) -> Result<(), Fail> {
    let case = format!(in alloc; "width {width} with {byte} at byte {place}")?;
    for (format, base) in [
        (Format::Dynamic, b"".as_slice()),
        (Format::Delta1Dynamic, FIVE),
        (Format::Delta16Dynamic, FIVE),
        (Format::ReferenceDynamic, FIVE),
    ] {
        let bytes = packed_after(alloc, base, width, place, byte)?;
        expect_block(rt, format, bytes.as_slice(), lawful, case.as_str());
    }
    Ok(())
}

// All values are 0 but one. The value at place 1 begins at bit 0 of word 1: byte 8 has its lowest bit, byte 9 its bits 10 and
// 11 as bits 2 and 3, and at width 64 byte 15 its bits 62 and 63 as bits 6 and 7. The value at place 1,023, strand 15 and row
// 63, ends at the highest bit of the last byte. As differences they are lawful too. At the widths 65 and 255 the value at place
// 1 has its highest bit, the lowest of byte 136 and bit 6 of byte 399, so that nothing but the width is at fault.
#[test]
fn a_width_byte_that_is_not_the_least_is_refused_alone_and_in_each_cascade(
    rt: HostRuntime,
) -> Result<(), Fail> {
    for (width, place, byte, lawful) in [
        (0, 0, 0, true),
        (1, 8, 0, false),
        (1, 8, 1, true),
        (1, 127, 0b1000_0000, true),
        (11, 9, 0b100, true),
        (12, 9, 0b100, false),
        (12, 9, 0b1000, true),
        (12, 1535, 0b0100_0000, false),
        (12, 1535, 0b1000_0000, true),
        (64, 15, 0b0100_0000, false),
        (64, 15, 0b1000_0000, true),
        (65, 136, 1, false),
        (255, 399, 0b0100_0000, false),
    ] {
        expect_packed(&rt, rt.alloc(), width, place, byte, lawful)?;
    }
    Ok(())
}

// A width that no column has is refused here, whatever the bytes.
#[test]
fn a_static_block_has_the_length_of_the_width(rt: HostRuntime) -> Result<(), Fail> {
    for (width, count, len) in [
        (0, 0, Some(((), 0))),
        (0, 5, Some(((), 0))),
        (1, 127, None),
        (63, 8064, Some(((), 8064))),
        (64, 8191, None),
        (64, 8200, Some(((), 8192))),
        (65, 8320, None),
        (255, 32640, None),
    ] {
        let bytes = vec![in rt.alloc(); 7; count]?;
        let found = Static::<8>::check(width, bytes.as_slice());
        assert!(rt; found == len, "{count} bytes at width {width}");
    }
    Ok(())
}

// At width 1 the lowest bit of the first byte is the difference at place 0. A first difference of 1 is lawful in no delta,
// and 1 as the least difference, or beside the base 2^64 - 1, in no `reference`.
#[test]
fn a_base_and_differences_that_no_block_has_are_refused(rt: HostRuntime) -> Result<(), Fail> {
    for (format, base, first, others, lawful) in [
        (Format::Delta1Dynamic, 0, 0xff, 0xff, false),
        (Format::Delta1Dynamic, 0, 0x01, 0x00, false),
        (Format::Delta1Dynamic, 0, 0xfe, 0xff, true),
        (Format::Delta16Dynamic, 0, 0xff, 0xff, false),
        (Format::Delta16Dynamic, 0, 0x01, 0x00, false),
        (Format::Delta16Dynamic, 0, 0xfe, 0xff, true),
        (Format::ReferenceDynamic, 5, 0xff, 0xff, false),
        (Format::ReferenceDynamic, 5, 0xfe, 0xff, true),
        (Format::ReferenceDynamic, u64::MAX, 0x01, 0x00, false),
        (Format::ReferenceDynamic, u64::MAX - 1, 0x01, 0x00, true),
    ] {
        let mut head = base.to_le_bytes().to_vec(rt.alloc())?;
        head.extend_from_slice(&[1, first])?;
        let bytes = padded(rt.alloc(), head.as_slice(), &[others], 127)?;
        let case = format!(in rt.alloc(); "{base} with {first} and then {others}")?;
        expect_block(&rt, format, bytes.as_slice(), lawful, case.as_str());
    }
    Ok(())
}

#[test]
fn runs_that_are_no_block_are_refused_alone_and_in_a_cascade(rt: HostRuntime) -> Result<(), Fail> {
    for (count, runs, lawful, case) in [
        (1, [(0, 1024)].as_slice(), true, "one run"),
        (2, &[(0, 512), (7, 512)], true, "two runs"),
        (0, &[], false, "no run"),
        (0, &[(0, 1024)], false, "a count of 0 and a run"),
        (1, &[(0, 512), (7, 512)], false, "a count below"),
        (3, &[(0, 512), (7, 512)], false, "a count above"),
        (1, &[(0, 1023)], false, "a run of 1,023"),
        (1, &[(0, 1025)], false, "a run of 1,025"),
        (2, &[(0, 0), (7, 1024)], false, "an empty first run"),
        (3, &[(0, 512), (7, 0), (9, 512)], false, "an empty run"),
        (2, &[(0, 1024), (7, 0)], false, "an empty last run"),
        (2, &[(0, 512), (0, 512)], false, "equal neighbours"),
        (3, &[(0, 9), (7, 15), (7, 1000)], false, "equal later"),
        (2, &[(0, 512), (7, 511)], false, "1,023 values"),
        (2, &[(0, 512), (7, 513)], false, "1,025 values"),
        (2, &[(0, 1025), (7, 65535)], false, "1,024 mod 2^16"),
    ] {
        expect_runs(&rt, rt.alloc(), count, runs, lawful, case)?;
    }
    Ok(())
}

// Runs of one value each, 0 and 1 in turn, but for the last, which may be empty.
#[test]
fn a_count_of_1025_runs_is_refused_whatever_their_lengths(rt: HostRuntime) -> Result<(), Fail> {
    for (count, last, lawful, case) in [
        (1024, 1, true, "1,024 values"),
        (1025, 1, false, "1,025 values"),
        (1025, 0, false, "1,024 values and an empty run"),
    ] {
        let mut runs = Vec::new(rt.alloc());
        for run in 1..count {
            runs.push((u64::from(run % 2 == 0), 1))?;
        }
        runs.push((u64::from(count % 2 == 0), last))?;
        expect_runs(&rt, rt.alloc(), count, runs.as_slice(), lawful, case)?;
    }
    Ok(())
}

// The same runs are blocks of values, whatever the first value is.
#[test]
fn runs_of_differences_that_do_not_begin_with_0_are_refused(rt: HostRuntime) -> Result<(), Fail> {
    for (count, runs, lawful, case) in [
        (1, [(0, 1024)].as_slice(), true, "0 throughout"),
        (1, &[(1, 1024)], false, "1 throughout"),
        (2, &[(0, 1), (u64::MAX, 1023)], true, "one 0"),
        (2, &[(u64::MAX, 1), (0, 1023)], false, "a late 0"),
    ] {
        let values = runs_after(rt.alloc(), b"", count, runs)?;
        expect_block(&rt, Format::Runs, values.as_slice(), true, case);
        let bytes = runs_after(rt.alloc(), FIVE, count, runs)?;
        expect_block(&rt, Format::Delta1Runs, bytes.as_slice(), lawful, case);
    }
    Ok(())
}

// No proper prefix of the bytes is a block.
fn expect_no_prefix(rt: &impl Abort, format: Format, width: u8, bytes: &[u8])
    requires { IsColumnWidth (format_of format) width }
{
    for len in 0..bytes.len() {
        assert!(rt;
            check_block(format, width, &bytes[..len]).is_none(),
            "{format:?} cut at {len}"
        );
    }
}

#[test]
fn an_encoding_that_is_cut_at_any_byte_is_refused_in_every_format(
    rt: HostRuntime,
) -> Result<(), Fail> {
    for shape in [
        Shape::Constant(1),
        Shape::Scattered { bits: 13 },
        Shape::FALLING,
        Shape::ALTERNATING,
    ] {
        let block = shape.block();
        for format in Format::ALL {
            let width = column_width(format, &block);
            let bytes = encoded::<8>(rt.alloc(), format, width, &block)?;
            expect_no_prefix(&rt, format, width, bytes.as_slice());
        }
    }
    Ok(())
}
