//! Tails whose bytes were worked out by hand, round trips at every width, and bytes that are no tail.

ghost use Rattle.std.specs.Prelude.{◌≡◌, ◌<◌, ◌≤◌, length, IfOk};
ghost use Rattle.definitions_blocks.specs.Blocks.{block_values};
ghost use Rattle.definitions_columns.specs.Tails.{packed_len as tail_len};

use block_core::Block;
use shapes::Shape;
use std::alloc::{AllocError, Global};
use std::process::Abort;
use std::test::Fail;
use strand_pack::width_of_values;
use tail_pack::{check, pack, packed_len, pick, unpack};

// Bytes of which each will be overwritten.
fn room_for(alloc: Global, count: usize, width: u8) -> Result<Vec<u8>, AllocError>
    requires few { count < block_values }
    requires narrow { width ≤ 64 }
    ensures { IfOk result (λ bytes. length bytes.items ≡ tail_len count width) }
{
    vec![in alloc; 0x99; packed_len(count, width)]
}

// The bytes of a tail that is read back: as a whole, and value by value.
fn packed(
    rt: &impl Abort,
    alloc: Global,
    values: &[u64],
    width: u8,
    case: &str,
) -> Result<Vec<u8>, Fail>
    requires short { length values.now < block_values }
    requires narrow { width ≤ 64 }
{
    let count = values.len();
    assert!(rt;
        width_of_values(values) <= width,
        "{case} is too wide for {width}"
    );
    let mut bytes = room_for(alloc, count, width)?;
    pack(values, width, &mut bytes);
    assert!(rt;
        check(&bytes, width, count),
        "{case}: {count} values at width {width}"
    );
    let mut block = Block::of(&[5; 1024]);
    unpack(&bytes, width, count, &mut block);
    assert!(rt;
        block.as_slice() == values,
        "{case}: {count} values unpacked at width {width}"
    );
    for (place, value) in values.iter().enumerate() {
        assert!(rt;
            pick(&bytes, width, place) == *value,
            "{case}: place {place} of {count} at width {width}"
        );
    }
    Ok(bytes)
}

// The tail has these bytes.
fn expect_bytes(
    rt: &impl Abort,
    alloc: Global,
    values: &[u64],
    width: u8,
    expected: &[u8],
    case: &str,
) -> Result<(), Fail>
    requires short { length values.now < block_values }
    requires narrow { width ≤ 64 }
{
    let bytes = packed(rt, alloc, values, width, case)?;
    assert!(rt; bytes.as_slice() == expected, "{case}: the bytes");
    Ok(())
}

#[test]
fn worked_tails_have_their_bytes(rt: HostRuntime) -> Result<(), Fail> {
    let words = [2, 1, 0, 0, 0, 0, 0, 0, 1, 0, 0, 0, 0, 0, 0, 0xff];
    for (values, width, bytes, case) in [
        (
            &[35, 80, 10][..],
            7,
            &[0x23, 0xa8, 0x02][..],
            "three of 7 bits",
        ),
        (
            &[1993, 1994][..],
            11,
            &[0xc9, 0x57, 0x3e][..],
            "two of 11 bits",
        ),
        (
            &[1, 0, 1, 1, 0, 0, 1, 0, 1][..],
            1,
            &[0x4d, 0x01][..],
            "nine bits",
        ),
        (
            &[258, 0xff00_0000_0000_0001][..],
            64,
            &words[..],
            "two words",
        ),
        (&[0, 0, 0][..], 0, &[][..], "three zeros"),
        (&[][..], 9, &[][..], "none"),
    ] {
        if values.len() < 1024 {
            expect_bytes(&rt, rt.alloc(), values, width, bytes, case)?;
        }
    }
    Ok(())
}

// The first values of a list, as many as each of the counts says.
fn expect_round_trips(
    rt: &impl Abort,
    alloc: Global,
    values: &[u64],
    width: u8,
    case: &str,
) -> Result<(), Fail>
    requires narrow { width ≤ 64 }
    requires many { 1023 ≤ length values.now }
{
    for count in [0, 1, 7, 8, 9, 63, 64, 65, 1023] {
        if count < 1024 {
            packed(rt, alloc, &values[..count], width, case)?;
        }
    }
    Ok(())
}

#[test]
fn every_tail_comes_back_at_every_width(rt: HostRuntime) -> Result<(), Fail> {
    for width in 0..=64u8 {
        let most = if width == 0 {
            0
        } else {
            u64::MAX >> (64 - width)
        };
        for (shape, case) in [
            (
                Shape::Scattered {
                    bits: u32::from(width.max(1)),
                },
                "scattered",
            ),
            (Shape::Constant(u64::MAX), "the greatest"),
            (Shape::ALTERNATING, "zeros and the greatest"),
        ] {
            let mut values = shape.values(rt.alloc(), 1023)?;
            for value in values.iter_mut() {
                *value &= most;
            }
            expect_round_trips(&rt, rt.alloc(), &values, width, case)?;
        }
    }
    Ok(())
}

#[test]
fn bytes_of_another_length_or_with_an_unused_bit_are_no_tail(rt: HostRuntime) {
    for (bytes, width, count, lawful) in [
        (&[0x23, 0xa8, 0x1f][..], 7, 3, true),
        (&[0x23, 0xa8, 0x3f][..], 7, 3, false),
        (&[0x23, 0xa8, 0x82][..], 7, 3, false),
        (&[0x23, 0xa8, 0x02, 0x00][..], 7, 3, false),
        (&[0x23, 0xa8][..], 7, 3, false),
        (&[0xff][..], 4, 2, true),
        (&[][..], 0, 1023, true),
        (&[0x00][..], 0, 1023, false),
        (&[][..], 64, 0, true),
        (&[0x00][..], 64, 0, false),
    ] {
        if count < 1024 && width <= 64 {
            assert!(rt;
                check(bytes, width, count) == lawful,
                "{bytes:?} as {count} values of width {width}"
            );
        }
    }
}
