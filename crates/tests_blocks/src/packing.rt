//! Round trips at every width and lane width, and blocks whose bytes were worked out by hand.

ghost use Rattle.std.specs.Prelude.{◌≡◌, ◌*◌, ◌≤◌, length, IfOk};
ghost use Rattle.definitions_blocks.specs.Blocks.{block_values};
ghost use Rattle.definitions_blocks.specs.Packed.{AreBelow};

use block_core::Block;
use std::alloc::{AllocError, Global};
use std::process::Abort;
use std::test::Fail;
use strand_pack::{pack, packed_len, pick, unpack, width_of};

const EVEN_BITS: u64 = 0x5555_5555_5555_5555;

const ODD_BITS: u64 = 0xaaaa_aaaa_aaaa_aaaa;

// Bytes of which each will be overwritten.
fn room_for(alloc: Global, width: u8) -> Result<Vec<u8>, AllocError>
    ensures { IfOk result (λ bytes. length bytes.items ≡ 128 * width) }
{
    vec![in alloc; 0x99; packed_len(width)]
}

// The block whose strands each repeat one value.
fn block_of(strands: &[u64; 16]) -> Block
    ensures { length result ≡ block_values }
{
    let mut block = Block::new();
    block.fill();
    for (place, value) in block.as_mut_slice().iter_mut().enumerate() {
        *value = strands[place % 16];
    }
    block
}

// At this lane width too, the block's bytes are these, and they are the block.
fn expect_at<const L: usize>(
    rt: &impl Abort,
    alloc: Global,
    block: &Block,
    width: u8,
    expected: &[u8],
    case: &str,
) -> Result<(), Fail>
    requires whole { length block.now ≡ block_values }
    requires narrow { width ≤ 64 }
    requires small { AreBelow width block.now }
{
    let mut bytes = room_for(alloc, width)?;
    pack::<L>(block, width, &mut bytes);
    assert!(rt;
        bytes.as_slice() == expected,
        "{case} packed at width {width}, {L} lanes"
    );
    let mut unpacked = Block::new();
    unpack::<L>(&bytes, width, &mut unpacked);
    assert!(rt;
        unpacked.as_slice() == block.as_slice(),
        "{case} unpacked at width {width}, {L} lanes"
    );
    Ok(())
}

fn expect_round_trips(
    rt: &impl Abort,
    alloc: Global,
    strands: &[u64; 16],
    width: u8,
    case: &str,
) -> Result<(), Fail>
    requires narrow { width ≤ 64 }
{
    let block = block_of(strands);
    assert!(rt; width_of(&block) <= width, "{case} is too wide for {width}");
    let mut bytes = room_for(alloc, width)?;
    pack::<1>(&block, width, &mut bytes);
    expect_at::<1>(rt, alloc, &block, width, &bytes, case)?;
    expect_at::<2>(rt, alloc, &block, width, &bytes, case)?;
    expect_at::<3>(rt, alloc, &block, width, &bytes, case)?;
    expect_at::<4>(rt, alloc, &block, width, &bytes, case)?;
    expect_at::<8>(rt, alloc, &block, width, &bytes, case)?;
    expect_at::<16>(rt, alloc, &block, width, &bytes, case)?;
    for (place, value) in block.as_slice().iter().enumerate() {
        assert!(rt;
            pick(&bytes, width, place) == *value,
            "{case}, width {width}, place {place}"
        );
    }
    Ok(())
}

#[test]
fn each_width_holds_its_values_at_each_lane_width(rt: HostRuntime) -> Result<(), Fail> {
    for width in 0..=64u8 {
        let most = if width == 0 {
            0
        } else {
            u64::MAX >> (64 - width)
        };
        for (value, case) in [
            (0, "zeros"),
            (1, "ones"),
            (u64::MAX, "the greatest"),
            (EVEN_BITS, "even bits"),
            (ODD_BITS, "odd bits"),
        ] {
            expect_round_trips(&rt, rt.alloc(), &[value & most; 16], width, case)?;
        }
        for strand in 0..16 {
            let mut strands = [0; 16];
            strands[strand] = most;
            expect_round_trips(&rt, rt.alloc(), &strands, width, "one strand")?;
        }
    }
    Ok(())
}

// Place 195 is strand 3, row 12, so at width 5 its value has the bits 60 to 64 of that strand: the four high bits of word 3,
// and the lowest of word 19.
#[test]
fn a_value_that_ends_in_the_next_word_is_in_both(rt: HostRuntime) -> Result<(), Fail> {
    let mut block = block_of(&[0; 16]);
    block.as_mut_slice()[195] = 31;
    assert!(rt; width_of(&block) == 5, "the width");
    let mut bytes = room_for(rt.alloc(), 5)?;
    pack::<8>(&block, 5, &mut bytes);
    let mut expected = [0; 640];
    expected[31] = 0xf0;
    expected[152] = 0x01;
    assert!(rt; bytes.as_slice() == expected.as_slice(), "the bytes");
    Ok(())
}
