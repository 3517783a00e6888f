//! Each call of the lanes at each width, on sixteen words whose answers were worked out by hand.

ghost use Rattle.std.specs.Prelude.{◌≡◌, ◌≤◌, length};

use lane_core::Lanes;
use std::process::Abort;
use std::test::Fail;

const MOST: u64 = u64::MAX;

// The greatest even number, and the greatest multiple of four.
const EVEN: u64 = MOST - 1;

const FOURFOLD: u64 = MOST - 3;

const HALF: u64 = 1 << 63;

const QUARTER: u64 = HALF / 2;

const BELOW_HALF: u64 = HALF - 1;

const WORDS: [u64; 16] = [
    0, 1, MOST, HALF, 5, 9, 10, 11, 20, 21, 255, 256, 7, EVEN, 2, 3,
];

const OTHERS: [u64; 16] = [1, MOST, 1, HALF, 5, 10, 9, 0, 21, 20, 1, 1, 8, 2, MOST, 3];

const SUMS: [u64; 16] = [1, 0, 0, 0, 10, 19, 19, 11, 41, 41, 256, 257, 15, 0, 1, 6];

const DIFFERENCES: [u64; 16] = [
    MOST, 2, EVEN, 0, 0, MOST, 1, 11, MOST, 1, 254, 255, MOST, FOURFOLD, 3, 0,
];

const BOTH: [u64; 16] = [0, 1, 1, HALF, 5, 8, 8, 0, 20, 20, 1, 0, 0, 2, 2, 3];

const EITHER: [u64; 16] = [
    1, MOST, MOST, HALF, 5, 11, 11, 11, 21, 21, 255, 257, 15, EVEN, MOST, 3,
];

const DOUBLED: [u64; 16] = [
    0, 2, EVEN, 0, 10, 18, 20, 22, 40, 42, 510, 512, 14, FOURFOLD, 4, 6,
];

const HALVED: [u64; 16] = [
    0, 0, BELOW_HALF, QUARTER, 2, 4, 5, 5, 10, 10, 127, 128, 3, BELOW_HALF, 1, 1,
];

// Up by 63: of each word the lowest bit is left, as the highest.
const LOWEST_ON_TOP: [u64; 16] = [
    0, HALF, HALF, 0, HALF, HALF, 0, HALF, 0, HALF, HALF, 0, HALF, 0, 0, HALF,
];

// Down by 63: of each word the highest bit is left, as the lowest.
const HIGHEST_BELOW: [u64; 16] = [0, 0, 1, 1, 0, 0, 0, 0, 0, 0, 0, 0, 0, 1, 0, 0];

// The lanes are the first `L` of `expected`, and a store leaves what follows them.
fn expect_lanes<const L: usize>(rt: &impl Abort, lanes: Lanes<L>, expected: &[u64], call: &str)
    requires few { L ≤ 16 }
    requires sixteen { length expected.now ≡ 16 }
{
    let mut written = [77; 17];
    lanes.store(&mut written);
    assert!(rt; written[..L] == expected[..L], "{call}");
    assert!(rt; written[L..].iter().all(|word| *word == 77), "after {call}");
}

// `every` has a bit for each lane.
fn calls_at<const L: usize>(rt: &impl Abort, every: u16, total: u128)
    requires { L ≤ 16 }
{
    let words = Lanes::<L>::load(&WORDS);
    let others = Lanes::<L>::load(&OTHERS);
    expect_lanes(rt, words, &WORDS, "load");
    expect_lanes(rt, Lanes::<L>::splat(MOST), &[MOST; 16], "splat");
    expect_lanes(rt, words.add(others), &SUMS, "add");
    expect_lanes(rt, words.sub(others), &DIFFERENCES, "sub");
    expect_lanes(rt, words.and(others), &BOTH, "and");
    expect_lanes(rt, words.or(others), &EITHER, "or");
    expect_lanes(rt, words.shift_up(0), &WORDS, "up by 0");
    expect_lanes(rt, words.shift_up(1), &DOUBLED, "up by 1");
    expect_lanes(rt, words.shift_up(63), &LOWEST_ON_TOP, "up by 63");
    expect_lanes(rt, words.shift_down(0), &WORDS, "down by 0");
    expect_lanes(rt, words.shift_down(1), &HALVED, "down by 1");
    expect_lanes(rt, words.shift_down(63), &HIGHEST_BELOW, "down by 63");
    for (low, high, mask) in [
        (0, MOST, 0xffff),
        (0, 0, 0x0001),
        (MOST, MOST, 0x0004),
        (2, EVEN, 0xfff8),
        (5, 11, 0x10f0),
        (HALF, MOST, 0x200c),
        (12, 19, 0),
        (11, 5, 0),
        (MOST, 0, 0),
    ] {
        assert_eq!(rt;
            words.in_range(low, high),
            mask & every,
            "from {low} to {high}"
        );
    }
    assert_eq!(rt; words.sum_u128(), total, "sum");
}

#[test]
fn each_call_gives_its_worked_lanes_at_each_width(rt: HostRuntime) -> Result<(), Fail> {
    calls_at::<1>(&rt, 0x0001, 0);
    calls_at::<2>(&rt, 0x0003, 1);
    calls_at::<4>(&rt, 0x000f, 27670116110564327424);
    calls_at::<8>(&rt, 0x00ff, 27670116110564327459);
    calls_at::<16>(&rt, 0xffff, 46116860184273879637);
    Ok(())
}
