//! Lists whose sizes were worked out by hand.

use block_core::{Emit, Format};
use shapes::Shape;
use size_chooser::{FormatSize, Profile, one_least, profile_of};
use std::process::Abort;
use std::test::Fail;

/// A list, the sizes of its eight files, its static width, and the format of the shortest file.
#[derive(Clone, Copy)]
struct Row {
    name: &'static str,
    shape: Shape,
    count: u16,
    sizes: [u64; 8],
    width: u8,
    least: Format,
}

/// A head has 16 bytes, an entry of a directory 8, a block's width 1, its base 8, its number of runs 2, and a run 10. In `plain`
/// the tail is words, and else it is packed.
const ROWS: [Row; 7] = [
    Row {
        name: "no values",
        shape: Shape::Constant(0),
        count: 0,
        sizes: [16, 16, 16, 16, 16, 16, 16, 16],
        width: 0,
        least: Format::Plain,
    },
    // One block of width 0, with one run.
    Row {
        name: "1,024 zeros",
        shape: Shape::Constant(0),
        count: 1024,
        sizes: [8208, 16, 25, 36, 33, 33, 33, 44],
        width: 0,
        least: Format::Static,
    },
    // The tail's one value has 64 bits, which count for the tail alone.
    Row {
        name: "1,024 ones and then 2^64 - 1",
        shape: Shape::Turning {
            first: 1,
            second: u64::MAX,
            times: 1024,
        },
        count: 1025,
        sizes: [8216, 152, 161, 44, 41, 41, 41, 52],
        width: 1,
        least: Format::Delta1Dynamic,
    },
    // 10 bits, and 1,024 runs. Neighbours differ by -1, which has 64 bits, and the differences are a 0 and 1,023 times -1.
    Row {
        name: "1,023 down to 0",
        shape: Shape::FALLING,
        count: 1024,
        sizes: [8208, 1296, 1305, 10266, 8225, 8225, 1313, 54],
        width: 10,
        least: Format::Delta1Runs,
    },
    // All are in the tail: 1,023 values of 3 bits are 384 bytes, and 8,184 as words.
    Row {
        name: "0 to 4 again and again, but for a block",
        shape: Shape::CYCLING,
        count: 1023,
        sizes: [8200, 400, 400, 400, 400, 400, 400, 400],
        width: 0,
        least: Format::Static,
    },
    // Two blocks of one run each, of widths 0 and 1, and a tail of width 0. The differences of each block are zeros.
    Row {
        name: "1,024 zeros, 1,024 ones and a zero",
        shape: Shape::Turning {
            first: 0,
            second: 1,
            times: 1024,
        },
        count: 2049,
        sizes: [16408, 272, 162, 56, 50, 50, 50, 72],
        width: 1,
        least: Format::Delta1Dynamic,
    },
    // 64 bits, by value and by difference to the least. The differences to the value before are 0, then -1 and 1 in turn: 64
    // bits and 1,024 runs. Those to the value 16 places before are 0 but for the first 16, every other one of which is -1.
    Row {
        name: "0 and 2^64 - 1 in turn",
        shape: Shape::ALTERNATING,
        count: 1024,
        sizes: [8208, 8208, 8217, 10266, 8225, 8225, 8225, 10274],
        width: 64,
        least: Format::Plain,
    },
];

// What a profile of all formats says of a row.
fn expect_profile(rt: &impl Abort, profile: &Profile, row: &Row) {
    assert_eq!(rt;
        profile.count(),
        u64::from(row.count),
        "how many are {}",
        row.name
    );
    assert_eq!(rt;
        profile.static_width(),
        row.width,
        "the static width of {}",
        row.name
    );
    assert_eq!(rt; profile.sizes(), row.sizes, "the sizes of {}", row.name);
    assert_eq!(rt;
        profile.least(),
        row.least,
        "the least format of {}",
        row.name
    );
}

#[test]
fn a_list_has_the_sizes_that_were_worked_out(rt: HostRuntime) -> Result<(), Fail> {
    one_least();
    for row in ROWS {
        let values = row.shape.values(rt.alloc(), row.count as usize)?;
        expect_profile(&rt, &profile_of(values.as_slice()), &row);
    }
    Ok(())
}

#[test]
fn a_list_is_measured_alike_in_each_format_alone(rt: HostRuntime) -> Result<(), Fail> {
    for row in ROWS {
        let values = row.shape.values(rt.alloc(), row.count as usize)?;
        for format in Format::ALL {
            let mut size = FormatSize::new(format);
            size.extend(values.as_slice())?;
            let width = if format == Format::Static {
                row.width
            } else {
                0
            };
            let found = (size.format(), size.count(), size.static_width());
            assert_eq!(rt;
                found,
                (format, u64::from(row.count), width),
                "{} in {format:?}",
                row.name
            );
            let place = format.tag() as usize;
            assert_eq!(rt;
                row.sizes.get(place).copied(),
                Some(size.size()),
                "the size of {} in {format:?}",
                row.name
            );
        }
    }
    Ok(())
}
