//! Intersections and unions.

use crate::checks::rises;
use crate::columns::{column_of, next_of};
use block_core::{Format, Steps};
use column_core::{Builder, Cursor};
use scan_ops::{intersect, intersect_fly, union_fly, union_of};
use shapes::Shape;
use std::alloc::{AllocError, Global};
use std::process::Abort;
use std::test::Fail;

/// Pairs of lists that rise, each by its first number and the step to the next one: equal, interleaved, disjoint either way, every other one of the other's, and up to the greatest number.
const PAIRS: [((u64, u64), (u64, u64)); 6] = [
    ((0, 1), (0, 1)),
    ((0, 2), (1, 2)),
    ((0, 1), (1 << 40, 1)),
    ((1 << 40, 3), (0, 1)),
    ((10, 1), (0, 2)),
    ((u64::MAX - 2499, 1), (u64::MAX - 4998, 2)),
];

/// Whether an intersection of two columns, in formats that follow one another, is the column of the plain one.
fn meets(alloc: Global, left: &[u64], right: &[u64], format: Format) -> Result<bool, AllocError> {
    if !rises(left) || !rises(right) {
        return Ok(false);
    }
    let (second, into) = (next_of(format), next_of(next_of(format)));
    let first_column = column_of(alloc, left, format)?;
    let second_column = column_of(alloc, right, second)?;
    let plain = intersect(alloc, left, right)?;
    let wanted = column_of(alloc, plain.as_slice(), into)?;
    let mut builder = Builder::new(alloc, into, wanted.static_width())?;
    let mut first = Cursor::<8>::new(&first_column);
    let mut other = Cursor::<8>::new(&second_column);
    let mut steps = Steps::start(alloc);
    intersect_fly(&mut first, &mut other, &mut builder, &mut steps)?;
    let built = builder.finish()?;
    Ok(built.encoded() == wanted.encoded())
}

/// Whether a union of two columns, in formats that follow one another, is the column of the plain one.
fn merges(alloc: Global, left: &[u64], right: &[u64], format: Format) -> Result<bool, AllocError> {
    if !rises(left) || !rises(right) {
        return Ok(false);
    }
    let (second, into) = (next_of(format), next_of(next_of(format)));
    let first_column = column_of(alloc, left, format)?;
    let second_column = column_of(alloc, right, second)?;
    let plain = union_of(alloc, left, right)?;
    let wanted = column_of(alloc, plain.as_slice(), into)?;
    let mut builder = Builder::new(alloc, into, wanted.static_width())?;
    let mut first = Cursor::<8>::new(&first_column);
    let mut other = Cursor::<8>::new(&second_column);
    let mut steps = Steps::start(alloc);
    union_fly(&mut first, &mut other, &mut builder, &mut steps)?;
    let built = builder.finish()?;
    Ok(built.encoded() == wanted.encoded())
}

fn expect_sets(
    rt: &impl Abort,
    alloc: Global,
    left: &[u64],
    right: &[u64],
    pair: ((u64, u64), (u64, u64)),
) -> Result<(), AllocError> {
    for format in Format::ALL {
        let (few, more) = (left.len(), right.len());
        let met = meets(alloc, left, right, format)?;
        assert!(rt; met, "{few} and {more} of {pair:?} from {format:?}");
        let merged = merges(alloc, left, right, format)?;
        assert!(rt; merged, "{few} or {more} of {pair:?} from {format:?}");
    }
    Ok(())
}

fn rising(alloc: Global, steps: (u64, u64), count: usize) -> Result<Vec<u64>, AllocError> {
    let (first, step) = steps;
    Shape::Stepping { first, step }.values(alloc, count)
}

#[test]
fn sets_in_every_format_are_the_plain_ones(rt: HostRuntime) -> Result<(), Fail> {
    for pair in PAIRS {
        for (left, right) in [
            (0, 1025),
            (1, 0),
            (1023, 2500),
            (1024, 1024),
            (1025, 1),
            (2500, 2500usize),
        ] {
            let first = rising(rt.alloc(), pair.0, left)?;
            let second = rising(rt.alloc(), pair.1, right)?;
            expect_sets(&rt, rt.alloc(), first.as_slice(), second.as_slice(), pair)?;
        }
    }
    Ok(())
}
