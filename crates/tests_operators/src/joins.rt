//! Semi-joins and joins.

use crate::columns::{COUNTS, SHAPES, column_of, next_of};
use block_core::{Format, Steps};
use column_core::{Builder, Cursor};
use join_ops::{KeyMap, KeySet, join, join_fits, join_fly, semi_join, semi_join_fly};
use shapes::Shape;
use std::alloc::{AllocError, Global};
use std::process::Abort;
use std::test::Fail;

/// Keys that are none, one, close together, close together and repeated, far apart and repeated, and few at random.
const KEYS: [(Shape, u16); 6] = [
    (Shape::CYCLING, 0),
    (Shape::Constant(7), 3),
    (Shape::Stepping { first: 0, step: 1 }, 1025),
    (Shape::CYCLING, 7),
    (Shape::ALTERNATING, 4),
    (Shape::Scattered { bits: 6 }, 20),
];

/// Whether a semi-join of a column, built in the next format, is the column of the plain one.
fn semi_joins(
    alloc: Global,
    probe: &[u64],
    keys: &[u64],
    format: Format,
) -> Result<bool, AllocError> {
    let into = next_of(format);
    let mut steps = Steps::start(alloc);
    let key_column = column_of(alloc, keys, into)?;
    let mut key_cursor = Cursor::<8>::new(&key_column);
    let set = KeySet::build(alloc, &mut key_cursor, &mut steps)?;
    let plain = semi_join(alloc, probe, &set)?;
    let column = column_of(alloc, probe, format)?;
    let wanted = column_of(alloc, plain.as_slice(), into)?;
    let mut builder = Builder::new(alloc, into, wanted.static_width())?;
    let mut cursor = Cursor::<8>::new(&column);
    semi_join_fly(&mut cursor, &set, &mut builder, &mut steps)?;
    let built = builder.finish()?;
    Ok(built.encoded() == wanted.encoded())
}

/// Whether a join of a column, built in the two next formats, is the two columns of the plain one.
fn joins(alloc: Global, probe: &[u64], map: &KeyMap, format: Format) -> Result<bool, AllocError> {
    let (left_format, right_format) = (next_of(format), next_of(next_of(format)));
    let column = column_of(alloc, probe, format)?;
    let mut cursor = Cursor::<8>::new(&column);
    let mut steps = Steps::start(alloc);
    if !join_fits(&mut cursor, map, &mut steps) {
        return Ok(false);
    }
    let (lefts, rights) = join(alloc, probe, map)?;
    let left_wanted = column_of(alloc, lefts.as_slice(), left_format)?;
    let right_wanted = column_of(alloc, rights.as_slice(), right_format)?;
    let mut left = Builder::new(alloc, left_format, left_wanted.static_width())?;
    let mut right = Builder::new(alloc, right_format, right_wanted.static_width())?;
    join_fly(&mut cursor, map, &mut left, &mut right, &mut steps)?;
    let left_built = left.finish()?;
    let right_built = right.finish()?;
    Ok(
        left_built.encoded() == left_wanted.encoded()
            && right_built.encoded() == right_wanted.encoded(),
    )
}

/// Whether a join is the plain one, with a map that is built from a column of the format.
fn joins_keys(
    alloc: Global,
    probe: &[u64],
    keys: &[u64],
    format: Format,
) -> Result<bool, AllocError> {
    let column = column_of(alloc, keys, format)?;
    let mut cursor = Cursor::<8>::new(&column);
    let mut steps = Steps::start(alloc);
    let map = KeyMap::build(alloc, &mut cursor, &mut steps)?;
    joins(alloc, probe, &map, format)
}

fn expect_joins(
    rt: &impl Abort,
    alloc: Global,
    probe: &[u64],
    keys: &[u64],
    names: (Shape, Shape),
) -> Result<(), AllocError> {
    for format in Format::ALL {
        let (rows, count) = (probe.len(), keys.len());
        let same = semi_joins(alloc, probe, keys, format)?;
        assert!(rt;
            same,
            "{rows} rows among {count} keys of {names:?} in {format:?}"
        );
        let joined = joins_keys(alloc, probe, keys, format)?;
        assert!(rt;
            joined,
            "{rows} rows with {count} keys of {names:?} in {format:?}"
        );
    }
    Ok(())
}

#[test]
fn joins_in_every_format_are_the_plain_ones(rt: HostRuntime) -> Result<(), Fail> {
    for shape in SHAPES {
        for rows in COUNTS {
            let probe = shape.values(rt.alloc(), rows as usize)?;
            for (key_shape, count) in KEYS {
                let keys = key_shape.values(rt.alloc(), count as usize)?;
                let names = (shape, key_shape);
                expect_joins(&rt, rt.alloc(), probe.as_slice(), keys.as_slice(), names)?;
            }
        }
    }
    Ok(())
}

#[test]
fn keys_in_one_bucket_are_told_apart(rt: HostRuntime) -> Result<(), Fail> {
    let shape = Shape::Stepping {
        first: 0,
        step: 1 << 45,
    };
    let probe = shape.values(rt.alloc(), 1500)?;
    let keys = shape.values(rt.alloc(), 1100)?;
    let names = (shape, shape);
    expect_joins(&rt, rt.alloc(), probe.as_slice(), keys.as_slice(), names)?;
    Ok(())
}
