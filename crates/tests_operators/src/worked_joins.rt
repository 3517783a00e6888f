//! Semi-joins and joins that were worked by hand.

use crate::columns::column_of;
use crate::kept::Kept;
use block_core::{Format, Steps};
use column_core::Cursor;
use join_ops::{KeyMap, KeySet, join, join_fits, join_fly, semi_join, semi_join_fly};
use shapes::Shape;
use std::alloc::{AllocError, Global};
use std::process::Abort;
use std::test::Fail;

/// A column and keys, the places of the values that are keys, and the two lists of their join.
#[derive(Clone, Copy)]
struct Case {
    name: &'static str,
    probe: &'static [u64],
    keys: &'static [u64],
    places: &'static [u64],
    lefts: &'static [u64],
    rights: &'static [u64],
}

const MOST: u64 = u64::MAX;

const CASES: [Case; 12] = [
    Case {
        name: "repeated keys that lie close together",
        probe: &[5, 6, 5],
        keys: &[5, 7, 5],
        places: &[0, 2],
        lefts: &[0, 0, 2, 2],
        rights: &[0, 2, 0, 2],
    },
    Case {
        name: "repeated keys that lie far apart",
        probe: &[5, 1 << 60, 6],
        keys: &[1 << 60, 5, 1 << 60],
        places: &[0, 1],
        lefts: &[0, 1, 1],
        rights: &[1, 0, 2],
    },
    Case {
        name: "no rows",
        probe: &[],
        keys: &[1, 2],
        places: &[],
        lefts: &[],
        rights: &[],
    },
    Case {
        name: "no keys",
        probe: &[1, 2],
        keys: &[],
        places: &[],
        lefts: &[],
        rights: &[],
    },
    Case {
        name: "neither rows nor keys",
        probe: &[],
        keys: &[],
        places: &[],
        lefts: &[],
        rights: &[],
    },
    Case {
        name: "the least and the greatest number",
        probe: &[0, MOST, 5, MOST, 0],
        keys: &[MOST, 0],
        places: &[0, 1, 3, 4],
        lefts: &[0, 1, 3, 4],
        rights: &[1, 0, 0, 1],
    },
    Case {
        name: "neighbours up to the greatest number",
        probe: &[MOST - 1, MOST - 2, MOST, 0],
        keys: &[MOST, MOST - 1],
        places: &[0, 2],
        lefts: &[0, 2],
        rights: &[1, 0],
    },
    Case {
        name: "neighbours below the greatest number",
        probe: &[MOST, MOST - 1, MOST - 2, MOST - 3],
        keys: &[MOST - 1, MOST - 2],
        places: &[1, 2],
        lefts: &[1, 2],
        rights: &[0, 1],
    },
    Case {
        name: "neighbours from 0 on",
        probe: &[MOST, 0, 2, 1],
        keys: &[1, 0],
        places: &[1, 3],
        lefts: &[1, 3],
        rights: &[1, 0],
    },
    Case {
        name: "one bucket",
        probe: &[1 << 36, 0, 1 << 37, 7, 1 << 38],
        keys: &[1 << 37, 1 << 36, 1 << 37],
        places: &[0, 2],
        lefts: &[0, 2, 2],
        rights: &[1, 0, 2],
    },
    Case {
        name: "two keys within 64 values",
        probe: &[99, 100, 163, 164, 165],
        keys: &[100, 163],
        places: &[1, 2],
        lefts: &[1, 2],
        rights: &[0, 1],
    },
    Case {
        name: "two keys within 65 values",
        probe: &[99, 100, 163, 164, 165],
        keys: &[100, 164],
        places: &[1, 3],
        lefts: &[1, 3],
        rights: &[0, 1],
    },
];

/// Whether the semi-join and its plain form give the places.
fn finds_places(alloc: Global, case: Case, format: Format) -> Result<bool, AllocError> {
    let key_column = column_of(alloc, case.keys, format)?;
    let mut key_cursor = Cursor::<8>::new(&key_column);
    let mut steps = Steps::start(alloc);
    let set = KeySet::build(alloc, &mut key_cursor, &mut steps)?;
    let plain = semi_join(alloc, case.probe, &set)?;
    let column = column_of(alloc, case.probe, format)?;
    let mut cursor = Cursor::<8>::new(&column);
    let mut places = Kept::new(alloc, 100);
    semi_join_fly(&mut cursor, &set, &mut places, &mut steps)?;
    Ok(plain.as_slice() == case.places && places.values() == case.places)
}

/// Whether the join and its plain form give the two lists.
fn finds_pairs(alloc: Global, case: Case, format: Format) -> Result<bool, AllocError> {
    let key_column = column_of(alloc, case.keys, format)?;
    let mut key_cursor = Cursor::<8>::new(&key_column);
    let mut steps = Steps::start(alloc);
    let map = KeyMap::build(alloc, &mut key_cursor, &mut steps)?;
    let (lefts, rights) = join(alloc, case.probe, &map)?;
    let column = column_of(alloc, case.probe, format)?;
    let mut cursor = Cursor::<8>::new(&column);
    let mut left = Kept::new(alloc, 100);
    let mut right = Kept::new(alloc, 100);
    if !join_fits(&mut cursor, &map, &mut steps) {
        return Ok(false);
    }
    join_fly(&mut cursor, &map, &mut left, &mut right, &mut steps)?;
    let plain = lefts.as_slice() == case.lefts && rights.as_slice() == case.rights;
    Ok(plain && left.values() == case.lefts && right.values() == case.rights)
}

#[test]
fn joins_give_the_rows_that_were_worked_by_hand(rt: HostRuntime) -> Result<(), Fail> {
    for case in CASES {
        for format in Format::ALL {
            let found = finds_places(rt.alloc(), case, format)?;
            assert!(rt; found, "places: {} in {format:?}", case.name);
            let paired = finds_pairs(rt.alloc(), case, format)?;
            assert!(rt; paired, "pairs: {} in {format:?}", case.name);
        }
    }
    Ok(())
}

/// Whether a join of so many rows with 16,384 keys fits, all of which are one number.
fn fits(alloc: Global, rows: usize) -> Result<bool, AllocError> {
    let keys = Shape::Constant(5).values(alloc, 16_384)?;
    let key_column = column_of(alloc, keys.as_slice(), Format::Runs)?;
    let mut key_cursor = Cursor::<8>::new(&key_column);
    let mut steps = Steps::start(alloc);
    let map = KeyMap::build(alloc, &mut key_cursor, &mut steps)?;
    let probe = Shape::Constant(5).values(alloc, rows)?;
    let column = column_of(alloc, probe.as_slice(), Format::Runs)?;
    let mut cursor = Cursor::<8>::new(&column);
    Ok(join_fits(&mut cursor, &map, &mut steps))
}

/// 16,384 times 16,384 is 268,435,456.
#[test]
fn a_join_fits_up_to_268_435_456_pairs(rt: HostRuntime) -> Result<(), Fail> {
    for (rows, want) in [(16_384, true), (16_385, false)] {
        let fits = fits(rt.alloc(), rows)?;
        assert_eq!(rt; fits, want, "{rows} rows");
    }
    Ok(())
}
