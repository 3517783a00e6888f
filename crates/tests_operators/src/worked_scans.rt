//! Selections, projections and sets that were worked by hand.

use crate::checks::{are_below, rises};
use crate::columns::column_of;
use crate::kept::Kept;
use block_core::{Format, Steps};
use column_core::{Cursor, Gather};
use scan_ops::{intersect, intersect_fly, project_fly, select, select_fly, union_fly, union_of};
use std::alloc::{AllocError, Global};
use std::test::Fail;

const MOST: u64 = u64::MAX;

/// Whether a selection and the plain one give these places.
fn selects(
    alloc: Global,
    values: &[u64],
    range: (u64, u64),
    places: &[u64],
    format: Format,
) -> Result<bool, AllocError> {
    let (low, high) = range;
    let plain = select::<8>(alloc, values, low, high)?;
    let column = column_of(alloc, values, format)?;
    let mut kept = Kept::new(alloc, 100);
    let mut cursor = Cursor::<8>::new(&column);
    let mut steps = Steps::start(alloc);
    select_fly::<8, _, _, _>(&mut cursor, low, high, &mut kept, &mut steps)?;
    Ok(plain.as_slice() == places && kept.values() == places)
}

/// 1,024 zeros and a 5. Its contract says that the selection takes at most one step for each of the two blocks.
#[test]
fn the_last_of_1025_rows_is_selected(rt: HostRuntime) -> Result<(), Fail> {
    let mut values = vec![in rt.alloc(); 0; 1024]?;
    values.push(5)?;
    for format in Format::ALL {
        let same = selects(rt.alloc(), values.as_slice(), (5, 5), &[1024], format)?;
        assert!(rt; same, "{format:?}");
    }
    Ok(())
}

#[test]
fn both_ends_of_a_range_are_selected(rt: HostRuntime) -> Result<(), Fail> {
    let values = [0, MOST, 1, MOST - 1, 7];
    let cases: [((u64, u64), &[u64]); 7] = [
        ((0, 0), &[0]),
        ((MOST, MOST), &[1]),
        ((0, MOST), &[0, 1, 2, 3, 4]),
        ((1, MOST - 1), &[2, 3, 4]),
        ((MOST, 0), &[]),
        ((8, 7), &[]),
        ((2, 6), &[]),
    ];
    for (range, places) in cases {
        let same = selects(rt.alloc(), &values, range, places, Format::Delta16Dynamic)?;
        assert!(rt; same, "{range:?}");
    }
    let none = selects(rt.alloc(), &[], (0, MOST), &[], Format::Plain)?;
    assert!(rt; none, "no rows");
    Ok(())
}

/// The values at places, which must be places of the column.
fn projected(alloc: Global, values: &[u64], places: &[u64]) -> Result<Kept, AllocError> {
    if !are_below(places, values.len() as u64) {
        return Err(AllocError);
    }
    let column = column_of(alloc, values, Format::ReferenceDynamic)?;
    let listed = column_of(alloc, places, Format::Delta1Dynamic)?;
    let mut kept = Kept::new(alloc, 100);
    let mut gather = Gather::<8>::new(&column);
    let mut cursor = Cursor::<8>::new(&listed);
    let mut steps = Steps::start(alloc);
    project_fly(&mut gather, &mut cursor, &mut kept, &mut steps)?;
    Ok(kept)
}

#[test]
fn a_projection_keeps_the_order_of_its_places(rt: HostRuntime) -> Result<(), Fail> {
    let cases: [(&[u64], &[u64]); 4] = [
        (&[], &[]),
        (&[2, 0, 2], &[MOST, 10, MOST]),
        (&[1], &[20]),
        (&[0, 1, 2, 1, 0], &[10, 20, MOST, 20, 10]),
    ];
    for (places, values) in cases {
        let found = projected(rt.alloc(), &[10, 20, MOST], places)?;
        assert_eq!(rt; found.values(), values, "{places:?}");
    }
    let none = projected(rt.alloc(), &[], &[])?;
    assert_eq!(rt; none.values().len(), 0, "no places of no rows");
    Ok(())
}

/// Two lists that rise, the numbers of both, and the numbers of either.
#[derive(Clone, Copy)]
struct Sets {
    name: &'static str,
    left: &'static [u64],
    right: &'static [u64],
    both: &'static [u64],
    either: &'static [u64],
}

const SETS: [Sets; 8] = [
    Sets {
        name: "nothing and nothing",
        left: &[],
        right: &[],
        both: &[],
        either: &[],
    },
    Sets {
        name: "nothing and some",
        left: &[],
        right: &[1, MOST],
        both: &[],
        either: &[1, MOST],
    },
    Sets {
        name: "some and nothing",
        left: &[0, 5],
        right: &[],
        both: &[],
        either: &[0, 5],
    },
    Sets {
        name: "equal",
        left: &[0, 3, MOST],
        right: &[0, 3, MOST],
        both: &[0, 3, MOST],
        either: &[0, 3, MOST],
    },
    Sets {
        name: "interleaved",
        left: &[0, 2, 4],
        right: &[1, 3, 5],
        both: &[],
        either: &[0, 1, 2, 3, 4, 5],
    },
    Sets {
        name: "disjoint, the left first",
        left: &[0, 1],
        right: &[MOST - 1, MOST],
        both: &[],
        either: &[0, 1, MOST - 1, MOST],
    },
    Sets {
        name: "disjoint, the right first",
        left: &[7, 9],
        right: &[0, 6],
        both: &[],
        either: &[0, 6, 7, 9],
    },
    Sets {
        name: "one within the other",
        left: &[3, 9],
        right: &[0, 3, 4, 9, 11],
        both: &[3, 9],
        either: &[0, 3, 4, 9, 11],
    },
];

/// Whether the intersection, the union and their plain forms are these.
fn are_sets(alloc: Global, sets: Sets, format: Format) -> Result<[bool; 4], AllocError> {
    if !rises(sets.left) || !rises(sets.right) {
        return Ok([false; 4]);
    }
    let left = column_of(alloc, sets.left, format)?;
    let right = column_of(alloc, sets.right, format)?;
    let met = intersect(alloc, sets.left, sets.right)?;
    let merged = union_of(alloc, sets.left, sets.right)?;
    if merged.as_slice().len() > 100 {
        return Ok([false; 4]);
    }
    let mut both = Kept::new(alloc, 100);
    let mut either = Kept::new(alloc, 100);
    let mut steps = Steps::start(alloc);
    let mut first = Cursor::<8>::new(&left);
    let mut second = Cursor::<8>::new(&right);
    intersect_fly(&mut first, &mut second, &mut both, &mut steps)?;
    union_fly(&mut first, &mut second, &mut either, &mut steps)?;
    Ok([
        met.as_slice() == sets.both,
        merged.as_slice() == sets.either,
        both.values() == sets.both,
        either.values() == sets.either,
    ])
}

#[test]
fn sets_are_those_that_were_worked_by_hand(rt: HostRuntime) -> Result<(), Fail> {
    for sets in SETS {
        for format in Format::ALL {
            let same = are_sets(rt.alloc(), sets, format)?;
            assert!(rt; same == [true; 4], "{} in {format:?}: {same:?}", sets.name);
        }
    }
    Ok(())
}
