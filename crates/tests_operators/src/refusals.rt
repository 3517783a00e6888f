//! Emitters that refuse: each call then answers an error, and what the emitter took is a front of the list.

ghost use Rattle.std.specs.Prelude.{◌≤◌};
ghost use Rattle.definitions_blocks.specs.Columns.{max_rows};

use crate::checks::{are_below, rises};
use crate::columns::column_of;
use crate::kept::Kept;
use block_core::{Format, Steps};
use column_core::{Cursor, Gather};
use join_ops::{KeyMap, KeySet, join, join_fits, join_fly, semi_join, semi_join_fly};
use scan_ops::{
    intersect, intersect_fly, project, project_fly, select, select_fly, union_fly, union_of,
};
use shapes::Shape;
use std::alloc::{AllocError, Global};
use std::test::Fail;
use sum_ops::Sums;

/// How many values an emitter takes.
const LIMITS: [usize; 7] = [0, 1, 1023, 1024, 1025, 1499, 1500];

/// Whether the emitter has a front of the list, and the call was refused just if something is missing.
fn is_cut(kept: &Kept, refused: bool, whole: &[u64]) -> bool {
    kept.is_front(whole) && kept.is_cut(whole) == refused
}

fn selection_is_cut(alloc: Global, values: &[u64], limit: usize) -> Result<bool, AllocError> {
    let plain = select::<8>(alloc, values, 0, u64::MAX)?;
    let column = column_of(alloc, values, Format::Dynamic)?;
    let mut kept = Kept::new(alloc, limit);
    let mut cursor = Cursor::<8>::new(&column);
    let mut steps = Steps::start(alloc);
    let found = select_fly::<8, _, _, _>(&mut cursor, 0, u64::MAX, &mut kept, &mut steps);
    Ok(is_cut(&kept, found.is_err(), plain.as_slice()))
}

fn projection_is_cut(alloc: Global, values: &[u64], limit: usize) -> Result<bool, AllocError> {
    if !are_below(values, values.len() as u64) {
        return Ok(false);
    }
    let plain = project(alloc, values, values)?;
    let column = column_of(alloc, values, Format::Dynamic)?;
    let mut kept = Kept::new(alloc, limit);
    let mut gather = Gather::<8>::new(&column);
    let mut cursor = Cursor::<8>::new(&column);
    let mut steps = Steps::start(alloc);
    let found = project_fly(&mut gather, &mut cursor, &mut kept, &mut steps);
    Ok(is_cut(&kept, found.is_err(), plain.as_slice()))
}

fn intersection_is_cut(alloc: Global, values: &[u64], limit: usize) -> Result<bool, AllocError> {
    if !rises(values) {
        return Ok(false);
    }
    let plain = intersect(alloc, values, values)?;
    let column = column_of(alloc, values, Format::Dynamic)?;
    let mut kept = Kept::new(alloc, limit);
    let mut left = Cursor::<8>::new(&column);
    let mut right = Cursor::<8>::new(&column);
    let mut steps = Steps::start(alloc);
    let found = intersect_fly(&mut left, &mut right, &mut kept, &mut steps);
    Ok(is_cut(&kept, found.is_err(), plain.as_slice()))
}

fn union_is_cut(alloc: Global, values: &[u64], limit: usize) -> Result<bool, AllocError> {
    if !rises(values) {
        return Ok(false);
    }
    let plain = union_of(alloc, values, values)?;
    let _short = column_of(alloc, plain.as_slice(), Format::Plain)?;
    let column = column_of(alloc, values, Format::Dynamic)?;
    let mut kept = Kept::new(alloc, limit);
    let mut left = Cursor::<8>::new(&column);
    let mut right = Cursor::<8>::new(&column);
    let mut steps = Steps::start(alloc);
    let found = union_fly(&mut left, &mut right, &mut kept, &mut steps);
    Ok(is_cut(&kept, found.is_err(), plain.as_slice()))
}

fn semi_join_is_cut(alloc: Global, values: &[u64], limit: usize) -> Result<bool, AllocError> {
    let column = column_of(alloc, values, Format::Dynamic)?;
    let mut cursor = Cursor::<8>::new(&column);
    let mut steps = Steps::start(alloc);
    let set = KeySet::build(alloc, &mut cursor, &mut steps)?;
    let plain = semi_join(alloc, values, &set)?;
    let mut kept = Kept::new(alloc, limit);
    let found = semi_join_fly(&mut cursor, &set, &mut kept, &mut steps);
    Ok(is_cut(&kept, found.is_err(), plain.as_slice()))
}

/// Sums of so many groups, which are all 0.
fn sums_are_cut(alloc: Global, groups: u64, limit: usize) -> Result<bool, AllocError>
    requires { groups ≤ max_rows }
{
    let sums = Sums::new(alloc, groups)?;
    let zeros = Shape::Constant(0).values(alloc, groups as usize)?;
    let mut kept = Kept::new(alloc, limit);
    let found = match sums.check() {
        Ok(()) => sums.emit(&mut kept),
        Err(_) => return Ok(false),
    };
    Ok(is_cut(&kept, found.is_err(), zeros.as_slice()))
}

/// The lists are 0 to 1,499, so that each call emits 1,500 values.
#[test]
fn an_emitter_that_refuses_has_a_front(rt: HostRuntime) -> Result<(), Fail> {
    let values = Shape::Stepping { first: 0, step: 1 }.values(rt.alloc(), 1500)?;
    let values = values.as_slice();
    for limit in LIMITS {
        let cut = [
            selection_is_cut(rt.alloc(), values, limit)?,
            projection_is_cut(rt.alloc(), values, limit)?,
            intersection_is_cut(rt.alloc(), values, limit)?,
            union_is_cut(rt.alloc(), values, limit)?,
            semi_join_is_cut(rt.alloc(), values, limit)?,
            sums_are_cut(rt.alloc(), 1500, limit)?,
        ];
        assert!(rt; cut == [true; 6], "{limit} values: {cut:?}");
    }
    Ok(())
}

/// Whether emitters of these lengths are left with fronts of the two lists, and the join is refused just if one is short.
fn join_is_cut(
    alloc: Global,
    values: &[u64],
    left_limit: usize,
    right_limit: usize,
) -> Result<bool, AllocError> {
    let column = column_of(alloc, values, Format::Dynamic)?;
    let mut cursor = Cursor::<8>::new(&column);
    let mut steps = Steps::start(alloc);
    let map = KeyMap::build(alloc, &mut cursor, &mut steps)?;
    let (lefts, rights) = join(alloc, values, &map)?;
    let mut left = Kept::new(alloc, left_limit);
    let mut right = Kept::new(alloc, right_limit);
    if !join_fits(&mut cursor, &map, &mut steps) {
        return Ok(false);
    }
    let joined = join_fly(&mut cursor, &map, &mut left, &mut right, &mut steps);
    let fronts = left.is_front(lefts.as_slice()) && right.is_front(rights.as_slice());
    let cut = left.is_cut(lefts.as_slice()) || right.is_cut(rights.as_slice());
    Ok(fronts && cut == joined.is_err())
}

/// Each of 0 to 749 twice makes 3,000 pairs.
#[test]
fn a_join_that_is_refused_leaves_fronts(rt: HostRuntime) -> Result<(), Fail> {
    let shape = Shape::Counting {
        times: 1,
        below: 750,
    };
    let values = shape.values(rt.alloc(), 1500)?;
    for (left, right) in [
        (0, 0),
        (0, 3000),
        (3000, 0),
        (1024, 1023),
        (1025, 2049),
        (3000, 2999),
        (2999, 3000),
        (3000, 3000),
    ] {
        let cut = join_is_cut(rt.alloc(), values.as_slice(), left, right)?;
        assert!(rt; cut, "{left} and {right} places");
    }
    Ok(())
}
