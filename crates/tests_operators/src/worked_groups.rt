//! Groups, and groups within earlier ones, that were worked by hand.

use crate::columns::column_of;
use crate::kept::Kept;
use block_core::{Format, Steps};
use column_core::Cursor;
use group_ops::{GroupTable, group, group_fly, refine, refine_fly};
use std::alloc::{AllocError, Global};
use std::test::Fail;

const MOST: u64 = u64::MAX;

/// A column, and the ids and the extents of its groups.
const GROUPS: [(&'static [u64], &'static [u64], &'static [u64]); 5] = [
    (&[7, 4, 7, 9], &[0, 1, 0, 2], &[0, 1, 3]),
    (&[], &[], &[]),
    (&[MOST, 0, MOST, 0], &[0, 1, 0, 1], &[0, 1]),
    (&[3, 3, 3], &[0, 0, 0], &[0]),
    (&[9, 8, 7], &[0, 1, 2], &[0, 1, 2]),
];

/// Whether the groups and the plain ones are these.
fn are_groups(
    alloc: Global,
    values: &[u64],
    ids: &[u64],
    extents: &[u64],
) -> Result<bool, AllocError> {
    let (plain_ids, plain_extents) = group(alloc, values)?;
    let column = column_of(alloc, values, Format::Dynamic)?;
    let mut table = GroupTable::new(alloc);
    let mut found_ids = Kept::new(alloc, 100);
    let mut found_extents = Kept::new(alloc, 100);
    let mut cursor = Cursor::<8>::new(&column);
    let mut steps = Steps::start(alloc);
    group_fly(
        &mut cursor,
        &mut table,
        &mut found_ids,
        &mut found_extents,
        &mut steps,
    )?;
    let plain = plain_ids.as_slice() == ids && plain_extents.as_slice() == extents;
    Ok(plain && found_ids.values() == ids && found_extents.values() == extents)
}

#[test]
fn groups_are_numbered_as_they_come(rt: HostRuntime) -> Result<(), Fail> {
    for (values, ids, extents) in GROUPS {
        let same = are_groups(rt.alloc(), values, ids, extents)?;
        assert!(rt; same, "{values:?}");
    }
    Ok(())
}

/// Earlier groups, a column, and the ids and the extents of its groups within them.
const REFINED: [(
    &'static [u64],
    &'static [u64],
    &'static [u64],
    &'static [u64],
); 5] = [
    (&[0, 1, 0, 2], &[1, 1, 2, 1], &[0, 1, 2, 3], &[0, 1, 2, 3]),
    (
        &[0, 1, 0, 1, 0],
        &[5, 5, 5, 6, 7],
        &[0, 1, 0, 2, 3],
        &[0, 1, 3, 4],
    ),
    (&[], &[], &[], &[]),
    (
        &[MOST, 0, 0, MOST],
        &[0, MOST, MOST, 0],
        &[0, 1, 1, 0],
        &[0, 1],
    ),
    (&[1, 2], &[2, 1], &[0, 1], &[0, 1]),
];

/// Whether the groups within the earlier ones and the plain ones are these.
fn are_refined(
    alloc: Global,
    before: &[u64],
    values: &[u64],
    ids: &[u64],
    extents: &[u64],
) -> Result<bool, AllocError> {
    if before.len() != values.len() {
        return Ok(false);
    }
    let (plain_ids, plain_extents) = refine(alloc, before, values)?;
    let earlier = column_of(alloc, before, Format::Runs)?;
    let column = column_of(alloc, values, Format::Dynamic)?;
    let mut table = GroupTable::new(alloc);
    let mut found_ids = Kept::new(alloc, 100);
    let mut found_extents = Kept::new(alloc, 100);
    let mut earlier_cursor = Cursor::<8>::new(&earlier);
    let mut cursor = Cursor::<8>::new(&column);
    let mut steps = Steps::start(alloc);
    refine_fly(
        &mut earlier_cursor,
        &mut cursor,
        &mut table,
        &mut found_ids,
        &mut found_extents,
        &mut steps,
    )?;
    let plain = plain_ids.as_slice() == ids && plain_extents.as_slice() == extents;
    Ok(plain && found_ids.values() == ids && found_extents.values() == extents)
}

#[test]
fn groups_within_groups_are_numbered_as_they_come(rt: HostRuntime) -> Result<(), Fail> {
    for (before, values, ids, extents) in REFINED {
        let same = are_refined(rt.alloc(), before, values, ids, extents)?;
        assert!(rt; same, "{values:?} within {before:?}");
    }
    Ok(())
}
