//! Emitters that refuse the groups of a column.

use crate::columns::column_of;
use crate::kept::Kept;
use block_core::{Format, Steps};
use column_core::Cursor;
use group_ops::{GroupTable, group, group_fly, refine, refine_fly};
use shapes::Shape;
use std::alloc::{AllocError, Global};
use std::test::Fail;

/// Whether emitters of these lengths are left with fronts of the ids and the extents, and the call is refused just if one is short.
fn groups_are_cut(
    alloc: Global,
    values: &[u64],
    id_limit: usize,
    extent_limit: usize,
) -> Result<bool, AllocError> {
    let (ids, extents) = group(alloc, values)?;
    let column = column_of(alloc, values, Format::Dynamic)?;
    let mut table = GroupTable::new(alloc);
    let mut found_ids = Kept::new(alloc, id_limit);
    let mut found_extents = Kept::new(alloc, extent_limit);
    let mut cursor = Cursor::<8>::new(&column);
    let mut steps = Steps::start(alloc);
    let grouped = group_fly(
        &mut cursor,
        &mut table,
        &mut found_ids,
        &mut found_extents,
        &mut steps,
    );
    let cut = found_ids.is_cut(ids.as_slice()) || found_extents.is_cut(extents.as_slice());
    let fronts = found_ids.is_front(ids.as_slice()) && found_extents.is_front(extents.as_slice());
    Ok(fronts && cut == grouped.is_err())
}

/// The same of groups within earlier ones, which are all one group.
fn refined_are_cut(
    alloc: Global,
    values: &[u64],
    id_limit: usize,
    extent_limit: usize,
) -> Result<bool, AllocError> {
    let before = Shape::Constant(0).values(alloc, values.len())?;
    let (ids, extents) = refine(alloc, before.as_slice(), values)?;
    let earlier = column_of(alloc, before.as_slice(), Format::Runs)?;
    let column = column_of(alloc, values, Format::Dynamic)?;
    let mut table = GroupTable::new(alloc);
    let mut found_ids = Kept::new(alloc, id_limit);
    let mut found_extents = Kept::new(alloc, extent_limit);
    let mut earlier_cursor = Cursor::<8>::new(&earlier);
    let mut cursor = Cursor::<8>::new(&column);
    let mut steps = Steps::start(alloc);
    let refined = refine_fly(
        &mut earlier_cursor,
        &mut cursor,
        &mut table,
        &mut found_ids,
        &mut found_extents,
        &mut steps,
    );
    let cut = found_ids.is_cut(ids.as_slice()) || found_extents.is_cut(extents.as_slice());
    let fronts = found_ids.is_front(ids.as_slice()) && found_extents.is_front(extents.as_slice());
    Ok(fronts && cut == refined.is_err())
}

/// The 1,500 values are different, so that each has a group of its own.
#[test]
fn groups_that_are_refused_leave_fronts(rt: HostRuntime) -> Result<(), Fail> {
    let values = Shape::Stepping { first: 9, step: 3 }.values(rt.alloc(), 1500)?;
    for (ids, extents) in [
        (0, 0),
        (0, 1500),
        (1500, 0),
        (1024, 1023),
        (1025, 2000),
        (1499, 1500),
        (1500, 1500),
    ] {
        let cut = groups_are_cut(rt.alloc(), values.as_slice(), ids, extents)?;
        assert!(rt; cut, "{ids} ids and {extents} extents");
        let refined = refined_are_cut(rt.alloc(), values.as_slice(), ids, extents)?;
        assert!(rt; refined, "{ids} ids and {extents} extents within groups");
    }
    Ok(())
}
