//! Groups, and groups within earlier ones.

use crate::columns::{COUNTS, SHAPES, column_of, next_of};
use block_core::{Format, Steps};
use column_core::{Builder, Cursor};
use group_ops::{GroupTable, group, group_fly, refine, refine_fly};
use shapes::Shape;
use std::alloc::{AllocError, Global};
use std::process::Abort;
use std::test::Fail;

/// Whether the groups of a column, built in the two next formats, are the columns of the plain ones.
fn groups(alloc: Global, values: &[u64], format: Format) -> Result<bool, AllocError> {
    let (id_format, extent_format) = (next_of(format), next_of(next_of(format)));
    let column = column_of(alloc, values, format)?;
    let (ids, extents) = group(alloc, values)?;
    let ids_wanted = column_of(alloc, ids.as_slice(), id_format)?;
    let extents_wanted = column_of(alloc, extents.as_slice(), extent_format)?;
    let mut id_builder = Builder::new(alloc, id_format, ids_wanted.static_width())?;
    let mut extent_builder = Builder::new(alloc, extent_format, extents_wanted.static_width())?;
    let mut table = GroupTable::new(alloc);
    let mut cursor = Cursor::<8>::new(&column);
    let mut steps = Steps::start(alloc);
    group_fly(
        &mut cursor,
        &mut table,
        &mut id_builder,
        &mut extent_builder,
        &mut steps,
    )?;
    let ids_built = id_builder.finish()?;
    let extents_built = extent_builder.finish()?;
    Ok(
        ids_built.encoded() == ids_wanted.encoded()
            && extents_built.encoded() == extents_wanted.encoded(),
    )
}

/// Whether the groups of a column within earlier ones, built in the two next formats, are the columns of the plain ones.
fn refines(
    alloc: Global,
    before: &[u64],
    values: &[u64],
    format: Format,
) -> Result<bool, AllocError> {
    if before.len() != values.len() {
        return Ok(false);
    }
    let (id_format, extent_format) = (next_of(format), next_of(next_of(format)));
    let earlier = column_of(alloc, before, extent_format)?;
    let column = column_of(alloc, values, format)?;
    let (ids, extents) = refine(alloc, before, values)?;
    let ids_wanted = column_of(alloc, ids.as_slice(), id_format)?;
    let extents_wanted = column_of(alloc, extents.as_slice(), extent_format)?;
    let mut id_builder = Builder::new(alloc, id_format, ids_wanted.static_width())?;
    let mut extent_builder = Builder::new(alloc, extent_format, extents_wanted.static_width())?;
    let mut table = GroupTable::new(alloc);
    let mut earlier_cursor = Cursor::<8>::new(&earlier);
    let mut cursor = Cursor::<8>::new(&column);
    let mut steps = Steps::start(alloc);
    refine_fly(
        &mut earlier_cursor,
        &mut cursor,
        &mut table,
        &mut id_builder,
        &mut extent_builder,
        &mut steps,
    )?;
    let ids_built = id_builder.finish()?;
    let extents_built = extent_builder.finish()?;
    Ok(
        ids_built.encoded() == ids_wanted.encoded()
            && extents_built.encoded() == extents_wanted.encoded(),
    )
}

fn expect_groups(
    rt: &impl Abort,
    alloc: Global,
    values: &[u64],
    shape: Shape,
) -> Result<(), AllocError> {
    let count = values.len();
    for format in Format::ALL {
        let same = groups(alloc, values, format)?;
        assert!(rt; same, "{count} of {shape:?} in {format:?}");
        for earlier in [Shape::CYCLING, Shape::Constant(0), Shape::ALTERNATING] {
            let before = earlier.values(alloc, count)?;
            let refined = refines(alloc, before.as_slice(), values, format)?;
            assert!(rt;
                refined,
                "{count} of {shape:?} within {earlier:?} in {format:?}"
            );
        }
    }
    Ok(())
}

#[test]
fn groups_in_every_format_are_the_plain_ones(rt: HostRuntime) -> Result<(), Fail> {
    for shape in SHAPES {
        for count in COUNTS {
            let values = shape.values(rt.alloc(), count as usize)?;
            expect_groups(&rt, rt.alloc(), values.as_slice(), shape)?;
        }
    }
    Ok(())
}
