//! Selections and projections.

ghost use Rattle.std.specs.Prelude.{◌≡◌};

use crate::checks::are_below;
use crate::columns::{COUNTS, SHAPES, column_of, next_of};
use block_core::{Format, Steps};
use column_core::{Builder, Column, Cursor, Gather};
use scan_ops::{project, project_fly, select, select_fly};
use shapes::Shape;
use std::alloc::{AllocError, Global};
use std::process::Abort;
use std::test::Fail;

/// One value, all values, none, and parts of lists that rise and fall.
const RANGES: [(u64, u64); 5] = [
    (5, 5),
    (0, u64::MAX),
    (7, 3),
    (100, 1024),
    (u64::MAX - 1500, u64::MAX - 7),
];

/// Whether a selection over a column that is built in a format is the column of the plain one.
fn selects<const L: usize>(
    alloc: Global,
    column: &Column,
    values: &[u64],
    low: u64,
    high: u64,
    into: Format,
) -> Result<bool, AllocError>
    requires { column.now.values ≡ values.now }
{
    let plain = select::<L>(alloc, values, low, high)?;
    let wanted = column_of(alloc, plain.as_slice(), into)?;
    let mut builder = Builder::new(alloc, into, wanted.static_width())?;
    let mut cursor = Cursor::<L>::new(column);
    let mut steps = Steps::start(alloc);
    select_fly::<L, _, _, _>(&mut cursor, low, high, &mut builder, &mut steps)?;
    let built = builder.finish()?;
    Ok(built.encoded() == wanted.encoded())
}

fn expect_selections(
    rt: &impl Abort,
    alloc: Global,
    values: &[u64],
    shape: Shape,
) -> Result<(), AllocError> {
    for format in Format::ALL {
        let column = column_of(alloc, values, format)?;
        for (low, high) in RANGES {
            let same = selects::<8>(alloc, &column, values, low, high, next_of(format))?;
            assert!(rt;
                same,
                "{} values of {shape:?} in {format:?}, from {low} to {high}",
                values.len()
            );
        }
    }
    Ok(())
}

#[test]
fn a_selection_in_every_format_is_the_plain_one(rt: HostRuntime) -> Result<(), Fail> {
    for shape in SHAPES {
        for count in COUNTS {
            let values = shape.values(rt.alloc(), count as usize)?;
            expect_selections(&rt, rt.alloc(), values.as_slice(), shape)?;
        }
    }
    Ok(())
}

/// Whether the selection of 5 to 40 is the plain one at each lane width.
fn selects_at_every_width(
    alloc: Global,
    column: &Column,
    values: &[u64],
) -> Result<[bool; 5], AllocError>
    requires { column.now.values ≡ values.now }
{
    Ok([
        selects::<1>(alloc, column, values, 5, 40, Format::Plain)?,
        selects::<2>(alloc, column, values, 5, 40, Format::Static)?,
        selects::<4>(alloc, column, values, 5, 40, Format::Dynamic)?,
        selects::<8>(alloc, column, values, 5, 40, Format::Runs)?,
        selects::<16>(alloc, column, values, 5, 40, Format::Delta1Runs)?,
    ])
}

#[test]
fn the_lane_width_changes_no_selection(rt: HostRuntime) -> Result<(), Fail> {
    let values = Shape::Scattered { bits: 6 }.values(rt.alloc(), 2500)?;
    for format in Format::ALL {
        let column = column_of(rt.alloc(), values.as_slice(), format)?;
        let same = selects_at_every_width(rt.alloc(), &column, values.as_slice())?;
        assert!(rt; same == [true; 5], "{format:?}: {same:?}");
    }
    Ok(())
}

/// Places of so many values, each a stride behind the one before, and around.
fn places_of(alloc: Global, count: usize, stride: u64) -> Result<Vec<u64>, AllocError> {
    let mut places = Vec::new(alloc);
    for step in 0..count as u64 {
        places.push(step.wrapping_mul(stride) % (count as u64).max(1))?;
    }
    Ok(places)
}

/// Whether a projection from a column at places in a format, built in another one, is the column of the plain one.
fn projects(
    alloc: Global,
    column: &Column,
    values: &[u64],
    places: &[u64],
    format: Format,
) -> Result<bool, AllocError>
    requires { column.now.values ≡ values.now }
{
    if !are_below(places, values.len() as u64) {
        return Ok(false);
    }
    let into = next_of(format);
    let listed = column_of(alloc, places, format)?;
    let plain = project(alloc, values, places)?;
    let wanted = column_of(alloc, plain.as_slice(), into)?;
    let mut builder = Builder::new(alloc, into, wanted.static_width())?;
    let mut gather = Gather::<8>::new(column);
    let mut cursor = Cursor::<8>::new(&listed);
    let mut steps = Steps::start(alloc);
    project_fly(&mut gather, &mut cursor, &mut builder, &mut steps)?;
    let built = builder.finish()?;
    Ok(built.encoded() == wanted.encoded())
}

/// The places rise, fall, stay, and jump.
fn expect_projections(
    rt: &impl Abort,
    alloc: Global,
    values: &[u64],
    shape: Shape,
) -> Result<(), AllocError> {
    for format in Format::ALL {
        let column = column_of(alloc, values, format)?;
        for stride in [1, u64::MAX, 0, 641] {
            let places = places_of(alloc, values.len(), stride)?;
            let same = projects(alloc, &column, values, places.as_slice(), next_of(format))?;
            assert!(rt;
                same,
                "{} values of {shape:?} in {format:?}, by {stride}",
                values.len()
            );
        }
    }
    Ok(())
}

#[test]
fn a_projection_in_every_format_is_the_plain_one(rt: HostRuntime) -> Result<(), Fail> {
    for shape in SHAPES {
        for count in COUNTS {
            let values = shape.values(rt.alloc(), count as usize)?;
            expect_projections(&rt, rt.alloc(), values.as_slice(), shape)?;
        }
    }
    Ok(())
}
