//! Columns that are built a value at a time.

ghost use Rattle.std.specs.Prelude.{◌≡◌, ◌≤◌, length, IfOk};
ghost use Rattle.definitions_blocks.specs.Columns.{max_rows};

use crate::files::RISEN;
use crate::generic::push_all;
use block_core::Format;
use column_core::{Builder, Column, encode_list};
use shapes::Shape;
use std::alloc::{AllocError, Global};
use std::process::Abort;
use std::test::Fail;

// The column of the same list, format and width, whose values are pushed one by one through the bound of an emitter.
fn built(alloc: Global, column: &Column, values: &[u64]) -> Result<Column, AllocError>
    requires same { column.now.values ≡ values.now }
    requires few { length values.now ≤ max_rows }
    ensures { IfOk result (λ built. built ≡ column.now) }
{
    let mut builder = Builder::new(alloc, column.format(), column.static_width())?;
    push_all(&mut builder, values)?;
    builder.finish()
}

// The values are pushed into a builder of this format.
fn expect_built(
    rt: &impl Abort,
    alloc: Global,
    values: &[u64],
    format: Format,
) -> Result<(), AllocError>
    requires few { length values.now ≤ max_rows }
{
    let column = encode_list(alloc, values, format)?;
    let built = built(alloc, &column, values)?;
    assert!(rt;
        built.encoded() == column.encoded(),
        "{} values in {format:?}",
        values.len()
    );
    Ok(())
}

fn expect_built_in_every_format(
    rt: &impl Abort,
    alloc: Global,
    shape: Shape,
    count: u16,
) -> Result<(), AllocError> {
    let values = shape.values(alloc, count as usize)?;
    for format in Format::ALL {
        expect_built(rt, alloc, values.as_slice(), format)?;
    }
    Ok(())
}

#[test]
fn values_pushed_one_by_one_give_the_file_of_the_list(rt: HostRuntime) -> Result<(), Fail> {
    for shape in [Shape::CYCLING, Shape::FALLING_FROM_MOST, RISEN] {
        for count in [0, 1, 1023, 1024, 1025, 2049u16] {
            expect_built_in_every_format(&rt, rt.alloc(), shape, count)?;
        }
    }
    Ok(())
}

// A builder that takes memory for these values ahead, in two steps, refuses none of them, and its column is that of the list. Less
// than what is reserved changes nothing.
fn expect_room(
    rt: &impl Abort,
    alloc: Global,
    values: &[u64],
    format: Format,
) -> Result<(), AllocError>
    requires few { length values.now ≤ max_rows }
{
    let column = encode_list(alloc, values, format)?;
    let bytes = column.encoded().len() as u64;
    let mut builder = Builder::new(alloc, format, column.static_width())?;
    builder.reserve(bytes / 2, column.count())?;
    builder.reserve(bytes, column.count() / 2)?;
    let pushed = push_all(&mut builder, values);
    assert!(rt; pushed.is_ok(), "{} values in {format:?}", values.len());
    let Ok(built) = builder.finish() else {
        panic!(rt; "the end of {} values in {format:?}", values.len());
    };
    assert!(rt;
        built.encoded() == column.encoded(),
        "{} values in {format:?}",
        values.len()
    );
    Ok(())
}

#[test]
fn a_builder_with_room_for_its_file_refuses_nothing(rt: HostRuntime) -> Result<(), Fail> {
    for (shape, count) in [
        (RISEN, 1025),
        (Shape::FALLING, 2048),
        (Shape::Scattered { bits: 13 }, 3071),
    ] {
        let values = shape.values(rt.alloc(), count)?;
        for format in Format::ALL {
            expect_room(&rt, rt.alloc(), values.as_slice(), format)?;
        }
    }
    Ok(())
}
