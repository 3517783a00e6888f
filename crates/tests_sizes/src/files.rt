//! Sizes beside the files that are made.

ghost use Rattle.std.specs.Prelude.{◌≡◌, ◌≤◌, length, IsOk, IfOk};
ghost use Rattle.definitions_blocks.specs.Columns.{max_rows};
ghost use Rattle.column_core.specs.Columns.{shape};
ghost use Rattle.size_chooser.specs.Reserved.{IsReservedFor};

use block_core::{Emit, Format};
use column_core::{Builder, Column, encode_list};
use shapes::Shape;
use size_chooser::{FormatSize, profile_of, reserved_builder, reserved_builder_of};
use std::alloc::{AllocError, Global};
use std::test::Fail;

/// Lengths around a block.
const COUNTS: [u16; 5] = [0, 1, 1023, 1024, 2100];

/// The column of the values, for which the builder has room. So it needs no memory, and does not fail.
fn filled(builder: Builder, values: &[u64]) -> Result<Column, AllocError>
    requires few { length values.now ≤ max_rows }
    requires room { IsReservedFor builder values.now }
    ensures sure { IsOk result }
    ensures column { IfOk result (λ column. column ≡ shape builder.format values.now) }
{
    let mut builder = builder;
    builder.extend(values)?;
    builder.finish()
}

/// The column of the values by a builder that is reserved by their profile.
fn by_profile(alloc: Global, values: &[u64], format: Format) -> Result<Column, AllocError>
    requires { length values.now ≤ max_rows }
{
    let builder = reserved_builder(alloc, format, &profile_of(values))?;
    filled(builder, values)
}

/// The column of the values by a builder that is reserved by their size in the one format.
fn by_size(alloc: Global, values: &[u64], format: Format) -> Result<Column, AllocError>
    requires { length values.now ≤ max_rows }
{
    let mut size = FormatSize::new(format);
    size.extend(values)?;
    let builder = reserved_builder_of(alloc, &size)?;
    filled(builder, values)
}

#[test]
fn a_file_is_as_long_as_its_size(rt: HostRuntime) -> Result<(), Fail> {
    for shape in Shape::ALL {
        for count in COUNTS {
            let values = shape.values(rt.alloc(), count as usize)?;
            let sizes = profile_of(values.as_slice()).sizes();
            for format in Format::ALL {
                let column = encode_list(rt.alloc(), values.as_slice(), format)?;
                let length = column.encoded().len() as u64;
                let size = sizes.get(format.tag() as usize).copied();
                assert_eq!(rt;
                    size,
                    Some(length),
                    "{count} values of {shape:?} in {format:?}"
                );
            }
        }
    }
    Ok(())
}

#[test]
fn a_reserved_builder_takes_the_list_and_gives_its_file(rt: HostRuntime) -> Result<(), Fail> {
    for shape in Shape::ALL {
        let values = shape.values(rt.alloc(), 2100)?;
        for format in Format::ALL {
            let wanted = encode_list(rt.alloc(), values.as_slice(), format)?;
            let column = by_profile(rt.alloc(), values.as_slice(), format)?;
            assert!(rt;
                column.encoded() == wanted.encoded(),
                "{shape:?} in {format:?}"
            );
            let column = by_size(rt.alloc(), values.as_slice(), format)?;
            assert!(rt;
                column.encoded() == wanted.encoded(),
                "{shape:?} in {format:?} alone"
            );
        }
    }
    Ok(())
}
