//! Files that are read back.

ghost use Rattle.std.specs.Prelude.{◌≡◌, IfOk};

use crate::files::{column_of, directory_of, file_of, first_file_of, head, read};
use crate::generic::blocks_of;
use block_core::Format;
use column_core::{Column, Cursor, encode_list};
use column_file::ColumnError;
use shapes::Shape;
use std::alloc::{AllocError, Global};
use std::process::Abort;
use std::test::Fail;
use stream_core::List;

// Whether there are as many values, and those after the last whole block are the list's.
fn has_tail(column: &Column, values: &[u64]) -> bool {
    if column.count() != values.len() as u64 {
        return false;
    }
    let (_, tail) = values.as_chunks::<1024>();
    for (place, value) in tail.iter().enumerate() {
        if column.tail_value(place as u64) != *value {
            return false;
        }
    }
    true
}

// The files of these values are a column of the same head, bytes, blocks and values. In version 1 the tail's words are in the
// file, so that a tail of other values would be found there.
fn expect_read_back(
    rt: &impl Abort,
    alloc: Global,
    shape: Shape,
    count: u16,
    format: Format,
) -> Result<(), ColumnError> {
    let values = shape.values(alloc, count as usize)?;
    let column = encode_list(alloc, values.as_slice(), format)?;
    let first_file = first_file_of(alloc, &column)?;
    for (version, bytes) in [(1, first_file.as_slice()), (2, column.encoded())] {
        let found = read(alloc, bytes)?;
        let head = (found.format(), found.count(), found.static_width());
        let blocks = blocks_of(alloc, &mut Cursor::<8>::new(&found))?;
        assert!(rt;
            head == (format, u64::from(count), column.static_width())
                && found.encoded() == column.encoded()
                && blocks == values
                && has_tail(&found, values.as_slice()),
            "{count} values of {shape:?} in {format:?}, version {version}"
        );
    }
    Ok(())
}

#[test]
fn files_of_both_versions_are_accepted_and_give_their_column(rt: HostRuntime) -> Result<(), Fail> {
    for shape in [
        Shape::CYCLING,
        Shape::FALLING_FROM_MOST,
        Shape::Scattered { bits: 13 },
    ] {
        for count in [0, 1, 1023, 1024, 1025, 2049u16] {
            for format in Format::ALL {
                expect_read_back(&rt, rt.alloc(), shape, count, format)?;
            }
        }
    }
    Ok(())
}

// The encodings of the blocks, with the head and the directory before them and the packed values behind them, are the file. Three
// falling values have 64 bits each.
fn expect_parts(rt: &impl Abort, alloc: Global, format: Format) -> Result<(), AllocError> {
    let column = column_of(alloc, Shape::FALLING_FROM_MOST, 2051, format)?;
    let tag = format.tag();
    let first = column.block_bytes(0);
    let mut blocks = Vec::from_slice(alloc, first)?;
    blocks.extend_from_slice(column.block_bytes(1))?;
    let bytes = file_of(
        alloc,
        head(tag, column.static_width(), 64, 2051),
        directory_of(alloc, tag, 2051, first.len())?.as_slice(),
        blocks.as_slice(),
        b"\xff\xf7\xff\xff\xff\xff\xff\xff\xfe\xf7\xff\xff\xff\xff\xff\xff\xfd\xf7\xff\xff\xff\xff\xff\xff",
    )?;
    assert!(rt; bytes.as_slice() == column.encoded(), "{format:?}");
    Ok(())
}

#[test]
fn the_parts_of_a_file_stand_one_behind_the_other(rt: HostRuntime) -> Result<(), Fail> {
    for format in Format::ALL {
        expect_parts(&rt, rt.alloc(), format)?;
    }
    Ok(())
}

// The column whose file is that of a column. Its caller knows that, so that nothing is checked.
fn taken(alloc: Global, column: &Column) -> Result<Column, AllocError>
    ensures { IfOk result (λ taken. taken ≡ column.now) }
{
    let bytes = List::from_vec(Vec::from_slice(alloc, column.encoded())?);
    Ok(Column::of_file(bytes))
}

// The same, by the call that is told where the blocks start.
fn adopted(alloc: Global, column: &Column) -> Result<Column, AllocError>
    ensures { IfOk result (λ taken. taken ≡ column.now) }
{
    let bytes = List::from_vec(Vec::from_slice(alloc, column.encoded())?);
    Ok(Column::adopt(bytes, List::from_vec(Vec::new(alloc))))
}

#[test]
fn a_file_that_is_known_to_be_one_is_taken_as_its_column(rt: HostRuntime) -> Result<(), Fail> {
    for format in Format::ALL {
        let column = column_of(rt.alloc(), Shape::CYCLING, 2049, format)?;
        for again in [taken(rt.alloc(), &column)?, adopted(rt.alloc(), &column)?] {
            let head = (again.format(), again.count(), again.static_width());
            assert!(rt;
                head == (format, 2049, column.static_width())
                    && again.encoded() == column.encoded(),
                "{format:?}"
            );
        }
    }
    Ok(())
}
