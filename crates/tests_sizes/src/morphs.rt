//! Morphs between all formats.

ghost use Rattle.std.specs.Prelude.{◌≤◌, length};
ghost use Rattle.definitions_blocks.specs.Columns.{max_rows};

use block_core::Format;
use column_core::{Column, encode_list};
use morph_core::morph;
use shapes::Shape;
use std::alloc::{AllocError, Global};
use std::test::Fail;

/// Whether the column's morphs into all formats are the files of its list.
fn morphs_to_all<const L: usize>(
    alloc: Global,
    column: &Column,
    values: &[u64],
) -> Result<bool, AllocError>
    requires { length values.now ≤ max_rows }
{
    for format in Format::ALL {
        let wanted = encode_list(alloc, values, format)?;
        let morphed = morph::<L>(alloc, column, format)?;
        if morphed.encoded() != wanted.encoded() {
            return Ok(false);
        }
    }
    Ok(true)
}

#[test]
fn a_morph_is_the_file_of_the_list(rt: HostRuntime) -> Result<(), Fail> {
    for shape in Shape::ALL {
        let values = shape.values(rt.alloc(), 2100)?;
        for format in Format::ALL {
            let column = encode_list(rt.alloc(), values.as_slice(), format)?;
            let morphed = morphs_to_all::<8>(rt.alloc(), &column, values.as_slice())?;
            assert!(rt; morphed, "{shape:?} from {format:?}");
        }
    }
    Ok(())
}

#[test]
fn the_lane_width_changes_no_morph(rt: HostRuntime) -> Result<(), Fail> {
    let values = Shape::ALL[0].values(rt.alloc(), 1025)?;
    let column = encode_list(rt.alloc(), values.as_slice(), Format::Delta16Dynamic)?;
    assert!(rt;
        morphs_to_all::<1>(rt.alloc(), &column, values.as_slice())?,
        "one lane"
    );
    assert!(rt;
        morphs_to_all::<2>(rt.alloc(), &column, values.as_slice())?,
        "2 lanes"
    );
    assert!(rt;
        morphs_to_all::<3>(rt.alloc(), &column, values.as_slice())?,
        "3 lanes"
    );
    assert!(rt;
        morphs_to_all::<4>(rt.alloc(), &column, values.as_slice())?,
        "4 lanes"
    );
    assert!(rt;
        morphs_to_all::<16>(rt.alloc(), &column, values.as_slice())?,
        "16 lanes"
    );
    Ok(())
}
