//! Lists that come one value after the other, or in pieces.

use crate::generic::{push_each, push_pieces};
use block_core::Format;
use shapes::Shape;
use size_chooser::{FormatSize, Profile, profile_of};
use std::test::Fail;

/// Lengths around a block, and pieces that end anywhere in one.
const COUNTS: [u16; 5] = [0, 1023, 1024, 1025, 3000];

const PIECES: [u16; 5] = [1, 300, 1023, 1024, 1500];

#[test]
fn a_profile_is_the_same_however_its_list_comes(rt: HostRuntime) -> Result<(), Fail> {
    for shape in Shape::ALL {
        for count in COUNTS {
            let values = shape.values(rt.alloc(), count as usize)?;
            let sizes = profile_of(values.as_slice()).sizes();
            let mut pushed = Profile::new();
            push_each(&mut pushed, values.as_slice())?;
            assert_eq!(rt;
                pushed.sizes(),
                sizes,
                "{count} values of {shape:?}, one by one"
            );
            for piece in PIECES {
                let mut extended = Profile::new();
                push_pieces(&mut extended, values.as_slice(), piece as usize)?;
                assert_eq!(rt;
                    extended.sizes(),
                    sizes,
                    "{count} values of {shape:?} in pieces of {piece}"
                );
            }
        }
    }
    Ok(())
}

#[test]
fn one_size_is_the_same_however_its_list_comes(rt: HostRuntime) -> Result<(), Fail> {
    for shape in Shape::ALL {
        let values = shape.values(rt.alloc(), 3000)?;
        let sizes = profile_of(values.as_slice()).sizes();
        for format in Format::ALL {
            let size = sizes.get(format.tag() as usize).copied();
            let mut pushed = FormatSize::new(format);
            push_each(&mut pushed, values.as_slice())?;
            assert_eq!(rt;
                size,
                Some(pushed.size()),
                "{shape:?} in {format:?}, one by one"
            );
            let mut extended = FormatSize::new(format);
            push_pieces(&mut extended, values.as_slice(), 700)?;
            assert_eq!(rt;
                size,
                Some(extended.size()),
                "{shape:?} in {format:?}, in pieces"
            );
        }
    }
    Ok(())
}
