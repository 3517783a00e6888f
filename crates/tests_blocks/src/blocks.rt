//! The block, the names and tags of the formats, and the step counter.

use block_core::{Block, Format, Steps};
use std::process::Abort;
use std::test::Fail;

#[test]
fn the_table_of_formats_is_as_written(rt: HostRuntime) -> Result<(), Fail> {
    for (format, tag, name) in [
        (Format::Plain, 0, "plain"),
        (Format::Static, 1, "static"),
        (Format::Dynamic, 2, "dynamic"),
        (Format::Runs, 3, "runs"),
        (Format::Delta1Dynamic, 4, "delta1+dynamic"),
        (Format::Delta16Dynamic, 5, "delta16+dynamic"),
        (Format::ReferenceDynamic, 6, "reference+dynamic"),
        (Format::Delta1Runs, 7, "delta1+runs"),
    ] {
        let told = (format.tag(), format.name()) == (tag, name);
        let found = (Format::from_tag(tag), Format::from_name(name));
        assert!(rt; told && found == (Some(format), Some(format)), "{name}");
    }
    Ok(())
}

#[test]
fn other_tags_and_names_are_no_format(rt: HostRuntime) -> Result<(), Fail> {
    for (tag, name) in [
        (8, ""),
        (9, "Plain"),
        (128, "plain "),
        (254, "delta1"),
        (255, "auto"),
    ] {
        let found = (Format::from_tag(tag), Format::from_name(name));
        assert!(rt; found == (None, None), "{tag} and {name:?}");
    }
    Ok(())
}

#[test]
fn a_block_is_pushed_to_filled_and_written(rt: HostRuntime) {
    let mut block = Block::of(&[7]);
    block.push(8);
    block.append(&[9, 10]);
    block.fill();
    block.as_mut_slice()[1023] = 11;
    let values = block.as_slice();
    assert!(rt;
        values.len() == 1024 && values.starts_with(&[7, 8, 9, 10]) && values[1023] == 11,
        "the values"
    );
    block.clear();
    assert!(rt; block.as_slice().is_empty(), "a block without values");
    let mut steps = Steps::start(rt.alloc());
    steps.tick();
}
