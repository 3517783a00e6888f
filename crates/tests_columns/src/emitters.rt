//! One list that generic code pushes into an emitter that keeps it and into one that does not.

use crate::counters::Counter;
use crate::generic::{blocks_of, push_all, push_squares};
use block_core::Format;
use column_core::{Builder, Cursor};
use std::alloc::{AllocError, Global};
use std::process::Abort;
use std::test::Fail;

// The values that a builder takes, one by one.
fn built_squares(alloc: Global, below: u16) -> Result<Vec<u64>, AllocError> {
    let mut builder = Builder::new(alloc, Format::Dynamic, 0)?;
    push_squares(&mut builder, u64::from(below))?;
    let column = builder.finish()?;
    blocks_of(alloc, &mut Cursor::<8>::new(&column))
}

// How many values a counter takes, one by one, and their sum.
fn counted_squares(below: u16) -> Result<(u64, u64), AllocError> {
    let mut counter = Counter::new();
    push_squares(&mut counter, u64::from(below))?;
    Ok((counter.count(), counter.total()))
}

// The squares of the numbers below n have the sum (n - 1) * n * (2 * n - 1) / 6.
#[test]
fn a_builder_keeps_the_list_that_a_counter_counts(rt: HostRuntime) -> Result<(), Fail> {
    for (below, total) in [
        (0, 0),
        (1, 0),
        (3, 5),
        (1024, 357_389_824),
        (2049, 2_865_409_024),
    ] {
        let mut squares = Vec::new(rt.alloc());
        for number in 0..u64::from(below) {
            squares.push(number * number)?;
        }
        let built = built_squares(rt.alloc(), below)?;
        assert!(rt; built == squares, "a builder of {below} squares");
        let counted = counted_squares(below)?;
        assert!(rt;
            counted == (u64::from(below), total),
            "a counter of {below} squares"
        );
    }
    Ok(())
}

// A counter has no `extend` of its own.
#[test]
fn a_counter_takes_a_slice_by_the_pushes_of_the_trait(rt: HostRuntime) -> Result<(), Fail> {
    let mut counter = Counter::new();
    push_all(&mut counter, &[u64::MAX, 2, 5])?;
    let counted = (counter.count(), counter.total());
    assert!(rt; counted == (3, 6), "three values, and their sum mod 2^64");
    Ok(())
}
