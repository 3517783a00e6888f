//! Columns that are read by blocks and by places.

use crate::files::{RISEN, head, read};
use crate::generic::{blocks_of, looked_up, picked};
use block_core::{Block, BlockSource, Format, PlaceSource, Steps};
use column_core::{Column, Cursor, Gather, encode_list};
use shapes::Shape;
use std::alloc::{AllocError, Global};
use std::process::Abort;
use std::test::Fail;

// In which order places are looked up.
#[derive(Clone, Copy, Debug)]
enum Order {
    Rising,
    Falling,
    // One place again and again.
    Repeated(u64),
    // Each this many places behind the one before, and around.
    Striding(u64),
    // Places of the first 1,024 and of the next in turn, so many of each in a row.
    Turning(u64),
    // The first and the last place of each block and of the tail.
    Ends,
}

impl Order {
    // The place at a step over so many values.
    fn place(self, step: u64, count: u64) -> u64 {
        match self {
            Order::Rising => step,
            Order::Falling => count.saturating_sub(step.saturating_add(1)),
            Order::Repeated(place) => place,
            Order::Striding(stride) => step.wrapping_mul(stride) % count.max(1),
            Order::Turning(times) => step / times.max(1) % 2 * 1024 + step % 1024,
            Order::Ends => match step % 6 {
                0 => 0,
                1 => 1023,
                2 => 1024,
                3 => 2047,
                4 => 2048,
                _ => count.saturating_sub(1),
            },
        }
    }

    // The first places of the order, of which some may be behind the last value.
    fn places(self, alloc: Global, steps: u64, count: u64) -> Result<Vec<u64>, AllocError> {
        let mut places = Vec::new(alloc);
        for step in 0..steps {
            places.push(self.place(step, count))?;
        }
        Ok(places)
    }
}

// The shapes of the lists, at lengths with and without a tail.
const LISTS: [(Shape, usize); 8] = [
    (Shape::CYCLING, 1),
    (Shape::CYCLING, 2049),
    (Shape::Constant(u64::MAX), 1024),
    (Shape::Constant(u64::MAX >> 1), 1024),
    (Shape::FALLING, 2048),
    (Shape::Scattered { bits: 13 }, 3071),
    (Shape::Scattered { bits: 64 }, 2050),
    (RISEN, 1025),
];

// Whether the values at the places, of which some may be behind the last value, are those of the list.
fn finds<P: PlaceSource>(
    alloc: Global,
    source: &mut P,
    values: &[u64],
    places: &[u64],
) -> Result<bool, AllocError> {
    let found = looked_up(alloc, source, places)?;
    let expected = picked(alloc, values, places)?;
    Ok(found == expected)
}

// At a lane width the column's blocks are the list, and so are its values at the places, by one look-up over all orders.
fn expect_at<const L: usize>(
    rt: &impl Abort,
    alloc: Global,
    column: &Column,
    values: &[u64],
    shape: Shape,
) -> Result<(), Fail> {
    let (format, count) = (column.format(), column.count());
    let blocks = blocks_of(alloc, &mut Cursor::<L>::new(column))?;
    assert!(rt;
        blocks.as_slice() == values,
        "{shape:?} in {format:?} at {L} lanes"
    );
    let mut gather = Gather::<L>::new(column);
    for (order, steps) in [
        (Order::Ends, 12),
        (Order::Repeated(0), 70),
        (Order::Rising, count),
        (Order::Falling, count),
        (Order::Repeated(1000), 3),
        (Order::Striding(641), 100),
        (Order::Striding(17), 190),
        (Order::Striding(5), 420),
        (Order::Turning(1), 40),
        (Order::Turning(70), 280),
        (Order::Repeated(2048), 3),
    ] {
        let places = order.places(alloc, steps, count)?;
        let same = finds(alloc, &mut gather, values, places.as_slice())?;
        assert!(rt; same, "{shape:?} in {format:?} at {L} lanes, {order:?}");
    }
    Ok(())
}

#[test]
fn blocks_and_places_of_every_format_are_the_list_at_every_lane_width(
    rt: HostRuntime,
) -> Result<(), Fail> {
    for (shape, count) in LISTS {
        let values = shape.values(rt.alloc(), count)?;
        let values = values.as_slice();
        for format in Format::ALL {
            let column = encode_list(rt.alloc(), values, format)?;
            expect_at::<1>(&rt, rt.alloc(), &column, values, shape)?;
            expect_at::<2>(&rt, rt.alloc(), &column, values, shape)?;
            expect_at::<3>(&rt, rt.alloc(), &column, values, shape)?;
            expect_at::<4>(&rt, rt.alloc(), &column, values, shape)?;
            expect_at::<8>(&rt, rt.alloc(), &column, values, shape)?;
            expect_at::<16>(&rt, rt.alloc(), &column, values, shape)?;
        }
    }
    Ok(())
}

// Blocks in no order are those of the 2,050 values.
fn expect_any_order(rt: &impl Abort, alloc: Global, column: &Column, values: &[u64]) {
    let mut cursor = Cursor::<8>::new(column);
    let mut steps = Steps::start(alloc);
    let mut block = Block::new();
    let format = column.format();
    for (number, start, end) in [
        (2, 2048, 2050),
        (1, 1024, 2048),
        (0, 0, 1024),
        (2, 2048, 2050),
    ] {
        assert!(rt; number * 1024 < cursor.count(), "block {number}");
        cursor.block(number, &mut block, &mut steps);
        assert!(rt;
            Some(block.as_slice()) == values.get(start..end),
            "block {number} in {format:?}"
        );
    }
}

#[test]
fn blocks_are_read_in_any_order(rt: HostRuntime) -> Result<(), Fail> {
    let values = Shape::Scattered { bits: 16 }.values(rt.alloc(), 2050)?;
    for format in Format::ALL {
        let column = encode_list(rt.alloc(), values.as_slice(), format)?;
        expect_any_order(&rt, rt.alloc(), &column, values.as_slice());
    }
    Ok(())
}

// A look-up that begins anew with each order, so that the first places meet no block that is held. In the formats that give
// single values a block is opened once many were looked up in it with no other block between, after 64 at the latest.
#[test]
fn values_stay_the_same_when_their_block_is_opened(rt: HostRuntime) -> Result<(), Fail> {
    let values = Shape::Scattered { bits: 16 }.values(rt.alloc(), 2050)?;
    for format in Format::ALL {
        let column = encode_list(rt.alloc(), values.as_slice(), format)?;
        for (order, steps) in [
            (Order::Rising, 66),
            (Order::Falling, 70),
            (Order::Repeated(7), 66),
            (Order::Repeated(1023), 70),
            (Order::Striding(17), 121),
            (Order::Striding(5), 410),
            (Order::Turning(64), 192),
            (Order::Turning(65), 195),
            (Order::Ends, 6),
        ] {
            let places = order.places(rt.alloc(), steps, 2050)?;
            let mut gather = Gather::<8>::new(&column);
            let same = finds(
                rt.alloc(),
                &mut gather,
                values.as_slice(),
                places.as_slice(),
            )?;
            assert!(rt; same, "{format:?}, {order:?}");
        }
    }
    Ok(())
}

#[test]
fn the_longest_column_of_zeros_is_sixteen_bytes(rt: HostRuntime) -> Result<(), Fail> {
    let column = read(rt.alloc(), &head(1, 0, 0, 268_435_456))?;
    let head = (column.format(), column.count(), column.static_width());
    assert!(rt; head == (Format::Static, 268_435_456, 0), "the head");
    let lengths = (column.encoded().len(), column.block_bytes(262_143).len());
    assert!(rt;
        lengths == (16, 0),
        "the lengths of the file and of the last block"
    );
    let places = [0, 1023, 1024, 134_217_728, 268_435_455, 0];
    let found = looked_up(rt.alloc(), &mut Gather::<8>::new(&column), &places)?;
    assert!(rt; found.as_slice() == [0; 6].as_slice(), "the values");
    Ok(())
}
