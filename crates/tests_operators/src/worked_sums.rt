//! Sums and sums of products that were worked by hand.

use crate::checks::are_below;
use crate::columns::column_of;
use crate::kept::Kept;
use block_core::{Format, Steps};
use column_core::Cursor;
use shapes::Shape;
use std::alloc::{AllocError, Global};
use std::test::Fail;
use sum_ops::{Sums, sum_all, sum_by, sum_product_all, sum_product_by};

const MOST: u64 = u64::MAX;

/// The sum of a column.
fn total(alloc: Global, values: &[u64]) -> Result<Option<u64>, AllocError> {
    let column = column_of(alloc, values, Format::Dynamic)?;
    let mut sums = Sums::new(alloc, 1)?;
    let mut cursor = Cursor::<8>::new(&column);
    let mut steps = Steps::start(alloc);
    sum_all::<8, _, _>(&mut cursor, &mut sums, &mut steps);
    Ok(sums.value(0))
}

#[test]
fn a_sum_is_none_from_2_to_the_64_on(rt: HostRuntime) -> Result<(), Fail> {
    let cases: [(&[u64], Option<u64>); 7] = [
        (&[], Some(0)),
        (&[5], Some(5)),
        (&[MOST - 7, 7], Some(MOST)),
        (&[MOST], Some(MOST)),
        (&[MOST, 1], None),
        (&[1 << 63, 1 << 63], None),
        (&[MOST, MOST, MOST], None),
    ];
    for (values, want) in cases {
        let found = total(rt.alloc(), values)?;
        assert_eq!(rt; found, want, "{values:?}");
    }
    Ok(())
}

/// 1,025 times 2^64 - 1 is far above 2^64, and 1,025 times 2^53 is 9,232,379,236,109,516,800.
#[test]
fn a_sum_of_more_than_a_block_is_worked_by_hand(rt: HostRuntime) -> Result<(), Fail> {
    for (value, want) in [
        (MOST, None),
        (1 << 53, Some(9_232_379_236_109_516_800)),
        (0, Some(0)),
    ] {
        let values = Shape::Constant(value).values(rt.alloc(), 1025)?;
        let found = total(rt.alloc(), values.as_slice())?;
        assert_eq!(rt; found, want, "{value}");
    }
    Ok(())
}

/// The sum of the products of two columns of one length.
fn total_of_products(
    alloc: Global,
    first: &[u64],
    second: &[u64],
) -> Result<Option<u64>, AllocError> {
    if first.len() != second.len() {
        return Err(AllocError);
    }
    let first_column = column_of(alloc, first, Format::Plain)?;
    let second_column = column_of(alloc, second, Format::Runs)?;
    let mut sums = Sums::new(alloc, 1)?;
    let mut left = Cursor::<8>::new(&first_column);
    let mut right = Cursor::<8>::new(&second_column);
    let mut steps = Steps::start(alloc);
    sum_product_all(&mut left, &mut right, &mut sums, &mut steps);
    Ok(sums.value(0))
}

/// 2^32 times 2^32 - 1 is 2^64 - 2^32, and 2^64 - 1 is 3 times 6,148,914,691,236,517,205.
#[test]
fn a_sum_of_products_is_none_from_2_to_the_64_on(rt: HostRuntime) -> Result<(), Fail> {
    let cases: [(&[u64], &[u64], Option<u64>); 9] = [
        (&[], &[], Some(0)),
        (&[1 << 32], &[(1 << 32) - 1], Some(MOST - (1 << 32) + 1)),
        (&[1 << 32, 1], &[(1 << 32) - 1, (1 << 32) - 1], Some(MOST)),
        (&[1 << 32, 1], &[(1 << 32) - 1, 1 << 32], None),
        (&[3], &[6_148_914_691_236_517_205], Some(MOST)),
        (&[1 << 63], &[2], None),
        (&[MOST], &[MOST], None),
        (&[MOST, MOST, 1], &[MOST, MOST, 1], None),
        (&[MOST, 0, 1], &[0, MOST, 1], Some(1)),
    ];
    for (first, second, want) in cases {
        let found = total_of_products(rt.alloc(), first, second)?;
        assert_eq!(rt; found, want, "{first:?} and {second:?}");
    }
    Ok(())
}

/// 3,000 products of nearly 2^128, which is more than 128 bits hold.
#[test]
fn products_that_no_128_bits_hold_are_too_wide(rt: HostRuntime) -> Result<(), Fail> {
    let values = Shape::Constant(MOST).values(rt.alloc(), 3000)?;
    let found = total_of_products(rt.alloc(), values.as_slice(), values.as_slice())?;
    assert_eq!(rt; found, None);
    Ok(())
}

/// The sums of the products of two columns by ids below 3: the first too wide one, and each.
fn by_groups(
    alloc: Global,
    first: &[u64],
    second: &[u64],
    ids: &[u64],
) -> Result<(Option<u64>, [Option<u64>; 3]), AllocError> {
    if first.len() != ids.len() || second.len() != ids.len() || !are_below(ids, 3) {
        return Err(AllocError);
    }
    let first_column = column_of(alloc, first, Format::Static)?;
    let second_column = column_of(alloc, second, Format::Delta1Dynamic)?;
    let id_column = column_of(alloc, ids, Format::ReferenceDynamic)?;
    let mut sums = Sums::new(alloc, 3)?;
    let mut left = Cursor::<8>::new(&first_column);
    let mut right = Cursor::<8>::new(&second_column);
    let mut groups = Cursor::<8>::new(&id_column);
    let mut steps = Steps::start(alloc);
    sum_product_by(&mut left, &mut right, &mut groups, &mut sums, &mut steps);
    let wide = match sums.check() {
        Ok(()) => None,
        Err(wide) => Some(wide.group),
    };
    Ok((wide, [sums.value(0), sums.value(1), sums.value(2)]))
}

#[test]
fn each_product_goes_to_its_group(rt: HostRuntime) -> Result<(), Fail> {
    let some = by_groups(rt.alloc(), &[5, 6, 7, 8], &[2, 3, 4, 5], &[0, 2, 0, 2])?;
    let (wide, sums) = some;
    assert_eq!(rt; wide, None, "38, 0 and 58");
    assert_eq!(rt; sums, [Some(38), Some(0), Some(58)], "38, 0 and 58");
    let none = by_groups(rt.alloc(), &[], &[], &[])?;
    let (wide, sums) = none;
    assert_eq!(rt; wide, None, "no rows");
    assert_eq!(rt; sums, [Some(0); 3], "no rows");
    let last = by_groups(rt.alloc(), &[MOST, 1, 1 << 63], &[1, 7, 2], &[0, 1, 2])?;
    let (wide, sums) = last;
    assert_eq!(rt; wide, Some(2), "the last is too wide");
    assert_eq!(rt; sums, [Some(MOST), Some(7), None], "the last is too wide");
    let first = by_groups(rt.alloc(), &[1 << 63, 1 << 63], &[2, 2], &[0, 2])?;
    let (wide, sums) = first;
    assert_eq!(rt; wide, Some(0), "the first of two");
    assert_eq!(rt; sums, [None, Some(0), None], "the first of two");
    Ok(())
}

/// One group, of the one row 2^63 times 2.
#[test]
fn one_row_of_2_to_the_64_is_too_wide(rt: HostRuntime) -> Result<(), Fail> {
    let first = column_of(rt.alloc(), &[1 << 63], Format::Plain)?;
    let second = column_of(rt.alloc(), &[2], Format::Plain)?;
    let ids = column_of(rt.alloc(), &[0], Format::Plain)?;
    let mut sums = Sums::new(rt.alloc(), 1)?;
    let mut steps = Steps::start(rt.alloc());
    sum_product_by(
        &mut Cursor::<8>::new(&first),
        &mut Cursor::<8>::new(&second),
        &mut Cursor::<8>::new(&ids),
        &mut sums,
        &mut steps,
    );
    assert_eq!(rt; sums.value(0), None);
    match sums.check() {
        Ok(()) => panic!(rt; "2^64 is not too wide"),
        Err(wide) => assert_eq!(rt; wide.group, 0),
    }
    Ok(())
}

/// The sums of 5, 2^64 - 1, 6 and 0 in the groups 0, 2, 0 and 2 of three.
#[test]
fn narrow_sums_are_emitted_in_order(rt: HostRuntime) -> Result<(), Fail> {
    let values = column_of(rt.alloc(), &[5, MOST, 6, 0], Format::Dynamic)?;
    let ids = column_of(rt.alloc(), &[0, 2, 0, 2], Format::Runs)?;
    let mut sums = Sums::new(rt.alloc(), 3)?;
    let mut steps = Steps::start(rt.alloc());
    sum_by(
        &mut Cursor::<8>::new(&values),
        &mut Cursor::<8>::new(&ids),
        &mut sums,
        &mut steps,
    );
    let mut kept = Kept::new(rt.alloc(), 3);
    match sums.check() {
        Ok(()) => sums.emit(&mut kept)?,
        Err(_) => panic!(rt; "2^64 - 1 is too wide"),
    }
    assert_eq!(rt; kept.values(), [11, 0, MOST].as_slice());
    Ok(())
}
