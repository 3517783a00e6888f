//! Sums and sums of products.

ghost use Rattle.std.specs.Prelude.{◌≡◌, ◌<◌, ◌≤◌, All, length, IfOk};
ghost use Rattle.definitions_blocks.specs.Columns.{max_rows};

use crate::checks::are_below;
use crate::columns::{COUNTS, SHAPES, column_of, next_of};
use crate::kept::Kept;
use block_core::{Format, MAX_ROWS, Steps};
use column_core::{Builder, Column, Cursor};
use shapes::Shape;
use std::alloc::{AllocError, Global};
use std::process::Abort;
use std::test::Fail;
use sum_ops::{
    Sums, sum_all, sum_by, sum_plain, sum_product_all, sum_product_by, sum_product_plain,
};

/// Whether the sum of a column is the plain one.
fn sums_all<const L: usize>(
    alloc: Global,
    values: &[u64],
    format: Format,
) -> Result<bool, AllocError> {
    let column = column_of(alloc, values, format)?;
    let mut plain = Sums::new(alloc, 1)?;
    sum_plain(values, None, &mut plain);
    let mut sums = Sums::new(alloc, 1)?;
    let mut cursor = Cursor::<L>::new(&column);
    let mut steps = Steps::start(alloc);
    sum_all::<L, _, _>(&mut cursor, &mut sums, &mut steps);
    Ok(sums.value(0) == plain.value(0))
}

/// Whether the sum of the products of two columns is the plain one.
fn sums_products(
    alloc: Global,
    first: &[u64],
    second: &[u64],
    format: Format,
) -> Result<bool, AllocError> {
    if first.len() != second.len() {
        return Ok(false);
    }
    let first_column = column_of(alloc, first, format)?;
    let second_column = column_of(alloc, second, next_of(format))?;
    let mut plain = Sums::new(alloc, 1)?;
    sum_product_plain(first, second, None, &mut plain);
    let mut sums = Sums::new(alloc, 1)?;
    let mut left = Cursor::<8>::new(&first_column);
    let mut right = Cursor::<8>::new(&second_column);
    let mut steps = Steps::start(alloc);
    sum_product_all(&mut left, &mut right, &mut sums, &mut steps);
    Ok(sums.value(0) == plain.value(0))
}

/// The first group whose sum is too wide, if there is one.
fn first_wide(sums: &Sums) -> Option<u64> {
    match sums.check() {
        Ok(()) => None,
        Err(wide) => Some(wide.group),
    }
}

/// The sums of the groups below a number.
fn values_of(alloc: Global, sums: &Sums, groups: u64) -> Result<Vec<Option<u64>>, AllocError>
    requires { groups ≤ length sums.now }
{
    let mut values = Vec::new(alloc);
    for group in 0..groups {
        values.push(sums.value(group))?;
    }
    Ok(values)
}

/// Whether sums are emitted as these, and as their column in a format. Sums of which one is too wide are not emitted.
fn emits(
    alloc: Global,
    sums: &Sums,
    values: &[Option<u64>],
    into: Format,
) -> Result<bool, AllocError> {
    if sums.check().is_err() {
        return Ok(true);
    }
    let mut kept = Kept::new(alloc, usize::MAX);
    sums.emit(&mut kept)?;
    let mut told = Vec::new(alloc);
    for value in kept.values() {
        told.push(Some(*value))?;
    }
    let wanted = column_of(alloc, kept.values(), into)?;
    let mut builder = Builder::new(alloc, into, wanted.static_width())?;
    sums.emit(&mut builder)?;
    let built = builder.finish()?;
    Ok(told.as_slice() == values && built.encoded() == wanted.encoded())
}

/// Whether both have the same sums, which are emitted in the format.
fn are_same(
    alloc: Global,
    sums: &Sums,
    plain: &Sums,
    groups: u64,
    into: Format,
) -> Result<bool, AllocError>
    requires sums { groups ≤ length sums.now }
    requires plain { groups ≤ length plain.now }
{
    let values = values_of(alloc, plain, groups)?;
    let found = values_of(alloc, sums, groups)?;
    let emitted = emits(alloc, sums, values.as_slice(), into)?;
    Ok(found == values && first_wide(sums) == first_wide(plain) && emitted)
}

/// So many sums of nothing.
fn zeros(alloc: Global, groups: u64) -> Result<Sums, AllocError>
    requires { groups ≤ max_rows }
    ensures { IfOk result (λ sums. length sums ≡ groups) }
{
    let sums = Sums::new(alloc, groups)?;
    Ok(sums)
}

/// The sums of a column by groups, in the plain form.
#[tactic(auto, using(crate::proofs::CellCounts::count_after))]
fn plain_sums(alloc: Global, values: &[u64], ids: &[u64], groups: u64) -> Result<Sums, AllocError>
    requires few { groups ≤ max_rows }
    requires short { length values.now ≤ max_rows }
    requires same { length values.now ≡ length ids.now }
    requires groups { All (λ id. id < groups) ids.now }
    ensures { IfOk result (λ sums. length sums ≡ groups) }
{
    let mut sums = zeros(alloc, groups)?;
    sum_plain(values, Some(ids), &mut sums);
    Ok(sums)
}

/// The sums of a column by groups.
#[tactic(auto, using(crate::proofs::CellCounts::count_after))]
fn fly_sums(alloc: Global, values: &Column, ids: &Column, groups: u64) -> Result<Sums, AllocError>
    requires few { groups ≤ max_rows }
    requires same { length values.now.values ≡ length ids.now.values }
    requires groups { All (λ id. id < groups) ids.now.values }
    ensures { IfOk result (λ sums. length sums ≡ groups) }
{
    let mut sums = zeros(alloc, groups)?;
    let mut cursor = Cursor::<8>::new(values);
    let mut id_cursor = Cursor::<8>::new(ids);
    let mut steps = Steps::start(alloc);
    sum_by(&mut cursor, &mut id_cursor, &mut sums, &mut steps);
    Ok(sums)
}

/// Whether the sums of a column by groups are the plain ones.
fn sums_by(
    alloc: Global,
    values: &[u64],
    ids: &[u64],
    groups: u64,
    format: Format,
) -> Result<bool, AllocError> {
    if values.len() != ids.len() || groups > MAX_ROWS || !are_below(ids, groups) {
        return Ok(false);
    }
    let column = column_of(alloc, values, format)?;
    let id_column = column_of(alloc, ids, next_of(format))?;
    let plain = plain_sums(alloc, values, ids, groups)?;
    let sums = fly_sums(alloc, &column, &id_column, groups)?;
    are_same(alloc, &sums, &plain, groups, next_of(next_of(format)))
}

/// The sums of the products of two columns by groups, in the plain form.
#[tactic(auto, using(crate::proofs::CellCounts::count_after))]
fn plain_products(
    alloc: Global,
    first: &[u64],
    second: &[u64],
    ids: &[u64],
    groups: u64,
) -> Result<Sums, AllocError>
    requires few { groups ≤ max_rows }
    requires short { length first.now ≤ max_rows }
    requires same { length first.now ≡ length ids.now }
    requires second_same { length second.now ≡ length ids.now }
    requires groups { All (λ id. id < groups) ids.now }
    ensures { IfOk result (λ sums. length sums ≡ groups) }
{
    let mut sums = zeros(alloc, groups)?;
    sum_product_plain(first, second, Some(ids), &mut sums);
    Ok(sums)
}

/// The sums of the products of two columns by groups.
#[tactic(auto, using(crate::proofs::CellCounts::count_after))]
fn fly_products(
    alloc: Global,
    first: &Column,
    second: &Column,
    ids: &Column,
    groups: u64,
) -> Result<Sums, AllocError>
    requires few { groups ≤ max_rows }
    requires same { length first.now.values ≡ length ids.now.values }
    requires second_same { length second.now.values ≡ length ids.now.values }
    requires groups { All (λ id. id < groups) ids.now.values }
    ensures { IfOk result (λ sums. length sums ≡ groups) }
{
    let mut sums = zeros(alloc, groups)?;
    let mut left = Cursor::<8>::new(first);
    let mut right = Cursor::<8>::new(second);
    let mut id_cursor = Cursor::<8>::new(ids);
    let mut steps = Steps::start(alloc);
    sum_product_by(&mut left, &mut right, &mut id_cursor, &mut sums, &mut steps);
    Ok(sums)
}

/// Whether the sums of the products of two columns by groups are the plain ones.
fn sums_products_by(
    alloc: Global,
    first: &[u64],
    second: &[u64],
    ids: &[u64],
    groups: u64,
    format: Format,
) -> Result<bool, AllocError> {
    if first.len() != ids.len() || second.len() != ids.len() {
        return Ok(false);
    }
    if groups > MAX_ROWS || !are_below(ids, groups) {
        return Ok(false);
    }
    let into = next_of(next_of(format));
    let first_column = column_of(alloc, first, format)?;
    let second_column = column_of(alloc, second, into)?;
    let id_column = column_of(alloc, ids, next_of(format))?;
    let plain = plain_products(alloc, first, second, ids, groups)?;
    let sums = fly_products(alloc, &first_column, &second_column, &id_column, groups)?;
    are_same(alloc, &sums, &plain, groups, into)
}

/// The sum of a column, and of its products with another one.
fn expect_totals(
    rt: &impl Abort,
    alloc: Global,
    values: &[u64],
    others: &[u64],
    shape: Shape,
) -> Result<(), AllocError> {
    let count = values.len();
    for format in Format::ALL {
        let same = [
            sums_all::<1>(alloc, values, format)?,
            sums_all::<2>(alloc, values, format)?,
            sums_all::<4>(alloc, values, format)?,
            sums_all::<8>(alloc, values, format)?,
            sums_all::<16>(alloc, values, format)?,
        ];
        assert!(rt;
            same == [true; 5],
            "{count} of {shape:?} in {format:?}: {same:?}"
        );
        let products = sums_products(alloc, values, others, format)?;
        assert!(rt; products, "products of {count} of {shape:?} in {format:?}");
    }
    Ok(())
}

#[test]
fn sums_in_every_format_are_the_plain_ones(rt: HostRuntime) -> Result<(), Fail> {
    for shape in SHAPES {
        for count in COUNTS {
            let values = shape.values(rt.alloc(), count as usize)?;
            let others = Shape::Scattered { bits: 40 }.values(rt.alloc(), count as usize)?;
            expect_totals(&rt, rt.alloc(), values.as_slice(), others.as_slice(), shape)?;
        }
    }
    Ok(())
}

/// The sums of a column by groups, and of its products with the groups' numbers.
fn expect_sums_by(
    rt: &impl Abort,
    alloc: Global,
    values: &[u64],
    groups: u64,
    shape: Shape,
) -> Result<(), AllocError> {
    let count = values.len();
    let turns = Shape::Counting {
        times: 3,
        below: groups,
    };
    let ids = turns.values(alloc, count)?;
    for format in Format::ALL {
        let same = sums_by(alloc, values, ids.as_slice(), groups, format)?;
        assert!(rt; same, "{count} of {shape:?} in {format:?}, {groups} groups");
        let ids = ids.as_slice();
        let products = sums_products_by(alloc, values, ids, ids, groups, format)?;
        assert!(rt;
            products,
            "products of {count} of {shape:?} in {format:?}, {groups} groups"
        );
    }
    Ok(())
}

#[test]
fn sums_by_groups_in_every_format_are_the_plain_ones(rt: HostRuntime) -> Result<(), Fail> {
    for shape in SHAPES {
        for count in COUNTS {
            let values = shape.values(rt.alloc(), count as usize)?;
            for groups in [1, 5, 1025] {
                expect_sums_by(&rt, rt.alloc(), values.as_slice(), groups, shape)?;
            }
        }
    }
    Ok(())
}
