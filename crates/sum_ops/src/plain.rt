//! Sums of columns that lie in slices.

ghost use Rattle.std.specs.Prelude.{◌≡◌, ◌<◌, ◌≤◌, ◌+◌, [], ◌∷◌, length, sum, slice_index, All, MatchOption};
ghost use Rattle.definitions_blocks.specs.Columns.{max_rows};
ghost use Rattle.definitions_operators.specs.Groups.{products_of};
ghost use Rattle.sum_ops.specs.Cells.{cell_of, cells_after};

use crate::Sums;
use crate::blocks::{block_product, block_sum};
use crate::by_groups::{add_products, add_rows};
use block_core::BLOCK_LEN;

/// Adds each value to its group's cell or, without ids, all of them to the one cell.
pub fn sum_plain(values: &[u64], ids: Option<&[u64]>, sums: &mut Sums)
    requires few { length values.now ≤ max_rows }
    requires cells { MatchOption ids (length sums.old ≡ 1) (λ ids. (length values.now ≡ length ids.now) × All (λ id. id < length sums.old) ids.now) }
    ensures sums { MatchOption ids.entry (sums.new ≡ cell_of (slice_index sums.old 0 + sum values.now) ∷ [])
        (λ ids. sums.new ≡ cells_after sums.old values.now ids.now) }
{
    match ids {
        Some(ids) => add_rows(sums, values, ids),
        None => add_values(sums, values),
    }
}

/// Adds the product of each row to its group's cell or, without ids, all of them to the one cell.
pub fn sum_product_plain(first: &[u64], second: &[u64], ids: Option<&[u64]>, sums: &mut Sums)
    requires few { length first.now ≤ max_rows }
    requires same { length first.now ≡ length second.now }
    requires cells { MatchOption ids (length sums.old ≡ 1) (λ ids. (length first.now ≡ length ids.now) × All (λ id. id < length sums.old) ids.now) }
    ensures sums { MatchOption ids.entry (sums.new ≡ cell_of (slice_index sums.old 0 + sum (products_of first.now second.now)) ∷ [])
        (λ ids. sums.new ≡ cells_after sums.old (products_of first.now second.now) ids.now) }
{
    match ids {
        Some(ids) => add_products(sums, first, second, ids),
        None => add_all_products(sums, first, second),
    }
}

/// Adds all values to the one cell.
fn add_values(sums: &mut Sums, values: &[u64])
    requires one { length sums.old ≡ 1 }
    requires few { length values.now ≤ max_rows }
    ensures { sums.new ≡ cell_of (slice_index sums.old 0 + sum values.now) ∷ [] }
{
    let mut total: u128 = 0;
    for number in 0..values.len().div_ceil(BLOCK_LEN) {
        let first = number * BLOCK_LEN;
        let end = values.len().min(first + BLOCK_LEN);
        total += block_sum(&values[first..end]);
    }
    sums.add_total(total);
}

/// Adds the product of each row to the one cell.
fn add_all_products(sums: &mut Sums, first: &[u64], second: &[u64])
    requires one { length sums.old ≡ 1 }
    requires few { length first.now ≤ max_rows }
    requires same { length first.now ≡ length second.now }
    ensures { sums.new ≡ cell_of (slice_index sums.old 0 + sum (products_of first.now second.now)) ∷ [] }
{
    sums.tell_cells();
    for number in 0..first.len().div_ceil(BLOCK_LEN) {
        let start = number * BLOCK_LEN;
        let end = first.len().min(start + BLOCK_LEN);
        sums.add_total(block_product(&first[start..end], &second[start..end]));
    }
}

#[cfg(test)]
mod tests {
    use super::*;
    use std::test::Fail;

    #[test]
    fn a_product_of_2_to_the_64_is_too_wide(rt: HostRuntime) -> Result<(), Fail> {
        let mut sums = Sums::new(rt.alloc(), 1)?;
        sum_product_plain(&[1 << 63], &[2], Some(&[0]), &mut sums);
        assert_eq!(rt; sums.value(0), None);
        assert_eq!(rt; too_wide(&sums), Some(0));
        Ok(())
    }

    #[test]
    fn the_greatest_sum_is_one_below_2_to_the_64(rt: HostRuntime) -> Result<(), Fail> {
        let mut sums = Sums::new(rt.alloc(), 1)?;
        sum_plain(&[u64::MAX - 7, 7], None, &mut sums);
        assert_eq!(rt; sums.value(0), Some(u64::MAX));
        assert_eq!(rt; too_wide(&sums), None);
        sum_plain(&[1], None, &mut sums);
        assert_eq!(rt; sums.value(0), None);
        Ok(())
    }

    #[test]
    fn each_value_goes_to_its_group(rt: HostRuntime) -> Result<(), Fail> {
        let mut sums = Sums::new(rt.alloc(), 3)?;
        sum_plain(&[5, u64::MAX, 6, 1], Some(&[0, 2, 0, 2]), &mut sums);
        assert_eq!(rt; sums.value(0), Some(11));
        assert_eq!(rt; sums.value(1), Some(0));
        assert_eq!(rt; too_wide(&sums), Some(2));
        Ok(())
    }

    fn too_wide(sums: &Sums) -> Option<u64> {
        match sums.check() {
            Ok(()) => None,
            Err(wide) => Some(wide.group),
        }
    }
}
