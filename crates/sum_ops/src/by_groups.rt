//! Sums by groups over any source.

ghost use Rattle.std.specs.Prelude.{◌≡◌, ◌<◌, ◌≤◌, ◌+◌, ◌*◌, length, All};
ghost use Rattle.definitions_operators.specs.Costs.{block_count};
ghost use Rattle.definitions_operators.specs.Groups.{products_of};
ghost use Rattle.sum_ops.specs.Cells.{cells_after};

use crate::Sums;
use block_core::{BLOCK_LEN, Block, BlockSource, Steps};

/// Adds each value to its group's cell. It decodes a block of each operand at a time and takes a step for each.
pub fn sum_by<V: BlockSource, I: BlockSource, G>(
    values: &mut V,
    ids: &mut I,
    sums: &mut Sums,
    steps: &mut Steps<G>,
)
    requires same { length (V.list values.old) ≡ length (I.list ids.old) }
    requires groups { All (λ id. id < length sums.old) (I.list ids.old) }
    ensures sums { sums.new ≡ cells_after sums.old (V.list values.old) (I.list ids.old) }
    ensures kept_values { V.list values.new ≡ V.list values.old }
    ensures kept_ids { I.list ids.new ≡ I.list ids.old }
    ensures later { steps.old ≤ steps.new }
    ensures steps { steps.new ≤ steps.old + 2 * block_count (V.list values.old) }
{
    sums.tell_cells();
    let mut block = Block::new();
    let mut groups = Block::new();
    for number in 0..values.count().div_ceil(BLOCK_LEN as u64) {
        values.block(number, &mut block, steps);
        ids.block(number, &mut groups, steps);
        add_rows(sums, block.as_slice(), groups.as_slice());
    }
}

/// Adds each value to its group's cell.
pub(crate) fn add_rows(sums: &mut Sums, values: &[u64], ids: &[u64])
    requires same { length values.now ≡ length ids.now }
    requires groups { All (λ id. id < length sums.old) ids.now }
    ensures { sums.new ≡ cells_after sums.old values.now ids.now }
{
    sums.tell_cells();
    for row in 0..values.len() {
        sums.tell_cells();
        sums.add(ids[row], values[row], 1);
    }
}

/// Adds each row's product to its group's cell. It decodes a block of each operand at a time and takes a step for each.
pub fn sum_product_by<A: BlockSource, B: BlockSource, I: BlockSource, G>(
    first: &mut A,
    second: &mut B,
    ids: &mut I,
    sums: &mut Sums,
    steps: &mut Steps<G>,
)
    requires same { length (A.list first.old) ≡ length (I.list ids.old) }
    requires second_same { length (B.list second.old) ≡ length (I.list ids.old) }
    requires groups { All (λ id. id < length sums.old) (I.list ids.old) }
    ensures sums { sums.new ≡ cells_after sums.old (products_of (A.list first.old) (B.list second.old)) (I.list ids.old) }
    ensures kept_first { A.list first.new ≡ A.list first.old }
    ensures kept_second { B.list second.new ≡ B.list second.old }
    ensures kept_ids { I.list ids.new ≡ I.list ids.old }
    ensures later { steps.old ≤ steps.new }
    ensures steps { steps.new ≤ steps.old + 3 * block_count (A.list first.old) }
{
    sums.tell_cells();
    let mut left = Block::new();
    let mut right = Block::new();
    let mut groups = Block::new();
    for number in 0..ids.count().div_ceil(BLOCK_LEN as u64) {
        first.block(number, &mut left, steps);
        second.block(number, &mut right, steps);
        ids.block(number, &mut groups, steps);
        add_products(sums, left.as_slice(), right.as_slice(), groups.as_slice());
    }
}

/// Adds each row's product to its group's cell.
pub(crate) fn add_products(sums: &mut Sums, first: &[u64], second: &[u64], ids: &[u64])
    requires same { length first.now ≡ length ids.now }
    requires second_same { length second.now ≡ length ids.now }
    requires groups { All (λ id. id < length sums.old) ids.now }
    ensures { sums.new ≡ cells_after sums.old (products_of first.now second.now) ids.now }
{
    sums.tell_cells();
    for row in 0..ids.len() {
        sums.tell_cells();
        sums.add(ids[row], first[row], second[row]);
    }
}
