//! Sums of whole columns over any source.

ghost use Rattle.std.specs.Prelude.{◌≡◌, ◌<◌, ◌≤◌, ◌+◌, ◌*◌, ◌^◌, [], ◌∷◌, length, sum, slice_index};
ghost use Rattle.definitions_operators.specs.Costs.{block_count};
ghost use Rattle.definitions_operators.specs.Groups.{products_of};
ghost use Rattle.sum_ops.specs.Cells.{cell_of};

use crate::Sums;
use crate::blocks::{block_product, block_sum};
use block_core::{BLOCK_LEN, Block, BlockSource, Steps};

/// Adds all values to the one cell. It decodes one block at a time and takes one step for each. The lane width `L` changes nothing.
pub fn sum_all<const L: usize, V: BlockSource, G>(
    values: &mut V,
    sums: &mut Sums,
    steps: &mut Steps<G>,
)
    requires one { length sums.old ≡ 1 }
    ensures sums { sums.new ≡ cell_of (slice_index sums.old 0 + sum (V.list values.old)) ∷ [] }
    ensures kept { V.list values.new ≡ V.list values.old }
    ensures later { steps.old ≤ steps.new }
    ensures steps { steps.new ≤ steps.old + block_count (V.list values.old) }
{
    let mut block = Block::new();
    let mut total: u128 = 0;
    for number in 0..values.count().div_ceil(BLOCK_LEN as u64) {
        values.block(number, &mut block, steps);
        total += block_sum(block.as_slice());
    }
    sums.add_total(total);
}

/// Adds the products of the values of two columns, row by row, to the one cell. It decodes a block of each at a time.
pub fn sum_product_all<A: BlockSource, B: BlockSource, G>(
    first: &mut A,
    second: &mut B,
    sums: &mut Sums,
    steps: &mut Steps<G>,
)
    requires one { length sums.old ≡ 1 }
    requires same { length (A.list first.old) ≡ length (B.list second.old) }
    ensures sums { sums.new ≡ cell_of (slice_index sums.old 0 + sum (products_of (A.list first.old) (B.list second.old))) ∷ [] }
    ensures kept_first { A.list first.new ≡ A.list first.old }
    ensures kept_second { B.list second.new ≡ B.list second.old }
    ensures later { steps.old ≤ steps.new }
    ensures steps { steps.new ≤ steps.old + 2 * block_count (A.list first.old) }
{
    sums.tell_cells();
    let mut left = Block::new();
    let mut right = Block::new();
    for number in 0..first.count().div_ceil(BLOCK_LEN as u64) {
        first.block(number, &mut left, steps);
        second.block(number, &mut right, steps);
        sums.add_total(block_product(left.as_slice(), right.as_slice()));
    }
}
