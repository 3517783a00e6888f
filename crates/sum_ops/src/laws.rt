//! What cells mean.

ghost use Rattle.sum_ops.specs.Laws.{CellsAreSums};

/// The law of cells: values that are added to cells of zero give the sums of their groups. A call does nothing.
pub fn cells_are_sums()
    ensures { CellsAreSums }
{}
