//! What base and differences tell of their block.

ghost use Rattle.definitions_blocks.specs.Differences.{AreDelta1Differences, AreDelta16Differences, AreReferenceDifferences, HoldsOfOneBlock};

/// In each transform base and differences are those of one full block at most. A call costs nothing.
pub fn differences_have_one_block()
    ensures delta1 { HoldsOfOneBlock AreDelta1Differences }
    ensures delta16 { HoldsOfOneBlock AreDelta16Differences }
    ensures reference { HoldsOfOneBlock AreReferenceDifferences }
{}
