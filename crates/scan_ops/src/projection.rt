//! Projections: the values at the rows of a position list.

ghost use Rattle.std.specs.Prelude.{◌≡◌, ℕ, ◌+◌, ◌<◌, ◌≤◌, [], true, All, take, length, IfOk, IsOk, OnOk, OnErr};
ghost use Rattle.definitions_operators.specs.Operators.{values_at};
ghost use Rattle.definitions_operators.specs.Costs.{block_count};

use block_core::{BLOCK_LEN, Block, BlockSource, Emit, PlaceSource, Steps};
use std::alloc::{AllocError, Global};
use stream_core::List;

/// The values at the places, in the places' order, which need not rise.
pub fn project(alloc: Global, values: &[u64], places: &[u64]) -> Result<List<u64>, AllocError>
    requires { All (λ place. place < length values.now) places.now }
    ensures { IfOk result (λ found. found ≡ values_at values.now places.now) }
{
    let mut found = Vec::with_capacity(alloc, places.len())?;
    for place in places {
        found.push(values[*place as usize])?;
    }
    Ok(List::from_vec(found))
}

/// Emits the values at the places, in the places' order, which need not rise. It decodes one block of places at a time, and takes a step
/// for it and at most one for each place.
pub fn project_fly<V: PlaceSource, P: BlockSource, O: Emit, G>(
    values: &mut V,
    places: &mut P,
    out: &mut O,
    steps: &mut Steps<G>,
) -> Result<(), AllocError>
    requires within { All (λ place. place < length (V.list values.old)) (P.list places.old) }
    requires empty { O.pushed out.old [] }
    requires in_scope { O.scope (O.frame out.old) (values_at (V.list values.old) (P.list places.old)) ≡ true }
    ensures ok { OnOk result (O.pushed out.new (values_at (V.list values.old) (P.list places.old))) }
    ensures err { OnErr result ((n : ℕ) × O.pushed out.new (take n (values_at (V.list values.old) (P.list places.old)))) }
    ensures sure { O.room (O.frame out.old) (values_at (V.list values.old) (P.list places.old)) ≡ true → IsOk result }
    ensures frame { O.frame out.new ≡ O.frame out.old }
    ensures kept_values { V.list values.new ≡ V.list values.old }
    ensures kept_places { P.list places.new ≡ P.list places.old }
    ensures later { steps.old ≤ steps.new }
    ensures steps { steps.new ≤ steps.old + block_count (P.list places.old) + length (P.list places.old) }
{
    let mut block = Block::new();
    let mut found = [0; BLOCK_LEN];
    let count = places.count();
    for number in 0..count.div_ceil(BLOCK_LEN as u64) {
        places.block(number, &mut block, steps);
        let piece = values.look_up(block.as_slice(), &mut found, steps);
        out.extend(piece)?;
    }
    Ok(())
}

#[cfg(test)]
mod tests {
    use super::*;
    use std::test::Fail;

    #[test]
    fn places_may_fall_and_come_back(rt: HostRuntime) -> Result<(), Fail> {
        let found = project(rt.alloc(), &[10, 20, 30], &[2, 0, 2])?;
        assert_eq!(rt; found.as_slice(), [30, 10, 30].as_slice());
        let none = project(rt.alloc(), &[10, 20, 30], &[])?;
        assert_eq!(rt; none.as_slice().len(), 0);
        Ok(())
    }
}
