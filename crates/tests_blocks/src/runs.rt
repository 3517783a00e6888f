//! Blocks of runs that are walked, and of which single values are picked.

ghost use Rattle.std.specs.Prelude.{◌≡◌, ℕ, List, map, IfOk};
ghost use Rattle.definitions_blocks.specs.Runs.{AreRunsOf, IsRunsBlock};
ghost use Rattle.run_formats.specs.Cells.{run_of};

use crate::encodings::encoded;
use crate::worked_blocks::LAST_APART;
use block_core::Format;
use run_formats::{RunIter, pick};
use shapes::Shape;
use std::alloc::{AllocError, Global};
use std::process::Abort;
use std::test::Fail;

/// The pairs of a block that are walked.
fn pairs_of(alloc: Global, bytes: &[u8]) -> Result<Vec<(u64, u16)>, AllocError>
    requires { (values : List ℕ) × IsRunsBlock values bytes.now }
    ensures { IfOk result (λ pairs. (values : List ℕ) → IsRunsBlock values bytes.now → AreRunsOf (map run_of pairs.items) values) }
{
    RunIter::new(bytes).collect(alloc)
}

// The block of the shape has these runs, and the value at each place.
fn expect_runs(
    rt: &impl Abort,
    alloc: Global,
    shape: Shape,
    runs: &[(u64, u16)],
) -> Result<(), Fail> {
    let block = shape.block();
    let bytes = encoded::<8>(alloc, Format::Runs, 0, &block)?;
    let pairs = pairs_of(alloc, bytes.as_slice())?;
    assert!(rt; pairs.as_slice() == runs, "the runs of {shape:?}");
    for (place, value) in block.as_slice().iter().enumerate() {
        let picked = pick(bytes.as_slice(), place);
        assert!(rt; picked == *value, "place {place} of {shape:?}");
    }
    Ok(())
}

#[test]
fn the_runs_of_a_block_are_walked_and_its_values_picked(rt: HostRuntime) -> Result<(), Fail> {
    for (shape, runs) in [
        (Shape::Constant(0), [(0, 1024)].as_slice()),
        (LAST_APART, &[(1, 1023), (u64::MAX, 1)]),
        (
            Shape::Counting {
                times: 300,
                below: 9,
            },
            &[(0, 300), (1, 300), (2, 300), (3, 124)],
        ),
    ] {
        expect_runs(&rt, rt.alloc(), shape, runs)?;
    }
    Ok(())
}
