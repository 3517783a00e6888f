//! Reading a block: what its bytes have to be, and its values.

ghost use Rattle.std.specs.Prelude.{◌≡◌, ◌≢◌, ◌↔◌, ℕ, List, length, map, replicate, slice_index, take, ◌<◌, ◌≤◌, IsTrue, MatchOption, Some, None};
ghost use Rattle.definitions_blocks.specs.Blocks.{block_values};
ghost use Rattle.definitions_blocks.specs.Runs.{run_values, IsRunsBlock};
ghost use Rattle.run_formats.specs.Cells.{count_in, run_in, Passes, BeginsWithRuns};

use crate::cells::{HEAD_LEN, block_size, cells_of, length_of, run_count_in, value_of};

/// How many runs a block has at most: each of its 1,024 values is one.
const MAX_RUNS: u16 = 1024;

/// Up to how many values a run is written by a fixed number of stores.
const SHORT: usize = 4;

/// How many runs the block has that the bytes begin with, where they begin with one.
pub fn found_count(bytes: &[u8]) -> Option<u16>
    ensures { MatchOption result (BeginsWithRuns bytes.now → ⊥) (λ runs. BeginsWithRuns bytes.now × (runs ≡ count_in bytes.now)) }
{
    if bytes.len() < HEAD_LEN {
        return None;
    }
    let runs = run_count_in(bytes);
    if runs == 0 || runs > MAX_RUNS || bytes.len() < block_size(runs) {
        return None;
    }
    let whole = are_runs(cells_of(bytes, runs));
    if whole { Some(runs) } else { None }
}

/// Whether the cells are the runs of a full block. It stops at the first that cannot be.
fn are_runs(cells: &[[u8; 10]]) -> bool
    ensures { IsTrue result ↔ Passes None block_values (map run_in cells.now) }
{
    let mut before = None;
    let mut left = MAX_RUNS;
    for cell in cells {
        let value = value_of(cell);
        let length = length_of(cell);
        if length == 0 || length > left || goes_on(before, value) {
            return false;
        }
        before = Some(value);
        left -= length;
    }
    left == 0
}

/// Whether a run of the value goes on with the one before it.
#[inline(always)]
fn goes_on(before: Option<u64>, value: u64) -> bool
    ensures { IsTrue result ↔ (before ≡ Some value) }
{
    match before {
        Some(last) => last == value,
        None => false,
    }
}

/// The value at a place of the block that these bytes encode. It goes over the runs before the value and writes nothing.
pub fn pick(bytes: &[u8], place: usize) -> u64
    requires encoded { (values : List ℕ) × IsRunsBlock values bytes.now }
    requires within { place < block_values }
    ensures { (values : List ℕ) → IsRunsBlock values bytes.now → result ≡ slice_index values place }
{
    value_at(cells_of(bytes, run_count_in(bytes)), place)
}

/// The value at a place of the runs.
fn value_at(cells: &[[u8; 10]], place: usize) -> u64
    requires { place < length (run_values (map run_in cells.now)) }
    ensures { result ≡ slice_index (run_values (map run_in cells.now)) place }
{
    let mut left = place;
    for cell in cells {
        let length = length_of(cell) as usize;
        if left < length {
            return value_of(cell);
        }
        left -= length;
    }

    // The runs have a value at the place, so this is never reached.
    0
}

/// Writes the values of the runs, one after the other.
pub fn write_values(cells: &[[u8; 10]], into: &mut [u64])
    requires { length into.old ≡ length (run_values (map run_in cells.now)) }
    ensures { into.new ≡ run_values (map run_in cells.now) }
{
    let mut place = 0;
    for cell in cells {
        let length = usize::from(length_of(cell));
        write_run(value_of(cell), length, &mut into[place..]);
        place += length;
    }
}

/// Writes a run at the front. What stands behind it is any: it is written later.
#[inline(always)]
fn write_run(value: u64, run_length: usize, into: &mut [u64])
    requires { run_length ≤ length into.old }
    ensures front { take run_length into.new ≡ replicate run_length value }
    ensures kept { length into.new ≡ length into.old }
{
    // A short run in as many places as a fixed number of stores has: no loop is left, nor a branch that depends on its length.
    if run_length <= SHORT && SHORT <= into.len() {
        into[..SHORT].fill(value);
    } else {
        into[..run_length].fill(value);
    }
}
