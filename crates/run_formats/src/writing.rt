//! Writing a block's runs in one pass over its values.

ghost use Rattle.std.specs.Prelude.{◌≡◌, ◌+◌, ◌*◌, ◌<◌, ◌≤◌, List, length, flat_map};
ghost use Rattle.definitions_blocks.specs.Runs.{Run, AreRunsOf, run_bytes, run_count, two_bytes};

use crate::cells::CELL_LEN;

/// How many runs the values have.
pub fn count_runs(values: &[u64]) -> u16
    requires some { 0 < length values.now }
    requires few { length values.now ≤ 1024 }
    ensures count { result ≡ run_count values.now }
    ensures runs { (runs : List Run) → AreRunsOf runs values.now → result ≡ length runs }
{
    let mut before = values[0];
    let mut runs = 1;
    for value in values {
        runs += u16::from(*value != before);
        before = *value;
    }
    runs
}

/// Writes how many runs there are.
#[tactic(auto, unfolding(definitions_blocks::specs::Runs::two_bytes))]
pub fn put_count(runs: u16, into: &mut [u8])
    requires { length into.old ≡ 2 }
    ensures { into.new ≡ two_bytes runs }
{
    into.copy_from_slice(&runs.to_le_bytes());
}

/// Writes each run of the values.
pub fn put_runs(values: &[u64], into: &mut [u8])
    requires some { 0 < length values.now }
    requires few { length values.now ≤ 1024 }
    requires size { length into.old ≡ 10 * run_count values.now }
    ensures { (runs : List Run) → AreRunsOf runs values.now → into.new ≡ flat_map run_bytes runs }
{
    let mut value = values[0];
    let mut length = 0;
    let mut place = 0;
    for next in values {
        if *next != value {
            put_run(value, length, &mut into[place..place + CELL_LEN]);
            place += CELL_LEN;
            value = *next;
            length = 0;
        }
        length += 1;
    }
    put_run(value, length, &mut into[place..]);
}

/// Writes a run: its value in eight bytes, and its length in two.
#[inline(always)]
fn put_run(value: u64, run_length: u16, into: &mut [u8])
    requires { length into.old ≡ 10 }
    ensures { into.new ≡ run_bytes (record { value = value; length = run_length }) }
{
    into[..8].copy_from_slice(&value.to_le_bytes());
    into[8..].copy_from_slice(&run_length.to_le_bytes());
}
