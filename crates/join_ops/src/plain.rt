//! Semi-joins and joins of columns that lie in slices.

ghost use Rattle.std.specs.Prelude.{◌≡◌, ◌++◌, IfOk, OnOk};
ghost use Rattle.definitions_operators.specs.Operators.{passing_places, places_of, semi_join};
ghost use Rattle.join_ops.specs.Joins.{left_places, right_places, lefts_of};

use crate::key_maps::KeyMap;
use crate::key_sets::{KeySet, Keys};
use block_core::{BLOCK_LEN, Steps};
use scan_ops::PlaceTest;
use std::alloc::{AllocError, Global};
use stream_core::List;

/// The places of the values that are keys, which rise.
pub fn semi_join(alloc: Global, probe: &[u64], keys: &KeySet) -> Result<List<u64>, AllocError>
    ensures { IfOk result (λ places. places ≡ semi_join probe.now keys.now) }
{
    let places = match &keys.keys {
        Keys::Dense(set) => places_in(alloc, probe, set)?,
        Keys::Chained(set) => places_in(alloc, probe, set)?,
    };
    Ok(List::from_vec(places))
}

/// The places of the values that pass a test.
fn places_in<T: PlaceTest>(alloc: Global, values: &[u64], test: &T) -> Result<Vec<u64>, AllocError>
    ensures { IfOk result (λ places. places.items ≡ passing_places (T.passes test.now) values.now) }
{
    let mut places = Vec::new(alloc);
    let mut marked = [0; BLOCK_LEN];
    let mut steps = Steps::start(alloc);
    let mut first = 0;
    while first < values.len() {
        let end = first + BLOCK_LEN.min(values.len() - first);
        let kept = test.mark(&values[first..end], first as u64, &mut marked, &mut steps);
        places.extend_from_slice(&marked[..kept])?;
        first = end;
    }
    Ok(places)
}

/// For each place of the probe, rising, and each place of its value among the keys, rising, the two places, in two lists.
pub fn join(
    alloc: Global,
    probe: &[u64],
    keys: &KeyMap,
) -> Result<(List<u64>, List<u64>), AllocError>
    ensures left { IfOk result (λ lists. lists.0 ≡ left_places probe.now keys.now) }
    ensures right { IfOk result (λ lists. lists.1 ≡ right_places probe.now keys.now) }
{
    let mut lefts = Vec::new(alloc);
    let mut rights = Vec::new(alloc);
    for place in 0..probe.len() {
        append_pairs(keys, probe[place], place as u64, &mut lefts, &mut rights)?;
    }
    Ok((List::from_vec(lefts), List::from_vec(rights)))
}

/// Appends the pairs of one value: its place for each of its places among the keys, and these.
#[inline]
fn append_pairs(
    keys: &KeyMap,
    value: u64,
    place: u64,
    lefts: &mut Vec<u64>,
    rights: &mut Vec<u64>,
) -> Result<(), AllocError>
    ensures left { OnOk result (lefts.new.items ≡ lefts.old.items ++ lefts_of place (places_of keys.now value)) }
    ensures right { OnOk result (rights.new.items ≡ rights.old.items ++ places_of keys.now value) }
{
    let mut link = keys.first_link(value);
    while link > 0 {
        lefts.push(place)?;
        rights.push(u64::from(link - 1))?;
        link = keys.next_link(link - 1);
    }
    Ok(())
}
