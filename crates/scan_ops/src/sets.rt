//! Intersections and unions of position lists, which rise.
//!
//! Which list has the lesser number next is guessed wrong every other time, so no step branches on it: each writes a number, and goes on in
//! either list by the outcome of a comparison.

ghost use Rattle.std.specs.Prelude.{◌≡◌, ◌⊎◌, ℕ, ◌+◌, ◌≤◌, ◌++◌, List as Items, take, drop, length, min, IfOk};
ghost use Rattle.definitions_operators.specs.Operators.{intersect, union};
ghost use Rattle.definitions_operators.specs.Positions.{Rises};

use std::alloc::{AllocError, Global};
use stream_core::List;

/// How many numbers were used of two lists, and how many were written.
#[derive(Clone, Copy)]
pub(crate) struct Used {
    pub left: usize,
    pub right: usize,
    pub kept: usize,
}

/// The numbers that stand in both lists.
pub fn intersect(alloc: Global, left: &[u64], right: &[u64]) -> Result<List<u64>, AllocError>
    requires left { Rises left.now }
    requires right { Rises right.now }
    ensures { IfOk result (λ found. found ≡ intersect left.now right.now) }
{
    let mut found = vec![in alloc; 0; left.len().min(right.len())]?;
    let used = meet(left, right, found.as_mut_slice());
    found.truncate(used.kept);
    Ok(List::from_vec(found))
}

/// Writes the numbers of both lists to the front of `out`, until one of the lists is used up.
pub(crate) fn meet(left: &[u64], right: &[u64], out: &mut [u64]) -> Used
    requires room { min (length left.now) (length right.now) ≤ length out.old }
    ensures ended { (result.left ≡ length left.now) ⊎ (result.right ≡ length right.now) }
    ensures left { result.left ≤ length left.now }
    ensures right { result.right ≤ length right.now }
    ensures kept_left { result.kept ≤ result.left }
    ensures kept_right { result.kept ≤ result.right }
    ensures room { length out.new ≡ length out.old }
    ensures whole { (later others : Items ℕ) → Rises (left.now ++ later) → Rises (right.now ++ others) →
        intersect (left.now ++ later) (right.now ++ others) ≡ take result.kept out.new ++ intersect (drop result.left left.now ++ later) (drop result.right right.now ++ others) }
{
    let mut used = Used {
        left: 0,
        right: 0,
        kept: 0,
    };
    while used.left < left.len() && used.right < right.len() {
        let number = left[used.left];
        let other = right[used.right];
        out[used.kept] = number;
        used.kept += usize::from(number == other);
        used.left += usize::from(number <= other);
        used.right += usize::from(other <= number);
    }
    used
}

/// The numbers that stand in one of the lists at least.
pub fn union_of(alloc: Global, left: &[u64], right: &[u64]) -> Result<List<u64>, AllocError>
    requires left { Rises left.now }
    requires right { Rises right.now }
    ensures { IfOk result (λ found. found ≡ union left.now right.now) }
{
    let mut found = vec![in alloc; 0; left.len() + right.len()]?;
    let used = merge(left, right, found.as_mut_slice());
    found.truncate(used.kept);
    found.extend_from_slice(&left[used.left..])?;
    found.extend_from_slice(&right[used.right..])?;
    Ok(List::from_vec(found))
}

/// Writes the numbers of either list to the front of `out`, until one of the lists is used up, or `out` is full.
pub(crate) fn merge(left: &[u64], right: &[u64], out: &mut [u64]) -> Used
    ensures ended { (result.left ≡ length left.now) ⊎ (result.right ≡ length right.now) ⊎ (result.kept ≡ length out.old) }
    ensures left { result.left ≤ length left.now }
    ensures right { result.right ≤ length right.now }
    ensures kept { result.kept ≤ length out.old }
    ensures few { result.kept ≤ result.left + result.right }
    ensures room { length out.new ≡ length out.old }
    ensures whole { (later others : Items ℕ) → Rises (left.now ++ later) → Rises (right.now ++ others) →
        union (left.now ++ later) (right.now ++ others) ≡ take result.kept out.new ++ union (drop result.left left.now ++ later) (drop result.right right.now ++ others) }
{
    let mut used = Used {
        left: 0,
        right: 0,
        kept: 0,
    };
    while used.left < left.len() && used.right < right.len() && used.kept < out.len() {
        let number = left[used.left];
        let other = right[used.right];
        out[used.kept] = number.min(other);
        used.kept += 1;
        used.left += usize::from(number <= other);
        used.right += usize::from(other <= number);
    }
    used
}

#[cfg(test)]
mod tests {
    use super::*;
    use std::test::Fail;

    #[test]
    fn lists_meet_and_merge_behind_the_end_of_either(rt: HostRuntime) -> Result<(), Fail> {
        let short = [2, 3, 9];
        let long = [0, 3, 4, 9, 11, 12];
        let both = [0, 2, 3, 4, 9, 11, 12];
        let first = intersect(rt.alloc(), &short, &long)?;
        assert_eq!(rt; first.as_slice(), [3, 9].as_slice(), "short and long");
        let second = intersect(rt.alloc(), &long, &short)?;
        assert_eq!(rt; second.as_slice(), [3, 9].as_slice(), "long and short");
        let none = intersect(rt.alloc(), &[], &long)?;
        assert_eq!(rt; none.as_slice().len(), 0, "nothing and long");
        let third = union_of(rt.alloc(), &short, &long)?;
        assert_eq!(rt; third.as_slice(), both.as_slice(), "short or long");
        let fourth = union_of(rt.alloc(), &long, &short)?;
        assert_eq!(rt; fourth.as_slice(), both.as_slice(), "long or short");
        let all = union_of(rt.alloc(), &long, &[])?;
        assert_eq!(rt; all.as_slice(), long.as_slice(), "long or nothing");
        Ok(())
    }
}
