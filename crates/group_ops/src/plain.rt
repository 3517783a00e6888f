//! Groups of columns that lie in slices.

ghost use Rattle.std.specs.Prelude.{◌≡◌, ◌≤◌, length, IfOk};
ghost use Rattle.definitions_blocks.specs.Columns.{max_rows};
ghost use Rattle.definitions_operators.specs.Groups.{group, refine};

use crate::GroupTable;
use std::alloc::{AllocError, Global};
use stream_core::List;

/// Each row's group, and the place of each group's first row.
pub fn group(alloc: Global, values: &[u64]) -> Result<(List<u64>, List<u64>), AllocError>
    ensures ids { IfOk result (λ lists. lists.0 ≡ (group values.now).ids) }
    ensures extents { IfOk result (λ lists. lists.1 ≡ (group values.now).extents) }
{
    let mut table = GroupTable::new(alloc);
    let mut ids = Vec::with_capacity(alloc, values.len())?;
    let mut extents = Vec::new(alloc);
    for row in 0..values.len() {
        let found = table.probe(0, values[row])?;
        ids.push(found.number)?;
        if found.fresh {
            extents.push(row as u64)?;
        }
    }
    Ok((List::from_vec(ids), List::from_vec(extents)))
}

/// Each row's group among the pairs of its earlier group and its value, and the place of each group's first row.
pub fn refine(
    alloc: Global,
    before: &[u64],
    values: &[u64],
) -> Result<(List<u64>, List<u64>), AllocError>
    requires same { length before.now ≡ length values.now }
    ensures ids { IfOk result (λ lists. lists.0 ≡ (refine before.now values.now).ids) }
    ensures extents { IfOk result (λ lists. lists.1 ≡ (refine before.now values.now).extents) }
{
    let mut table = GroupTable::new(alloc);
    let mut ids = Vec::with_capacity(alloc, values.len())?;
    let mut extents = Vec::new(alloc);
    for row in 0..values.len() {
        let found = table.probe(before[row], values[row])?;
        ids.push(found.number)?;
        if found.fresh {
            extents.push(row as u64)?;
        }
    }
    Ok((List::from_vec(ids), List::from_vec(extents)))
}

#[cfg(test)]
mod tests {
    use super::*;
    use crate::GroupNumber;
    use block_core::Steps;
    use std::test::Fail;

    #[test]
    fn groups_are_numbered_as_they_occur(rt: HostRuntime) -> Result<(), Fail> {
        let (ids, extents) = group(rt.alloc(), &[7, 5, 7, 9, 5])?;
        assert_eq!(rt; ids.as_slice(), [0, 1, 0, 2, 1].as_slice());
        assert_eq!(rt; extents.as_slice(), [0, 1, 3].as_slice());
        let (none, nowhere) = group(rt.alloc(), &[])?;
        assert_eq!(rt; none.as_slice().len(), 0);
        assert_eq!(rt; nowhere.as_slice().len(), 0);
        Ok(())
    }

    #[test]
    fn one_value_in_two_earlier_groups_is_two_groups(rt: HostRuntime) -> Result<(), Fail> {
        let (ids, extents) = refine(rt.alloc(), &[0, 1, 0, 2, 1], &[4, 4, 6, 4, 4])?;
        assert_eq!(rt; ids.as_slice(), [0, 1, 2, 3, 1].as_slice());
        assert_eq!(rt; extents.as_slice(), [0, 1, 2, 3].as_slice());
        Ok(())
    }

    #[test]
    fn a_cleared_table_counts_from_0(rt: HostRuntime) -> Result<(), Fail> {
        let mut steps = Steps::start(rt.alloc());
        let mut table = GroupTable::new(rt.alloc());
        table.number(0, u64::MAX, &mut steps)?;
        let second = table.number(u64::MAX, 0, &mut steps)?;
        assert_eq!(rt; second, numbered(1, true));
        let again = table.number(u64::MAX, 0, &mut steps)?;
        assert_eq!(rt; again, numbered(1, false));
        table.clear();
        let first = table.number(u64::MAX, 0, &mut steps)?;
        assert_eq!(rt; first, numbered(0, true));
        Ok(())
    }

    fn numbered(number: u64, fresh: bool) -> GroupNumber {
        GroupNumber { number, fresh }
    }
}
