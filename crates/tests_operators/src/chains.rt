//! Walks over a chain that were worked by hand.

use chain_table::Chain;
use std::test::Fail;

#[test]
fn a_walk_meets_a_key_newest_first(rt: HostRuntime) -> Result<(), Fail> {
    let mut chain = Chain::new(rt.alloc());
    chain.reserve(3)?;
    chain.insert(7, 1);
    chain.insert(8, 2);
    chain.insert(7, 3);
    let first = chain.first(7);
    assert_eq!(rt; first, Some(2), "the newest entry of 7");
    assert_eq!(rt; chain.value(2), 3, "its value");
    assert_eq!(rt; chain.next_of(2), Some(0), "the older entry of 7");
    assert_eq!(rt; chain.value(0), 1, "its value");
    assert_eq!(rt; chain.next_of(0), None, "no entry of 7 is left");
    assert_eq!(rt; chain.first(9), None, "no entry of 9");
    Ok(())
}
