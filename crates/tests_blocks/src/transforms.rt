//! Differences that are no full block. Full ones are tried as blocks of the formats that split.

use block_core::{Block, Transform};
use cascade_formats::{Delta1, Delta16, Reference};
use std::process::Abort;

// Whether a 0 is the differences of a block.
fn is_allowed<T: Transform<Base = u64>>(zero: &Block) -> bool {
    T::allowed(0, zero)
}

#[test]
fn differences_of_no_full_block_are_refused(rt: HostRuntime) {
    let zero = Block::of(&[0]);
    for (allowed, transform) in [
        (is_allowed::<Delta1<8>>(&zero), "the value before"),
        (is_allowed::<Delta16<8>>(&zero), "16 places before"),
        (is_allowed::<Reference<8>>(&zero), "the least"),
    ] {
        assert!(rt; !allowed, "a difference to {transform}");
    }
}
