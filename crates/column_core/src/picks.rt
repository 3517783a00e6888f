//! Single values of a block, picked from its encoding.

ghost use Rattle.std.specs.Prelude.{◌≡◌, ◌<◌, ◌≤◌, ℕ, List, length, drop, slice_index};
ghost use Rattle.definitions_blocks.specs.Blocks.{block_values};
ghost use Rattle.definitions_blocks.specs.Differences.{delta16_of, first_of, least_of, reference_of};
ghost use Rattle.definitions_blocks.specs.Encodings.{IsDynamicBlock, IsCascade};

use block_core::{Packing, STRANDS};
use block_formats::Dynamic;
use cascade_formats::{Cascade, Delta16, Reference};

/// How many bytes the base of a cascade takes.
const BASE_LEN: usize = 8;

/// A value of a block that is packed at its own width.
pub fn pick_dynamic(bytes: &[u8], place: usize) -> u64
    requires encoded { (values : List ℕ) × IsDynamicBlock values bytes.now }
    requires within { place < block_values }
    ensures { (values : List ℕ) → IsDynamicBlock values bytes.now → result ≡ slice_index values place }
{
    strand_pack::pick(&bytes[1..], Dynamic::<8>::head_in((), bytes), place)
}

/// A value of a block of differences to the least value, which are packed at their own width.
pub fn pick_reference(bytes: &[u8], place: usize) -> u64
    requires encoded { (values : List ℕ) × IsCascade least_of reference_of IsDynamicBlock values bytes.now }
    requires within { place < block_values }
    ensures { (values : List ℕ) → IsCascade least_of reference_of IsDynamicBlock values bytes.now → result ≡ slice_index values place }
{
    let (base, _) = Cascade::<Reference<8>, Dynamic<8>>::head_in((), bytes);
    base.wrapping_add(pick_dynamic(differences_in(bytes), place))
}

/// A value of a block of differences to the value 16 places before, which are packed at their own width. It adds up the
/// differences of its strand, 64 at most.
pub fn pick_delta16(bytes: &[u8], place: usize) -> u64
    requires encoded { (values : List ℕ) × IsCascade first_of delta16_of IsDynamicBlock values bytes.now }
    requires within { place < block_values }
    ensures { (values : List ℕ) → IsCascade first_of delta16_of IsDynamicBlock values bytes.now → result ≡ slice_index values place }
{
    let (base, _) = Cascade::<Delta16<8>, Dynamic<8>>::head_in((), bytes);
    let differences = differences_in(bytes);
    let strand = place % STRANDS;
    let mut value = base;
    for row in 0..place / STRANDS + 1 {
        let difference = pick_dynamic(differences, row * STRANDS + strand);
        value = value.wrapping_add(difference);
    }
    value
}

/// What stands behind the base of a cascade.
fn differences_in(bytes: &[u8]) -> &[u8]
    requires { 8 ≤ length bytes.now }
    ensures { result.now ≡ drop 8 bytes.now }
{
    &bytes[BASE_LEN..]
}
