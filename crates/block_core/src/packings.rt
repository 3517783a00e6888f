//! Packings and transforms of full blocks.

ghost use Rattle.std.specs.Prelude.{◌≡◌, ℕ, ◌^◌, ◌<◌, ◌↔◌, List, length, MatchOption, IsTrue};
ghost use Rattle.definitions_blocks.specs.Blocks.{block_values};
ghost use Rattle.definitions_blocks.specs.Packings.{IsPacking, NoBlock, BlockAt, IsBlock, IsTransform, IsSplit};

use crate::Block;

/// One way to encode a full block in bytes, under a parameter that the column gives and with a head that the block gives. The
/// lane width is a parameter of the implementing type.
pub trait Packing {
    /// What the column says of all its blocks, as a width.
    type Param: Copy;

    /// What is known of a block without opening it.
    type Head: Copy;

    /// The block's encoding under the param.
    ghost encodes: { Self.Param → List ℕ → List ℕ → Type 0 };

    /// The block's head.
    ghost block_head: { Self.Param → List ℕ → Self.Head };

    fn head_of(param: Self::Param, full: &Block) -> Self::Head
        requires { length full.now ≡ block_values }
        ensures { result ≡ block_head param full.now };

    /// How long the encoding of a block of this head is.
    fn byte_len(param: Self::Param, head: Self::Head) -> usize
        requires { (bytes : List ℕ) × (length bytes < 2 ^ 64) × IsBlock encodes block_head param head bytes }
        ensures { (bytes : List ℕ) → IsBlock encodes block_head param head bytes → result ≡ length bytes };

    /// The head of the block that the bytes encode, read from its first bytes. Nothing is checked again.
    fn head_in(param: Self::Param, bytes: &[u8]) -> Self::Head
        requires { (values : List ℕ) × encodes param values bytes.now }
        ensures { (values : List ℕ) → encodes param values bytes.now → result ≡ block_head param values };

    /// Writes the block's encoding.
    fn encode(param: Self::Param, head: Self::Head, full: &Block, into: &mut [u8])
        requires encoded { (bytes : List ℕ) × encodes param full.now bytes × (length into.old ≡ length bytes) }
        requires headed { head ≡ block_head param full.now }
        ensures { encodes param full.now into.new };

    /// The head and the length of the block that the bytes begin with, if they begin with one.
    fn check(param: Self::Param, bytes: &[u8]) -> Option<(Self::Head, usize)>
        ensures { MatchOption result (NoBlock encodes param bytes.now)
            (λ found. BlockAt encodes block_head param bytes.now found.0 found.1) };

    /// Leaves in `into` the block that the bytes encode.
    fn decode(param: Self::Param, head: Self::Head, bytes: &[u8], into: &mut Block)
        requires { IsBlock encodes block_head param head bytes.now }
        ensures { encodes param into.new bytes.now };

    ghost laws: { IsPacking encodes block_head };
}

/// A block as a base and differences, which are a full block too and often a smaller one to encode.
pub trait Transform {
    type Base: Copy;

    /// The base and the differences of a full block.
    ghost base_of: { List ℕ → Self.Base };

    ghost differences_of: { List ℕ → List ℕ };

    /// Leaves the block's differences in `into`, and gives its base.
    fn split(full: &Block, into: &mut Block) -> Self::Base
        requires { length full.now ≡ block_values }
        ensures base { result ≡ base_of full.now }
        ensures differences { into.new ≡ differences_of full.now };

    /// Turns the differences into the block.
    fn join(base: Self::Base, block: &mut Block)
        requires { (values : List ℕ) × IsSplit base_of differences_of base values block.old }
        ensures { IsSplit base_of differences_of base block.new block.old };

    /// Whether base and differences are those of some block.
    fn allowed(base: Self::Base, differences: &Block) -> bool
        ensures { IsTrue result ↔ ((values : List ℕ) × IsSplit base_of differences_of base values differences.now) };

    ghost laws: { IsTransform base_of differences_of };
}

/// One checked block, whose bytes it borrows.
pub struct BlockRef<'a, P: Packing> {
    pub param: P::Param,
    pub head: P::Head,
    pub bytes: &'a [u8],
    ghost checked: { ∥ IsBlock P.encodes P.block_head param head bytes.now ∥₁ },
}
