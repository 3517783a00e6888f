//! One block in any format. Only here is the packing of a format chosen.

ghost use Rattle.std.specs.Prelude.{◌≡◌, ◌+◌, ◌<◌, ◌≤◌, ◌++◌, ◌^◌, ℕ, List, length, take, slice_index, OnOk, OnErr, IsOk, IfSome, MatchOption, vec_len};
ghost use Rattle.std.specs.Vec.{vec_capacity};
ghost use Rattle.definitions_blocks.specs.Blocks.{block_values};
ghost use Rattle.definitions_blocks.specs.Formats.{BlockOf, IsColumnWidth, LacksBlock, BeginsWith, BeginsWithBlock};
ghost use Rattle.block_core.specs.Formats.{format_of};
ghost use Rattle.definitions_blocks.specs.Packings.{NoBlock};

use crate::picks::{pick_delta16, pick_dynamic, pick_reference};
use block_core::{Block, Format, Packing};
use block_formats::{Dynamic, Static, Words};
use cascade_formats::{Cascade, Delta1, Delta16, Reference};
use run_formats::Runs;
use std::alloc::AllocError;

/// How long the block is that the bytes begin with, if they begin with one of the format. Each byte of it is read once.
pub fn check_block(format: Format, static_width: u8, bytes: &[u8]) -> Option<usize>
    requires { IsColumnWidth (format_of format) static_width }
    ensures { MatchOption result (LacksBlock (format_of format) static_width bytes.now)
        (λ count. BeginsWithBlock (format_of format) static_width bytes.now count) }
{
    match format {
        Format::Plain => found::<Words>((), bytes),
        Format::Static => found::<Static<8>>(static_width, bytes),
        Format::Dynamic => found::<Dynamic<8>>((), bytes),
        Format::Runs => found::<Runs>((), bytes),
        Format::Delta1Dynamic => found::<Cascade<Delta1<8>, Dynamic<8>>>((), bytes),
        Format::Delta16Dynamic => found::<Cascade<Delta16<8>, Dynamic<8>>>((), bytes),
        Format::ReferenceDynamic => found::<Cascade<Reference<8>, Dynamic<8>>>((), bytes),
        Format::Delta1Runs => found::<Cascade<Delta1<8>, Runs>>((), bytes),
    }
}

/// How many bytes the encoding of a block has: 10,250 at most, since a block has at most 1,024 runs.
pub fn block_len(format: Format, static_width: u8, full: &Block) -> usize
    requires { (bytes : List ℕ) × BlockOf (format_of format) static_width full.now bytes }
    ensures len { (bytes : List ℕ) → BlockOf (format_of format) static_width full.now bytes → result ≡ length bytes }
    ensures small { result ≤ 10250 }
{
    len_of_encoding(format, static_width, full)
}

fn len_of_encoding(format: Format, static_width: u8, full: &Block) -> usize
    requires { (bytes : List ℕ) × BlockOf (format_of format) static_width full.now bytes }
    ensures { (bytes : List ℕ) → BlockOf (format_of format) static_width full.now bytes → result ≡ length bytes }
{
    match format {
        Format::Plain => encoded_len::<Words>((), full),
        Format::Static => encoded_len::<Static<8>>(static_width, full),
        Format::Dynamic => encoded_len::<Dynamic<8>>((), full),
        Format::Runs => encoded_len::<Runs>((), full),
        Format::Delta1Dynamic => encoded_len::<Cascade<Delta1<8>, Dynamic<8>>>((), full),
        Format::Delta16Dynamic => encoded_len::<Cascade<Delta16<8>, Dynamic<8>>>((), full),
        Format::ReferenceDynamic => encoded_len::<Cascade<Reference<8>, Dynamic<8>>>((), full),
        Format::Delta1Runs => encoded_len::<Cascade<Delta1<8>, Runs>>((), full),
    }
}

/// Writes the encoding of a block, which is as long as `into`.
pub fn encode_block<const L: usize>(format: Format, static_width: u8, full: &Block, into: &mut [u8])
    requires { (bytes : List ℕ) × BlockOf (format_of format) static_width full.now bytes × (length into.old ≡ length bytes) }
    ensures { BlockOf (format_of format) static_width full.now into.new }
{
    match format {
        Format::Plain => encode::<Words>((), full, into),
        Format::Static => encode::<Static<L>>(static_width, full, into),
        Format::Dynamic => encode::<Dynamic<L>>((), full, into),
        Format::Runs => encode::<Runs>((), full, into),
        Format::Delta1Dynamic => encode::<Cascade<Delta1<L>, Dynamic<L>>>((), full, into),
        Format::Delta16Dynamic => encode::<Cascade<Delta16<L>, Dynamic<L>>>((), full, into),
        Format::ReferenceDynamic => encode::<Cascade<Reference<L>, Dynamic<L>>>((), full, into),
        Format::Delta1Runs => encode::<Cascade<Delta1<L>, Runs>>((), full, into),
    }
}

/// Leaves in `into` the block that the bytes encode. Nothing is checked, since they are known to encode one.
pub fn decode_block<const L: usize>(
    format: Format,
    static_width: u8,
    bytes: &[u8],
    into: &mut Block,
)
    requires { (values : List ℕ) × BlockOf (format_of format) static_width values bytes.now }
    ensures { BlockOf (format_of format) static_width into.new bytes.now }
{
    match format {
        Format::Plain => decode::<Words>((), bytes, into),
        Format::Static => decode::<Static<L>>(static_width, bytes, into),
        Format::Dynamic => decode::<Dynamic<L>>((), bytes, into),
        Format::Runs => decode::<Runs>((), bytes, into),
        Format::Delta1Dynamic => decode::<Cascade<Delta1<L>, Dynamic<L>>>((), bytes, into),
        Format::Delta16Dynamic => decode::<Cascade<Delta16<L>, Dynamic<L>>>((), bytes, into),
        Format::ReferenceDynamic => decode::<Cascade<Reference<L>, Dynamic<L>>>((), bytes, into),
        Format::Delta1Runs => decode::<Cascade<Delta1<L>, Runs>>((), bytes, into),
    }
}

/// The value at a place of the block that the bytes encode. There is none in the formats that give no value cheaper than all.
pub(crate) fn pick_value(
    format: Format,
    static_width: u8,
    bytes: &[u8],
    place: usize,
) -> Option<u64>
    requires encoded { (values : List ℕ) × BlockOf (format_of format) static_width values bytes.now }
    requires within { place < block_values }
    ensures { (values : List ℕ) → BlockOf (format_of format) static_width values bytes.now →
        IfSome result (λ value. value ≡ slice_index values place) }
{
    match format {
        Format::Static => Some(strand_pack::pick(bytes, static_width, place)),
        Format::Dynamic => Some(pick_dynamic(bytes, place)),
        Format::Runs => Some(run_formats::pick(bytes, place)),
        Format::Delta16Dynamic => Some(pick_delta16(bytes, place)),
        Format::ReferenceDynamic => Some(pick_reference(bytes, place)),
        _ => None,
    }
}

/// Appends the encoding of a block. The block's head is found once, for its length and for its bytes.
pub(crate) fn append_block(
    format: Format,
    static_width: u8,
    full: &Block,
    bytes: &mut Vec<u8>,
) -> Result<(), AllocError>
    requires { (encoding : List ℕ) × BlockOf (format_of format) static_width full.now encoding }
    ensures ok { OnOk result ((encoding : List ℕ) × BlockOf (format_of format) static_width full.now encoding
        × (bytes.new.items ≡ bytes.old.items ++ encoding)) }
    ensures err { OnErr result (bytes.new.items ≡ bytes.old.items) }
    ensures capacity { vec_capacity bytes.old ≤ vec_capacity bytes.new }
    ensures sure { (encoding : List ℕ) → BlockOf (format_of format) static_width full.now encoding →
        vec_len bytes.old + length encoding ≤ vec_capacity bytes.old → IsOk result }
{
    match format {
        Format::Plain => append::<Words>((), full, bytes),
        Format::Static => append::<Static<8>>(static_width, full, bytes),
        Format::Dynamic => append::<Dynamic<8>>((), full, bytes),
        Format::Runs => append::<Runs>((), full, bytes),
        Format::Delta1Dynamic => append::<Cascade<Delta1<8>, Dynamic<8>>>((), full, bytes),
        Format::Delta16Dynamic => append::<Cascade<Delta16<8>, Dynamic<8>>>((), full, bytes),
        Format::ReferenceDynamic => append::<Cascade<Reference<8>, Dynamic<8>>>((), full, bytes),
        Format::Delta1Runs => append::<Cascade<Delta1<8>, Runs>>((), full, bytes),
    }
}

/// The length of the block of a packing that the bytes begin with.
fn found<P: Packing>(param: P::Param, bytes: &[u8]) -> Option<usize>
    ensures { MatchOption result (NoBlock P.encodes param bytes.now) (λ count. BeginsWith (P.encodes param) bytes.now count) }
{
    match P::check(param, bytes) {
        Some((_, count)) => Some(count),
        None => None,
    }
}

fn encoded_len<P: Packing>(param: P::Param, full: &Block) -> usize
    requires { (bytes : List ℕ) × (length bytes < 2 ^ 32) × P.encodes param full.now bytes }
    ensures { (bytes : List ℕ) → P.encodes param full.now bytes → result ≡ length bytes }
{
    P::byte_len(param, P::head_of(param, full))
}

fn encode<P: Packing>(param: P::Param, full: &Block, into: &mut [u8])
    requires { (bytes : List ℕ) × P.encodes param full.now bytes × (length into.old ≡ length bytes) }
    ensures { P.encodes param full.now into.new }
{
    P::encode(param, P::head_of(param, full), full, into);
}

fn decode<P: Packing>(param: P::Param, bytes: &[u8], into: &mut Block)
    requires { (values : List ℕ) × P.encodes param values bytes.now }
    ensures { P.encodes param into.new bytes.now }
{
    P::decode(param, P::head_in(param, bytes), bytes, into);
}

fn append<P: Packing>(param: P::Param, full: &Block, bytes: &mut Vec<u8>) -> Result<(), AllocError>
    requires { (encoding : List ℕ) × (length encoding < 2 ^ 32) × P.encodes param full.now encoding }
    ensures ok { OnOk result ((encoding : List ℕ) × P.encodes param full.now encoding × (bytes.new.items ≡ bytes.old.items ++ encoding)) }
    ensures err { OnErr result (bytes.new.items ≡ bytes.old.items) }
    ensures capacity { vec_capacity bytes.old ≤ vec_capacity bytes.new }
    ensures sure { (encoding : List ℕ) → P.encodes param full.now encoding →
        vec_len bytes.old + length encoding ≤ vec_capacity bytes.old → IsOk result }
{
    let head = P::head_of(param, full);
    let start = bytes.len();
    let end = start + P::byte_len(param, head);
    bytes.resize(end, 0)?;
    P::encode(param, head, full, &mut bytes[start..]);
    Ok(())
}
