//! Cascades of a transform and a packing.

ghost use Rattle.std.specs.Prelude.{◌≡◌, ◌≤◌, ◌++◌, length, take, drop};
ghost use Rattle.definitions_blocks.specs.Words.{word_bytes};
ghost use Rattle.definitions_blocks.specs.Encodings.{IsCascade};
ghost use Rattle.definitions_blocks.proofs.CascadeLaws.{IsPacking-cascade};

use block_core::{Block, Packing, Transform, words_fit};
use std::marker::PhantomData;

/// A block as the base of `T` in eight bytes, the little end first, and then its differences as `P` encodes them. The param is
/// that of `P`, the head the base and the head of `P`.
pub struct Cascade<T, P> {
    transform: PhantomData<T>,
    packing: PhantomData<P>,
}

impl<T: Transform<Base = u64>, P: Packing> Packing for Cascade<T, P> {
    type Param = P::Param;

    type Head = (u64, P::Head);

    ghost encodes = { λ param values bytes. IsCascade T.base_of T.differences_of (P.encodes param) values bytes };

    ghost block_head = { λ param values. (T.base_of values, P.block_head param (T.differences_of values)) };

    fn head_of(param: P::Param, full: &Block) -> (u64, P::Head) {
        words_fit(full.as_slice());
        let mut differences = Block::new();
        let base = T::split(full, &mut differences);
        (base, P::head_of(param, &differences))
    }

    fn byte_len(param: P::Param, head: (u64, P::Head)) -> usize {
        8 + P::byte_len(param, head.1)
    }

    fn head_in(param: P::Param, bytes: &[u8]) -> (u64, P::Head) {
        (word_of(bytes), P::head_in(param, rest_of(bytes)))
    }

    fn encode(param: P::Param, head: (u64, P::Head), full: &Block, into: &mut [u8]) {
        let mut differences = Block::new();
        let base = T::split(full, &mut differences);
        put_word(base, into);
        P::encode(param, head.1, &differences, &mut into[8..]);
    }

    fn check(param: P::Param, bytes: &[u8]) -> Option<((u64, P::Head), usize)> {
        if bytes.len() < 8 {
            return None;
        }
        let base = word_of(bytes);
        let rest = rest_of(bytes);
        match P::check(param, rest) {
            None => None,
            Some((head, count)) => {
                let mut differences = Block::new();
                P::decode(param, head, &rest[..count], &mut differences);
                if T::allowed(base, &differences) {
                    Some(((base, head), 8 + count))
                } else {
                    None
                }
            }
        }
    }

    fn decode(param: P::Param, head: (u64, P::Head), bytes: &[u8], into: &mut Block) {
        P::decode(param, head.1, rest_of(bytes), into);
        T::join(head.0, into);
    }

    ghost laws = { IsPacking-cascade T.base_of T.differences_of P.encodes P.block_head T.laws P.laws };
}

// The number that the bytes begin with.
fn word_of(bytes: &[u8]) -> u64
    requires { 8 ≤ length bytes.now }
    ensures { word_bytes result ≡ take 8 bytes.now }
{
    let mut word = [0; 8];
    word.copy_from_slice(&bytes[..8]);
    u64::from_le_bytes(word)
}

// The bytes after it.
fn rest_of(bytes: &[u8]) -> &[u8]
    requires { 8 ≤ length bytes.now }
    ensures { result.now ≡ drop 8 bytes.now }
{
    &bytes[8..]
}

// Writes a number over the first eight bytes.
fn put_word(word: u64, into: &mut [u8])
    requires { 8 ≤ length into.old }
    ensures { into.new ≡ word_bytes word ++ drop 8 into.old }
{
    into[..8].copy_from_slice(&word.to_le_bytes());
}
