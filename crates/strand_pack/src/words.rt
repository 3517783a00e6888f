//! The 64-bit words of a packed block. A word of one strand stands beside those of the 15 others, so neighbouring strands
//! are read and written by vectors.

ghost use Rattle.std.specs.Prelude.{◌≡◌, ℕ, ◌+◌, ◌*◌, ◌<◌, ◌≤◌, length, slice_index};
ghost use Rattle.std.specs.Int.{to_le_bytes, w64};
ghost use Rattle.definitions_blocks.specs.Words.{word_of};

use lane_core::Lanes;

/// How many bits a word has.
pub const WORD_BITS: usize = 64;

/// The word at a place.
#[inline(always)]
pub fn word_at(bytes: &[u8], place: usize) -> u64
    requires { 8 * place + 8 ≤ length bytes.now }
    ensures { result ≡ word_of bytes.now place }
{
    let (words, _) = bytes.as_chunks::<8>();
    u64::from_le_bytes(words[place])
}

/// The words from a place on, one for each lane.
#[inline(always)]
pub fn words_at<const L: usize>(bytes: &[u8], place: usize) -> Lanes<L>
    requires few { L ≤ 16 }
    requires inside { 8 * (place + L) ≤ length bytes.now }
    ensures each { (lane : ℕ) → lane < L → slice_index result lane ≡ word_of bytes.now (place + lane) }
    ensures lanes { length result ≡ L }
{
    let mut words = [0; L];
    for lane in 0..L {
        words[lane] = word_at(bytes, place + lane);
    }
    Lanes::load(&words)
}

/// Writes a word at a place.
#[inline(always)]
pub fn put_word(word: u64, into: &mut [u8], place: usize)
    requires { 8 * place + 8 ≤ length into.old }
    ensures written { word_of into.new place ≡ word }
    ensures below { (k : ℕ) → k < 8 * place → slice_index into.new k ≡ slice_index into.old k }
    ensures above { (k : ℕ) → 8 * place + 8 ≤ k → slice_index into.new k ≡ slice_index into.old k }
{
    set_word(word, &mut into[8 * place..8 * place + 8]);
}

// As an array the eight bytes are written by one store.
#[inline(always)]
fn set_word(word: u64, into: &mut [u8])
    requires { length into.old ≡ 8 }
    ensures { into.new ≡ to_le_bytes w64 word }
{
    if let Some(bytes) = into.as_mut_array::<8>() {
        *bytes = word.to_le_bytes();
    }
}

/// Writes the words from a place on, one from each lane.
#[inline(always)]
pub fn put_words<const L: usize>(words: Lanes<L>, into: &mut [u8], place: usize)
    requires few { L ≤ 16 }
    requires inside { 8 * (place + L) ≤ length into.old }
    ensures written { (lane : ℕ) → lane < L → word_of into.new (place + lane) ≡ slice_index words.entry lane }
    ensures below { (k : ℕ) → k < 8 * place → slice_index into.new k ≡ slice_index into.old k }
    ensures above { (k : ℕ) → 8 * (place + L) ≤ k → slice_index into.new k ≡ slice_index into.old k }
{
    let mut copied = [0; L];
    words.store(&mut copied);
    for lane in 0..L {
        put_word(copied[lane], into, place + lane);
    }
}
