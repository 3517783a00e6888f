//! Parts of bytes, and numbers as words of 8 bytes, the little end first.

ghost use Rattle.std.specs.Prelude.{◌≡◌, ◌<◌, ◌≤◌, length, drop, slice_index, List as Items, ℕ};
ghost use Rattle.std.specs.List.{AllByRecursion};
ghost use Rattle.definitions_blocks.specs.Words.{IsWord, word_bytes, words_of};

/// The eight bytes of a number.
#[tactic(auto, unfolding(definitions_blocks::specs::Words::word_bytes))]
pub fn word_bytes_of(value: u64) -> [u8; 8]
    ensures { result ≡ word_bytes value }
{
    value.to_le_bytes()
}

/// The number at a place of the words of some values.
pub fn number_at(words: &[u8], place: usize) -> u64
    requires { (values : Items ℕ) × AllByRecursion IsWord values × (words.now ≡ words_of values) × (place < length values) }
    ensures { (values : Items ℕ) → AllByRecursion IsWord values → words.now ≡ words_of values → result ≡ slice_index values place }
{
    strand_pack::word_at(words, place)
}

/// The bytes from a place on.
pub fn rest_from(bytes: &[u8], place: usize) -> &[u8]
    requires { place ≤ length bytes.now }
    ensures { result.now ≡ drop place bytes.now }
{
    &bytes[place..]
}
