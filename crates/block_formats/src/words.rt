//! Values as words of 8 bytes, the little end first.

ghost use Rattle.std.specs.Prelude.{◌≡◌, ◌*◌, length};
ghost use Rattle.std.specs.List.{AllByRecursion};
ghost use Rattle.definitions_blocks.specs.Words.{IsWord, words_of};

use block_core::bytes_fit;
use strand_pack::put_word;

/// Writes the values as words.
pub fn write_words(values: &[u64], into: &mut [u8])
    requires { length into.old ≡ 8 * length values.now }
    ensures { into.new ≡ words_of values.now }
{
    for place in 0..values.len() {
        put_word(values[place], into, place);
    }
    bytes_fit(into);
}

/// Reads the values whose words these bytes are.
pub fn read_words(bytes: &[u8], into: &mut [u64])
    requires { length bytes.now ≡ 8 * length into.old }
    ensures encoded { bytes.now ≡ words_of into.new }
    ensures words { AllByRecursion IsWord into.new }
    ensures kept { length into.new ≡ length into.old }
{
    let (words, _) = bytes.as_chunks::<8>();
    for place in 0..words.len() {
        into[place] = u64::from_le_bytes(words[place]);
    }
}
