//! The values after the last whole block.

ghost use Rattle.std.specs.Prelude.{◌%◌, ◌↔◌, IsTrue};
ghost use Rattle.definitions_blocks.specs.Blocks.{block_values};
ghost use Rattle.definitions_columns.specs.FileFaults.{IsHead};
ghost use Rattle.block_core.specs.Formats.{format_of};
ghost use Rattle.column_core.specs.Heads.{version_of};
ghost use Rattle.column_file.specs.Reading.{IsTail};

use block_core::{BLOCK_LEN, Block};
use column_core::Head;

/// Whether the bytes are the values that the head tells of behind its whole blocks. They are unpacked only for their width.
pub fn is_tail(head: Head, bytes: &[u8], scratch: &mut Block) -> bool
    requires { IsHead (version_of head.version) (format_of head.format) head.static_width head.tail_width head.count }
    ensures { IsTrue result ↔ IsTail (version_of head.version) (format_of head.format) head.tail_width (head.count % block_values) bytes.now }
{
    let count = (head.count % BLOCK_LEN as u64) as usize;
    if !tail_pack::check(bytes, head.tail_width, count) {
        return false;
    }
    if head.has_word_tail() {
        return true;
    }
    tail_pack::unpack(bytes, head.tail_width, count, scratch);
    strand_pack::width_of(scratch) == head.tail_width
}
