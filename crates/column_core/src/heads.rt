//! The head of a column file, as it is written and as it is read.

ghost use Rattle.std.specs.Prelude.{◌≡◌, ◌/◌, ◌≤◌, ◌↔◌, ℕ, List, length, IsTrue, MatchOption};
ghost use Rattle.definitions_blocks.specs.Blocks.{block_values};
ghost use Rattle.definitions_blocks.specs.Columns.{max_rows};
ghost use Rattle.definitions_columns.specs.ColumnFiles as files;
ghost use Rattle.definitions_columns.specs.ColumnFiles.{IsFileOf, column_head, version_number};
ghost use Rattle.definitions_columns.specs.FileFaults.{IsHead};
ghost use Rattle.block_core.specs.Formats.{format_of, tag_of};
ghost use Rattle.column_core.specs.Heads.{version_of, tail_width_said, LacksHead, BeginsWithHead, IsHeadOf};

use crate::words::word_bytes_of;
use block_core::{BLOCK_LEN, Format, MAX_ROWS};
use strand_pack::{MAX_WIDTH, word_at};

/// How many bytes stand before the directory or the first block of a column file.
pub const HEAD_LEN: usize = 16;

/// Where a head has the version.
const VERSION_AT: usize = 4;

/// Where a head has the format's tag.
const TAG_AT: usize = 5;

/// Where a head has the static width.
const WIDTH_AT: usize = 6;

/// Where a head has the width of the values after the last whole block.
const TAIL_WIDTH_AT: usize = 7;

/// Where a head says in 8 bytes how many values there are.
const COUNT_AT: usize = 8;

/// The layout of a column file. Files of the first version are only read; all files that are written are of the second.
#[derive(Clone, Copy)]
pub enum Version {
    /// The values after the last whole block are words, and nothing says where blocks start.
    First,
    /// These values are packed at the least width, but for `plain`, and a directory says where the blocks of tags 2 to 7 start.
    Second,
}

impl Version {
    /// The number in a file's head.
    fn number(self) -> u8
        ensures { result ≡ version_number (version_of self) }
    {
        match self {
            Version::First => 1,
            Version::Second => 2,
        }
    }

    /// The version that has the number, if one has it.
    fn from_number(number: u8) -> Option<Version>
        ensures { MatchOption result ((version : files.Version) → version_number version ≡ number → ⊥)
            (λ version. version_number (version_of version) ≡ number) }
    {
        match number {
            1 => Some(Version::First),
            2 => Some(Version::Second),
            _ => None,
        }
    }
}

/// What a head tells of its column.
#[derive(Clone, Copy)]
pub struct Head {
    pub version: Version,
    pub format: Format,
    pub static_width: u8,
    /// The width of the values after the last whole block: 64 if they are words.
    pub tail_width: u8,
    pub count: u64,
}

impl Head {
    /// Whether the values after the last whole block are words.
    pub fn has_word_tail(&self) -> bool
        ensures { result ≡ files.has_word_tail (version_of self.now.version) (format_of self.now.format) }
    {
        match (self.version, self.format) {
            (Version::First, _) | (Version::Second, Format::Plain) => true,
            _ => false,
        }
    }

    /// Whether the file says where each whole block starts.
    pub fn has_directory(&self) -> bool
        ensures { result ≡ files.has_directory (version_of self.now.version) (format_of self.now.format) }
    {
        match (self.version, self.format) {
            (Version::First, _) => false,
            (Version::Second, Format::Plain | Format::Static) => false,
            _ => true,
        }
    }

    /// Where the first block starts.
    pub fn first_start(&self) -> u64
        requires { self.now.count ≤ max_rows }
        ensures { result ≡ files.first_start (version_of self.now.version) (format_of self.now.format) (self.now.count / block_values) }
    {
        if self.has_directory() {
            HEAD_LEN as u64 + 8 * (self.count / BLOCK_LEN as u64)
        } else {
            HEAD_LEN as u64
        }
    }

    /// The byte for the tail's width, which the first version does not have.
    fn tail_width_byte(&self) -> u8
        ensures { result ≡ files.tail_width_byte (version_of self.now.version) self.now.tail_width }
    {
        match self.version {
            Version::First => 0,
            Version::Second => self.tail_width,
        }
    }

    /// The 16 bytes: `MCOL`, the version, the format's tag, the static width, the tail's width, and the count in 8 bytes.
    pub fn bytes(&self) -> [u8; 16]
        ensures { result ≡ column_head (version_of self.now.version) (tag_of self.now.format) self.now.static_width self.now.tail_width self.now.count }
    {
        let mut bytes = *b"MCOL\0\0\0\0\0\0\0\0\0\0\0\0";
        bytes[VERSION_AT] = self.version.number();
        bytes[TAG_AT] = self.format.tag();
        bytes[WIDTH_AT] = self.static_width;
        bytes[TAIL_WIDTH_AT] = self.tail_width_byte();
        bytes[COUNT_AT..].copy_from_slice(&word_bytes_of(self.count));
        bytes
    }

    /// Whether some column's file can have this head.
    fn is_lawful(&self) -> bool
        ensures { IsTrue result ↔ IsHead (version_of self.now.version) (format_of self.now.format) self.now.static_width self.now.tail_width self.now.count }
    {
        let can_be = match self.format {
            Format::Static => self.static_width <= MAX_WIDTH,
            _ => self.static_width == 0,
        };
        let tail_can_be = if self.has_word_tail() {
            self.tail_width == MAX_WIDTH
        } else {
            self.tail_width <= MAX_WIDTH
        };
        can_be && tail_can_be && self.count <= MAX_ROWS
    }
}

/// The head that the bytes begin with, if they begin with one that some column's file can have. The 16 bytes are compared with
/// those that their own version, format, widths and count ask for.
pub fn read_head(bytes: &[u8]) -> Option<Head>
    ensures { MatchOption result (LacksHead bytes.now)
        (λ head. BeginsWithHead (version_of head.version) (format_of head.format) head.static_width head.tail_width head.count bytes.now) }
{
    if bytes.len() < HEAD_LEN {
        return None;
    }
    let found = &bytes[..HEAD_LEN];
    let version = match Version::from_number(found[VERSION_AT]) {
        Some(version) => version,
        None => return None,
    };
    let format = match Format::from_tag(found[TAG_AT]) {
        Some(format) => format,
        None => return None,
    };
    let head = Head {
        version,
        format,
        static_width: found[WIDTH_AT],
        tail_width: tail_width_in(version, found[TAIL_WIDTH_AT]),
        count: word_at(found, COUNT_AT / 8),
    };
    if head.is_lawful() && is_head(found, &head) {
        Some(head)
    } else {
        None
    }
}

/// The width that the byte for it says. In the first version it is 64, and the byte says nothing.
fn tail_width_in(version: Version, byte: u8) -> u8
    ensures { result ≡ tail_width_said (version_of version) byte }
{
    match version {
        Version::First => MAX_WIDTH,
        Version::Second => byte,
    }
}

/// Whether the bytes are this head.
fn is_head(found: &[u8], head: &Head) -> bool
    ensures { IsTrue result ↔ (found.now ≡ column_head (version_of head.now.version) (tag_of head.now.format) head.now.static_width head.now.tail_width head.now.count) }
{
    found == &head.bytes()[..]
}

/// The head of a column's file.
pub fn head_of(file: &[u8]) -> Head
    requires { (version : files.Version) × (format : Format) × (values : List ℕ) × IsFileOf version (format_of format) values file.now }
    ensures { (version : files.Version) (format : Format) (values : List ℕ) → IsFileOf version (format_of format) values file.now → IsHeadOf result version format values }
{
    read_head(file).unwrap()
}
