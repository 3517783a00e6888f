//! The bytes of a block, read as numbers: two bytes say how many runs there are, and each run stands in a cell of ten, its
//! value in eight bytes and its length in two.

ghost use Rattle.std.specs.Prelude.{◌≡◌, ◌+◌, ◌*◌, ◌≤◌, ℕ, length};
ghost use Rattle.run_formats.specs.Cells.{count_in, value_in, length_in, cells_in};

/// How many bytes say how many runs there are.
pub const HEAD_LEN: usize = 2;

/// How many bytes a run takes.
pub const CELL_LEN: usize = 10;

/// How many runs the bytes say there are.
#[tactic(auto, unfolding(crate::specs::Cells::count_in))]
pub fn run_count_in(bytes: &[u8]) -> u16
    requires { 2 ≤ length bytes.now }
    ensures { result ≡ count_in bytes.now }
{
    u16::from_le_bytes([bytes[0], bytes[1]])
}

/// How long the encoding of a block of so many runs is.
pub fn block_size(runs: u16) -> usize
    ensures { result ≡ 2 + 10 * runs }
{
    HEAD_LEN + CELL_LEN * usize::from(runs)
}

/// The cells of a block of so many runs.
pub fn cells_of(bytes: &[u8], runs: u16) -> &[[u8; 10]]
    requires { 2 + 10 * runs ≤ length bytes.now }
    ensures { result.now ≡ cells_in runs bytes.now }
{
    let (cells, _) = bytes[HEAD_LEN..].as_chunks::<10>();
    &cells[..usize::from(runs)]
}

/// The value of a run.
#[inline(always)]
pub fn value_of(cell: &[u8; 10]) -> u64
    ensures { result ≡ value_in cell.now }
{
    let (words, _) = cell.as_chunks::<8>();
    u64::from_le_bytes(words[0])
}

/// How long a run is.
#[inline(always)]
pub fn length_of(cell: &[u8; 10]) -> u16
    ensures { result ≡ length_in cell.now }
{
    u16::from_le_bytes([cell[8], cell[9]])
}
